//! A step with what its log is to keep of it, made before the step is booked.
ghost use Rattle.std.specs.Prelude.{◌≡◌, ◌<◌, ◌^◌};
ghost use Rattle.shared_machine.specs.declared.Step.TheVariants as step;

use bus_core::Step;
use scsi_cmd::Task;
use std::alloc::Global;
use std::marker::Model;
use tag_desk::Prepared;

/// A submission with a copy of it, and bytes for the copy of its reply. Contracts see the step.
#[derive(Debug, Drop)]
pub struct PreparedStep {
    step: Step,
    copy: Step,
    spare: Vec<u8>,
}

impl Model for PreparedStep {
    ghost use Rattle.std.specs.Prelude.{◌≡◌};
    ghost use Rattle.shared_machine.specs.declared.Step.{Step};

    ghost Value = { Step };

    ghost view = { λ prepared. prepared.step };

    ghost invariant = { λ prepared. prepared.copy ≡ prepared.step };
}

impl PreparedStep {
    /// The submission of a client's command; takes no memory.
    pub fn submit(client: usize, tag: u16, ticket: u64, command: Prepared) -> PreparedStep
        ensures { result ≡ step.Submit client tag ticket command }
    {
        let (command, copy, spare) = command.into_parts();
        PreparedStep {
            step: Step::Submit {
                client,
                tag,
                ticket,
                command,
            },
            copy: Step::Submit {
                client,
                tag,
                ticket,
                command: copy,
            },
            spare,
        }
    }

    /// The submission of a client's task management; takes no memory.
    pub fn task(alloc: Global, client: usize, ticket: u64, task: Task) -> PreparedStep
        ensures { result ≡ step.Task client ticket task }
    {
        PreparedStep {
            step: Step::Task {
                client,
                ticket,
                task,
            },
            copy: Step::Task {
                client,
                ticket,
                task,
            },
            spare: Vec::new(alloc),
        }
    }

    /// The step, its copy, and the bytes for its reply; takes no memory.
    pub(crate) fn into_parts(self) -> (Step, Step, Vec<u8>)
        ensures step { result.0 ≡ self }
        ensures copy { result.1 ≡ self }
    {
        let PreparedStep { step, copy, spare } = self;
        (step, copy, spare)
    }
}
