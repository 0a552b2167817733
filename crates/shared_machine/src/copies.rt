//! Copies and equality of steps.
ghost use Rattle.std.specs.Prelude.{◌≡◌, ◌↔◌, IsTrue, IfOk};

use crate::Step;
use std::alloc::{AllocError, Global};

impl Step {
    /// A copy of it, for which the buffer of a command alone takes memory.
    pub fn try_clone(&self, alloc: Global) -> Result<Step, AllocError>
        ensures { IfOk result (λ copy. copy ≡ self.now) }
    {
        match self {
            Step::Submit {
                client,
                tag,
                ticket,
                command,
            } => {
                let command = command.try_clone(alloc)?;
                Ok(Step::Submit {
                    client: *client,
                    tag: *tag,
                    ticket: *ticket,
                    command,
                })
            }
            Step::Task {
                client,
                ticket,
                task,
            } => Ok(Step::Task {
                client: *client,
                ticket: *ticket,
                task: *task,
            }),
            Step::CommandPipe => Ok(Step::CommandPipe),
            Step::Data(tag) => Ok(Step::Data(*tag)),
            Step::Status(tag) => Ok(Step::Status(*tag)),
            Step::Engine => Ok(Step::Engine),
            Step::Event => Ok(Step::Event),
            Step::Retire(pipe, tag) => Ok(Step::Retire(*pipe, *tag)),
            Step::Take(client) => Ok(Step::Take(*client)),
        }
    }

    /// Whether both are the same step, with the same bytes where they bring some.
    pub fn same(&self, other: &Step) -> bool
        ensures { IsTrue result ↔ (self.now ≡ other.now) }
    {
        match (self, other) {
            (
                Step::Submit {
                    client,
                    tag,
                    ticket,
                    command,
                },
                Step::Submit {
                    client: other_client,
                    tag: other_tag,
                    ticket: other_ticket,
                    command: other_command,
                },
            ) => {
                *client == *other_client
                    && *tag == *other_tag
                    && *ticket == *other_ticket
                    && command.same(other_command)
            }
            (
                Step::Task {
                    client,
                    ticket,
                    task,
                },
                Step::Task {
                    client: other_client,
                    ticket: other_ticket,
                    task: other_task,
                },
            ) => *client == *other_client && *ticket == *other_ticket && *task == *other_task,
            (Step::CommandPipe, Step::CommandPipe)
            | (Step::Engine, Step::Engine)
            | (Step::Event, Step::Event) => true,
            (Step::Data(tag), Step::Data(other_tag))
            | (Step::Status(tag), Step::Status(other_tag)) => *tag == *other_tag,
            (Step::Retire(pipe, tag), Step::Retire(other_pipe, other_tag)) => {
                *pipe == *other_pipe && *tag == *other_tag
            }
            (Step::Take(client), Step::Take(other_client)) => *client == *other_client,
            _ => false,
        }
    }
}
