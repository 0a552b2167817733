//! What the types of a log's steps say of their numbers: known of each once it was read.
ghost use Rattle.std.specs.List.{AllByRecursion};
ghost use Rattle.log_text.specs.Text.{OpFits};
ghost use Rattle.booked_limits.specs.Fitting.{HasFields};

use scsi_cmd::{Op, cdb};
use shared_machine::Step;

/// The block, the count and the allocation length of each submission fit their fields.
pub fn have_fields(steps: &[Step])
    ensures { AllByRecursion HasFields steps.now }
{
    for step in steps {
        has_fields(step);
    }
}

fn has_fields(step: &Step)
    ensures { HasFields step.now }
{
    match step {
        Step::Submit { command, .. } => fields_fit(&command.op),
        Step::Task { .. }
        | Step::CommandPipe
        | Step::Data(_)
        | Step::Status(_)
        | Step::Engine
        | Step::Event
        | Step::Retire(_, _)
        | Step::Take(_) => {}
    }
}

/// They fit those of the CDB, which has as many bytes for each.
fn fields_fit(op: &Op)
    ensures { OpFits op.now }
{
    cdb(op);
}
