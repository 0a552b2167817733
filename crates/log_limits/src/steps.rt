//! The limits of a step.
ghost use Rattle.std.specs.Prelude.{◌≡◌, ◌↔◌, IsTrue, length};
ghost use Rattle.std.specs.List.{AllByRecursion};
ghost use Rattle.log_text.specs.Kept.{kept};
ghost use Rattle.log_text.specs.Text.{BufferFits, OpFits, PipeFits, StepFits, TaskFits};

use log_text::Version;
use scsi_cmd::{Buffer, Op, Task};
use shared_machine::Step;
use uas_profile::Pipe;

/// The greatest ticket.
pub(crate) const LAST_TICKET: u64 = (1 << 60) - 1;

/// The greatest values of fields of two, four and eight bytes.
const MOST_16: u64 = 0xffff;

const MOST_32: u64 = 0xffff_ffff;

const MOST_64: u64 = 0xffff_ffff_ffff_ffff;

/// The most bytes of a buffer.
const MOST_BUFFER_BYTES: usize = 65_536;

/// Whether each step that wasn't refused fits. Asks a refusal's number for each.
pub(crate) fn kept_fit(version: Version, clients: usize, steps: &[Step], refusals: &[u8]) -> bool
    requires { length refusals.now ≡ length steps.now }
    ensures { IsTrue result ↔ AllByRecursion (StepFits version clients) (kept steps.now refusals.now) }
{
    for (at, step) in steps.iter().enumerate() {
        if refusals[at] == 0 && !step_fits(version, clients, step) {
            return false;
        }
    }
    true
}

/// Whether a step fits into its fields, as one of so many clients.
pub fn step_fits(version: Version, clients: usize, step: &Step) -> bool
    ensures { IsTrue result ↔ StepFits version clients step.now }
{
    match step {
        Step::Submit {
            client,
            tag,
            ticket,
            command,
        } => {
            *client < clients
                && u64::from(*tag) <= MOST_16
                && *ticket <= LAST_TICKET
                && op_fits(&command.op)
                && buffer_fits(&command.buffer)
        }
        Step::Task {
            client,
            ticket,
            task,
        } => *client < clients && *ticket <= LAST_TICKET && task_fits(version, task),
        Step::Data(tag) | Step::Status(tag) => u64::from(*tag) <= MOST_16,
        Step::Retire(pipe, tag) => pipe_fits(*pipe) && u64::from(*tag) <= MOST_16,
        Step::Take(client) => *client < clients,
        Step::CommandPipe | Step::Engine | Step::Event => true,
    }
}

/// Whether an operation's block, count and allocation fit into their fields.
fn op_fits(op: &Op) -> bool
    ensures { IsTrue result ↔ OpFits op.now }
{
    match *op {
        Op::TestUnitReady | Op::ReadCapacity => true,
        Op::Inquiry { allocation } => u64::from(allocation) <= MOST_16,
        Op::Read { lba, count, .. } | Op::Write { lba, count, .. } | Op::Sync { lba, count } => {
            u64::from(lba) <= MOST_32 && u64::from(count) <= MOST_16
        }
        Op::Read16 { lba, count, .. } | Op::Write16 { lba, count, .. } => {
            lba <= MOST_64 && u64::from(count) <= MOST_32
        }
        Op::ReadCapacity16 { allocation } => u64::from(allocation) <= MOST_32,
    }
}

/// Whether a buffer has at most 65,536 bytes.
pub(crate) fn buffer_fits(buffer: &Buffer) -> bool
    ensures { IsTrue result ↔ BufferFits buffer.now }
{
    buffer.len() <= MOST_BUFFER_BYTES
}

/// Whether a task management fits: a query is of the second version alone.
fn task_fits(version: Version, task: &Task) -> bool
    ensures { IsTrue result ↔ TaskFits version task.now }
{
    match task {
        Task::Abort { tag } => u64::from(*tag) <= MOST_16,
        Task::Reset => true,
        Task::Query { tag } => version == Version::Second && u64::from(*tag) <= MOST_16,
    }
}

/// Whether something is retired on a pipe: nothing is on the command pipe.
fn pipe_fits(pipe: Pipe) -> bool
    ensures { IsTrue result ↔ PipeFits pipe }
{
    match pipe {
        Pipe::Command => false,
        Pipe::Status | Pipe::DataIn | Pipe::DataOut => true,
    }
}
