// The units in a tag's buffers.
ghost use Rattle.std.specs.Prelude.{◌≡◌, ◌≤◌, ◌<◌, ◌++◌, drop, length, option_map, None};
ghost use Rattle.uas_profile.specs.declared.TheConstants.{STREAMS, COMMAND_BYTES, WINDOW_BYTES};
ghost use Rattle.scsi_cmd.specs.declared.Command.{Command};
ghost use Rattle.frame_store.specs.Buffers.{held_for, with_held};
ghost use Rattle.uas_host.specs.Events.{answer_in};
ghost use Rattle.uas_host.specs.Sights.{notice_by};
ghost use Rattle.uas_host.specs.Submit.{command_text, lent};
ghost use Rattle.uas_host.specs.Tasks.{named_tag, function_of, task_tag, task_text, with_task_unit};

use crate::seen::Sight;
use crate::tags::task_tag_of;
use arrayvec::ArrayVec;
use frame_store::Frames;
use scsi_cmd::{Buffer, Command, Op, Task, cdb};
use uas_iu::{
    ABORT_TASK, AnswerHead, Iu, LOGICAL_UNIT_RESET, QUERY_TASK, answer_head, lun_bytes, write,
};
use uas_profile::STATUS_BYTES;

/// The Command unit of an operation for the logical unit of a client.
fn command_unit(client: u8, tag: u16, op: &Op) -> ArrayVec<u8, STATUS_BYTES>
    ensures text { result.items ≡ command_text client tag op.now }
    ensures bytes { length result.items ≡ COMMAND_BYTES }
{
    let mut unit = ArrayVec::new();
    let command = Iu::Command {
        tag,
        lun: lun_bytes(client),
        cdb: cdb(op),
    };
    write(&command, &mut unit);
    unit
}

/// Writes the bytes of a Command unit into a tag's command buffer.
fn write_command(frames: &mut Frames, tag: u16, unit: &[u8])
    requires first_tag { 1 ≤ tag }
    requires last_tag { tag ≤ STREAMS }
    requires bytes { length unit.now ≡ COMMAND_BYTES }
    ensures { frames.new ≡ with_held frames.old tag (record (held_for frames.old tag) { command = unit.now }) }
{
    frames.iu(tag).copy_from_slice(unit);
}

/// Writes the Command unit of a command into the tag's command buffer, and lends the command's vector for the
/// tag. Asks that none is lent.
pub(crate) fn lend_command(frames: &mut Frames, client: u8, tag: u16, op: &Op, buffer: Buffer)
    requires first_tag { 1 ≤ tag }
    requires last_tag { tag ≤ STREAMS }
    requires fits { length buffer ≤ WINDOW_BYTES }
    requires free { (held_for frames.old tag).lent ≡ None }
    ensures { frames.new ≡ lent frames.old client tag (record { op = op.now; buffer = buffer }) }
{
    write_command(frames, tag, &command_unit(client, tag, op));
    frames.lend(tag, buffer.into_vec()).unwrap();
}

/// The function of a task management.
fn function(task: Task) -> u8
    ensures { result ≡ function_of task }
{
    match task {
        Task::Abort { .. } => ABORT_TASK,
        Task::Reset => LOGICAL_UNIT_RESET,
        Task::Query { .. } => QUERY_TASK,
    }
}

/// The tag of the task that a task management names; 0 where it names none.
fn named_tag(task: Task) -> u16
    ensures { result ≡ named_tag task }
{
    match task {
        Task::Abort { tag } | Task::Query { tag } => tag,
        Task::Reset => 0,
    }
}

/// The Task Management unit of a client with so many tags for its logical unit.
fn task_unit(tags: usize, client: u8, task: Task) -> ArrayVec<u8, STATUS_BYTES>
    requires tags { 0 < tags }
    requires last_tag { task_tag tags client ≤ STREAMS }
    ensures text { result.items ≡ task_text tags client task }
    ensures bytes { length result.items ≡ 16 }
{
    let mut unit = ArrayVec::new();
    let lun = lun_bytes(client);
    let task = Iu::Task {
        tag: task_tag_of(tags, usize::from(client)),
        function: function(task),
        task_tag: named_tag(task),
        lun,
    };
    write(&task, &mut unit);
    unit
}

/// Writes bytes over the first ones of a buffer.
fn write_front(buffer: &mut [u8], bytes: &[u8])
    requires { length bytes.now ≤ length buffer.old }
    ensures { buffer.new ≡ bytes.now ++ drop (length bytes.now) buffer.old }
{
    buffer[..bytes.len()].copy_from_slice(bytes);
}

/// Writes the Task Management unit of a client with so many tags over the first bytes of its task tag's command buffer.
pub(crate) fn write_task(frames: &mut Frames, tags: usize, client: u8, task: Task)
    requires tags { 0 < tags }
    requires last_tag { task_tag tags client ≤ STREAMS }
    ensures { frames.new ≡ with_task_unit tags frames.old client task }
{
    let unit = task_unit(tags, client, task);
    write_front(frames.iu(task_tag_of(tags, usize::from(client))), &unit);
}

/// What the bytes of a Sense or a Response unit of a tag tell, if they are one.
#[inline(always)]
pub(crate) fn read_answer(tag: u16, bytes: &[u8]) -> Option<Sight>
    ensures { option_map (notice_by (drop 16 bytes.now)) result ≡ answer_in tag bytes.now }
{
    match answer_head(bytes) {
        Some(AnswerHead::Sense { tag: told, status }) if told == tag => {
            Some(Sight::Answered { status })
        }
        Some(AnswerHead::Response { tag: told, code }) if told == tag => {
            Some(Sight::Responded { code })
        }
        _ => None,
    }
}
