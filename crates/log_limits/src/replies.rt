//! The limits of a reply.
ghost use Rattle.std.specs.Prelude.{◌≡◌, ◌≤◌, ◌↔◌, IsTrue};
ghost use Rattle.log_text.specs.Kept.{with_client};
ghost use Rattle.log_text.specs.Text.{BodyFits, ReplyFits, SenseFits};

use crate::steps::{LAST_TICKET, buffer_fits};
use scsi_cmd::{Reply, SENSE_BYTES};

/// The greatest values of fields of one and of two bytes.
const MOST_8: u64 = 0xff;

const MOST_16: u64 = 0xffff;

/// Whether a reply fits into its fields, as one of the client whose tag it brings back.
pub fn reply_fits(clients: usize, tags: usize, reply: &Reply) -> bool
    requires { 1 ≤ tags }
    ensures { IsTrue result ↔ ReplyFits clients (with_client tags reply.now) }
{
    let tag = reply.tag();
    usize::from(tag).saturating_sub(1) / tags < clients
        && u64::from(tag) <= MOST_16
        && reply.ticket() <= LAST_TICKET
        && body_fits(reply)
}

/// Whether what a reply of its kind brings fits.
fn body_fits(reply: &Reply) -> bool
    ensures { IsTrue result ↔ BodyFits reply.now }
{
    match reply {
        Reply::Status {
            status,
            sense,
            buffer,
            ..
        } => { u64::from(*status) <= MOST_8 && sense_fits(sense.as_slice()) && buffer_fits(buffer) }
        Reply::Aborted { buffer, .. } => buffer_fits(buffer),
        Reply::Task { code, .. } => u64::from(*code) <= MOST_8,
    }
}

/// Whether there is no sense, or it has 18 bytes.
fn sense_fits(sense: &[u8]) -> bool
    ensures { IsTrue result ↔ SenseFits sense.now }
{
    sense.is_empty() || sense.len() == SENSE_BYTES
}
