//! The replies of a log's text, written one by one.
ghost use Rattle.std.specs.Prelude.{◌≡◌, ◌≤◌, ◌<◌, ◌^◌, ◌++◌, length, OnOk};
ghost use Rattle.log_text.specs.Text.{BodyFits, ReplyFits, SenseFits, field, reply_body, reply_kind, reply_text};
ghost use Rattle.log_text.specs.Writing.{Wrote};

use crate::write_fields::{put, put_buffer, put_bytes};
use scsi_cmd::Reply;
use std::io;
use std::io::Write;

fn reply_kind(reply: &Reply) -> u8
    ensures { result ≡ reply_kind reply.now }
{
    match reply {
        Reply::Status { .. } => 1,
        Reply::Aborted { .. } => 2,
        Reply::Task { .. } => 3,
    }
}

/// What a reply of its kind brings.
fn put_body<W: Write>(out: &mut W, reply: &Reply) -> io::Result<()>
    requires { BodyFits reply.now }
    ensures { OnOk result (Wrote W.contents out.old out.new (reply_body reply.now)) }
{
    match reply {
        Reply::Status {
            status,
            sense,
            buffer,
            ..
        } => {
            put(out, 1, u64::from(*status))?;
            put_sense(out, sense.as_slice())?;
            put_buffer(out, buffer)?;
            Ok(())
        }
        Reply::Aborted { buffer, .. } => put_buffer(out, buffer),
        Reply::Task { code, .. } => put(out, 1, u64::from(*code)),
    }
}

/// Sense behind its length.
fn put_sense<W: Write>(out: &mut W, sense: &[u8]) -> io::Result<()>
    requires { SenseFits sense.now }
    ensures { OnOk result (Wrote W.contents out.old out.new (field 1 (length sense.now) ++ sense.now)) }
{
    put(out, 1, sense.len() as u64)?;
    put_bytes(out, sense)?;
    Ok(())
}

/// A reply of a client. Asks one of at most 31 clients, and sense and a buffer that fit.
pub fn put_reply<W: Write>(out: &mut W, client: usize, reply: &Reply) -> io::Result<()>
    requires { ReplyFits 31 (record { client = client; reply = reply.now }) }
    ensures { OnOk result (Wrote W.contents out.old out.new (reply_text (record { client = client; reply = reply.now }))) }
{
    put(out, 1, client as u64)?;
    put(out, 1, u64::from(reply_kind(reply)))?;
    put(out, 2, u64::from(reply.tag()))?;
    put(out, 8, reply.ticket())?;
    put_body(out, reply)?;
    Ok(())
}
