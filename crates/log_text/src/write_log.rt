//! A log's text, written.
ghost use Rattle.std.specs.Prelude.{◌≡◌, ◌≤◌, ◌<◌, ◌^◌, ◌++◌, length, OnOk};
ghost use Rattle.std.specs.Io.KnownBytes.{Appends};
ghost use Rattle.std.specs.List.{AllByRecursion, flat_map};
ghost use Rattle.log_text.specs.declared.Version.{Version};
ghost use Rattle.log_text.specs.Text.{IsWithin, ReplyFits, StepFits, UnitFits, field, header_text, listed, log_text, reply_text, step_text, unit_text};
ghost use Rattle.log_text.specs.Writing.{Wrote};

use crate::write_fields::{put, put_bytes};
use crate::write_replies::put_reply;
use crate::write_steps::put_step;
use crate::{SavedLog, SavedReply, Version};
use shared_machine::Step;
use std::io;
use std::io::Write;
use uas_log::FirstUnit;
use uas_profile::BLOCK_BYTES;

/// The name at the front of a log's text.
const NAME: &[u8; 6] = b"UASLOG";

/// Name, version and the version's number of tags.
pub fn put_header<W: Write>(out: &mut W, version: Version) -> io::Result<()>
    ensures { OnOk result (Wrote W.contents out.old out.new (header_text version)) }
{
    put_bytes(out, NAME)?;
    put(out, 2, u64::from(version.number()))?;
    put(out, 1, version.tags() as u64)?;
    Ok(())
}

/// The numbers of bad blocks behind their count.
fn put_bad<W: Write>(out: &mut W, bad: &[u32]) -> io::Result<()>
    requires { length bad.now < 2 ^ 32 }
    ensures { OnOk result (Wrote W.contents out.old out.new (listed (field 4) bad.now)) }
{
    put(out, 4, bad.len() as u64)?;
    for number in bad {
        put(out, 4, u64::from(*number))?;
    }
    Ok(())
}

/// A unit.
fn put_unit<W: Write>(out: &mut W, unit: &FirstUnit) -> io::Result<()>
    requires { UnitFits unit.now }
    ensures { OnOk result (Wrote W.contents out.old out.new (unit_text unit.now)) }
{
    put(out, 4, (unit.blocks.len() / BLOCK_BYTES) as u64)?;
    put_bytes(out, unit.blocks.as_slice())?;
    put_bad(out, unit.bad.as_slice())?;
    Ok(())
}

/// The units behind their count.
pub fn put_units<W: Write>(out: &mut W, units: &[FirstUnit]) -> io::Result<()>
    requires few { length units.now ≤ 31 }
    requires fit { AllByRecursion UnitFits units.now }
    ensures { OnOk result (Wrote W.contents out.old out.new (field 1 (length units.now) ++ flat_map unit_text units.now)) }
{
    put(out, 1, units.len() as u64)?;
    for unit in units {
        put_unit(out, unit)?;
    }
    Ok(())
}

/// The steps behind their count.
fn put_steps<W: Write>(out: &mut W, steps: &[Step]) -> io::Result<()>
    requires few { length steps.now < 2 ^ 32 }
    requires fit { AllByRecursion (StepFits Version.Second 31) steps.now }
    ensures { OnOk result (Wrote W.contents out.old out.new (listed step_text steps.now)) }
{
    put(out, 4, steps.len() as u64)?;
    for step in steps {
        put_step(out, step)?;
    }
    Ok(())
}

/// The replies behind their count.
fn put_replies<W: Write>(out: &mut W, replies: &[SavedReply]) -> io::Result<()>
    requires few { length replies.now < 2 ^ 32 }
    requires fit { AllByRecursion (ReplyFits 31) replies.now }
    ensures { OnOk result (Wrote W.contents out.old out.new (listed reply_text replies.now)) }
{
    put(out, 4, replies.len() as u64)?;
    for saved in replies {
        put_reply(out, saved.client, &saved.reply)?;
    }
    Ok(())
}

impl SavedLog {
    /// Writes the log's text. A fault is the writer's, which may have got a beginning of the text.
    pub fn save<W: Write>(&self, out: &mut W) -> io::Result<()>
        ensures { OnOk result (Appends (W.contents out.old) (W.contents out.new) (log_text self.now)) }
    {
        put_header(out, self.version)?;
        put_units(out, self.units.as_slice())?;
        put_steps(out, self.steps.as_slice())?;
        put_replies(out, self.replies.as_slice())?;
        Ok(())
    }
}
