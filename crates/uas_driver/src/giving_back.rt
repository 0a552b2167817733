//! TDs that are taken off their rings and given back, by recoveries and from pipes that are given up.
ghost use Rattle.std.specs.Prelude.{◌≡◌, ◌+◌, ◌-◌, ◌*◌, ◌≤◌, Some, length};
ghost use Rattle.uas_driver.specs.Taking.{handed};
ghost use Rattle.uas_profile.specs.declared.TheConstants.{BUFFER_SPAN, STATUS_BUFFERS, STATUS_BYTES, STREAMS};
ghost use Rattle.uas_driver.specs.Endings.{stand_in};
ghost use Rattle.uas_driver.specs.Recovery.{all_lost, first_lost, given_back, is_matched, lost_td, subject_lost, taken_off, told_in, with_told_end, wrote};

use crate::endings::stand_in;
use crate::recovery::{pass_td, td_end};
use crate::rings::first_td;
use crate::room::has_stream;
use crate::states::{End, Recovery, Subject};
use crate::taking::Handing;
use crate::{Cause, Driver, Taken};
use stream_array::Pipe;
use uas_profile::{
    BUFFER_SPAN, SHORT_PACKET, STATUS_BUFFERS, STATUS_BYTES, STREAM_ENTRIES, SUCCESS,
};

/// The driver told the status of a tag itself.
fn tell_end(ends: &mut [Option<End>; STREAM_ENTRIES], tag: u16)
    requires { tag ≤ STREAMS }
    ensures { ends.new ≡ told_in ends.old tag }
{
    if let Some(end) = ends[tag as usize] {
        ends[tag as usize] = Some(End { told: true, ..end });
    }
}

/// Whether an event ended a TD.
fn is_matched(taken: Taken) -> bool
    ensures { result ≡ is_matched taken }
{
    matches!(taken, Taken::Matched(_))
}

impl Driver {
    /// Writes bytes into the buffer at an address, where they fit.
    fn put_bytes(&mut self, address: u64, bytes: &[u8])
        ensures { self.new ≡ wrote self.old address bytes.now }
    {
        let _ = self.write(address, bytes);
    }

    /// Writes the stand-in for the device's answer into the status buffer of a tag; how many of the buffer's bytes are left.
    fn put_stand_in(&mut self, tag: u16) -> u32
        requires first_tag { 1 ≤ tag }
        requires last_tag { tag ≤ STREAMS }
        ensures wrote { self.new ≡ wrote self.old (STATUS_BUFFERS + BUFFER_SPAN * tag) (stand_in self.old.host.tags tag) }
        ensures left { result ≡ STATUS_BYTES - length (stand_in self.old.host.tags tag) }
    {
        let unit = stand_in(self.host.tags(), tag);
        self.put_bytes(STATUS_BUFFERS + BUFFER_SPAN * u64::from(tag), &unit);
        STATUS_BYTES.saturating_sub(unit.len()) as u32
    }

    /// Hands the host that the status of a tag is done, with the stand-in for the device's answer.
    fn take_status(&mut self, tag: u16, last: u64)
        requires first_tag { 1 ≤ tag }
        requires last_tag { tag ≤ STREAMS }
        ensures { self.new ≡ taken_off self.old Pipe.Status tag last }
    {
        let residual = self.put_stand_in(tag);
        self.hand_status(
            tag,
            Handing {
                pointer: last,
                residual,
                code: SHORT_PACKET,
            },
        );
    }

    /// Hands the host the status of a tag; where it waited for it the driver told the status itself.
    fn hand_status(&mut self, tag: u16, handing: Handing)
        requires { tag ≤ STREAMS }
        ensures { self.new ≡ with_told_end tag (handed self.old (Some handing)) }
    {
        let taken = self.hand(Some(handing));
        if is_matched(taken) {
            tell_end(&mut self.ends, tag);
        }
    }

    /// Hands the host that a TD of another pipe is done.
    fn take_other(&mut self, last: u64)
        ensures { self.new ≡ taken_off self.old Pipe.DataIn 1 last }
    {
        let _ = self.hand(Some(Handing {
            pointer: last,
            residual: 0,
            code: SUCCESS,
        }));
    }

    /// The TD of a tag is off its ring, and the host is handed that it is done.
    pub(crate) fn give_back(&mut self, pipe: Pipe, tag: u16, last: u64)
        ensures { self.new ≡ given_back self.old pipe tag last }
    {
        if has_stream(tag) {
            match pipe {
                Pipe::Status => self.take_status(tag, last),
                Pipe::Command | Pipe::DataIn | Pipe::DataOut => self.take_other(last),
            }
        }
    }

    /// The command of a TD of a tag on a given-up pipe has failed.
    pub(crate) fn lose_td(&mut self, pipe: Pipe, code: u8, tag: u16)
        ensures { self.new ≡ lost_td pipe code self.old tag }
    {
        if has_stream(tag) {
            let last = td_end(&self.lines, pipe, tag);
            self.end(tag, Cause::Failed(code));
            pass_td(&mut self.lines, pipe, tag);
            self.give_back(pipe, tag, last);
        }
    }

    /// The same of the first TD that is pending on it.
    fn lose_first(&mut self, pipe: Pipe, code: u8)
        ensures { self.new ≡ first_lost pipe code self.old }
    {
        if let Some(tag) = first_td(&mut self.lines, pipe) {
            self.lose_td(pipe, code, tag);
        }
    }

    /// Every command on a given-up pipe has failed.
    pub(crate) fn lose_all(&mut self, pipe: Pipe, code: u8)
        ensures { self.new ≡ all_lost pipe code self.old }
    {
        for _ in 0..STREAM_ENTRIES {
            self.lose_first(pipe, code);
        }
    }

    /// The TD whose Set TR Dequeue Pointer was refused is given back all the same.
    pub(crate) fn lose_subject(&mut self, recovery: &Recovery)
        ensures { self.new ≡ subject_lost self.old recovery.now recovery.now.subject }
    {
        if let Subject::Ended(tag) = recovery.subject {
            self.give_back(recovery.pipe, tag, recovery.last);
        }
    }
}
