//! A tag is served: its task moves on by one step.
ghost use Rattle.std.specs.Prelude.{◌≡◌, ◌≤◌, length};
ghost use Rattle.uas_profile.specs.declared.TheConstants.{STATUS_BYTES};
ghost use Rattle.uas_tasks.specs.declared.Wants.TheVariants.{Ends, Gives, Takes};
ghost use Rattle.uas_tasks.specs.Machine.{wanted};
ghost use Rattle.uas_tasks.specs.Soundness.{MayGive, MayTake};
ghost use Rattle.usb_places.specs.Places.{left_at, room_at};
ghost use Rattle.usb_tags.specs.Serving.{asked, asked_as, full_in, gave_part, in_ended, out_ended, overlap_text, overlapped, served, served_ends};
ghost use Rattle.usb_tags.specs.Serving.{served_gives, served_out, served_task, served_takes, status_ended, status_told, took_part, transfer_ended, unit_in, used_out};

use crate::bulk::{address_of, bulk_told};
use crate::{AnswerData, Next, Rest, UsbTags};
use arrayvec::ArrayVec;
use uas_iu::{Iu, write};
use uas_profile::{Pipe, STATUS_BYTES};
use uas_tasks::{Next as TaskNext, Wants};
use usb_places::{Places, Transfer};
use usbredir::Status;

/// The most bytes that one step moves to a data-in.
const PART_BYTES: usize = 4096;

/// The response of a tag that has a task already.
const OVERLAPPED_TAG: u8 = 0x0A;

const _: () = prove!(PART_BYTES == 4096 && OVERLAPPED_TAG == 10);

impl UsbTags {
    /// A full data-in ends, then a used up data-out; else what the task wants.
    #[tactic(auto, unfolding(crate::specs::Serving::served))]
    pub(crate) fn serve(&mut self, tag: u16) -> Next
        ensures { (self.new, result) ≡ served self.old tag }
    {
        match full_in(&self.places, tag) {
            Some(transfer) => self.end_in(tag, transfer),
            None => self.serve_out(tag),
        }
    }

    fn serve_out(&mut self, tag: u16) -> Next
        ensures { (self.new, result) ≡ served_out self.old tag }
    {
        match used_out(&self.places, tag) {
            Some(transfer) => self.end_out(tag, transfer),
            None => self.serve_task(tag),
        }
    }

    #[tactic(auto, unfolding(crate::specs::Serving::served_task))]
    fn serve_task(&mut self, tag: u16) -> Next
        ensures { (self.new, result) ≡ served_task self.old tag }
    {
        match self.tasks.wants(tag) {
            Wants::Absent | Wants::Waits => Next::Quiet,
            Wants::Asks => self.ask(tag),
            Wants::Gives(bytes) => self.serve_gives(tag, bytes),
            Wants::Takes(bytes) => self.serve_takes(tag, bytes),
            Wants::Ends => self.serve_ends(tag),
        }
    }

    fn ask(&mut self, tag: u16) -> Next
        ensures { (self.new, result) ≡ asked self.old tag }
    {
        asked_as(self.tasks.next(tag))
    }

    fn serve_gives(&mut self, tag: u16, bytes: usize) -> Next
        requires { wanted self.old.tasks tag ≡ Gives bytes }
        ensures { (self.new, result) ≡ served_gives self.old tag bytes }
    {
        let Some(transfer) = self.places.held(Pipe::DataIn, tag) else {
            return Next::Quiet;
        };
        let room = self.places.room(tag);
        if room == 0 {
            return self.end_in(tag, transfer);
        }
        self.give(tag, bytes.min(room).min(PART_BYTES));
        Next::Moved
    }

    /// So many bytes of the task go into the held data-in.
    fn give(&mut self, tag: u16, count: usize)
        requires wants { MayGive (wanted self.old.tasks tag) count }
        requires room { count ≤ room_at self.old.places tag }
        requires part { count ≤ 4096 }
        ensures { self.new ≡ gave_part self.old tag count }
    {
        let mut buffer = [0; PART_BYTES];
        self.tasks.give(tag, &mut buffer[..count]);
        self.places.append(tag, &buffer[..count]);
    }

    fn serve_takes(&mut self, tag: u16, bytes: usize) -> Next
        requires { wanted self.old.tasks tag ≡ Takes bytes }
        ensures { (self.new, result) ≡ served_takes self.old tag bytes }
    {
        if self.places.held(Pipe::DataOut, tag).is_none() {
            return Next::Quiet;
        }
        let count = bytes.min(self.places.left(tag).len());
        self.take(tag, count);
        Next::Moved
    }

    /// So many bytes of the held data-out go to the task.
    fn take(&mut self, tag: u16, count: usize)
        requires wants { MayTake (wanted self.old.tasks tag) count }
        requires left { count ≤ length (left_at self.old.places tag) }
        ensures { self.new ≡ took_part self.old tag count }
    {
        self.tasks.take(tag, &self.places.left(tag)[..count]);
        self.places.use_up(tag, count);
    }

    /// A task that has ended: what is held of its data ends, data-in first, and then it is answered.
    fn serve_ends(&mut self, tag: u16) -> Next
        requires { wanted self.old.tasks tag ≡ Ends }
        ensures { (self.new, result) ≡ served_ends self.old tag }
    {
        if let Some(transfer) = self.places.held(Pipe::DataIn, tag) {
            return self.end_in(tag, transfer);
        }
        if let Some(transfer) = self.places.held(Pipe::DataOut, tag) {
            return self.end_out(tag, transfer);
        }
        match self.places.held(Pipe::Status, tag) {
            Some(transfer) => self.end_status(tag, transfer),
            None => Next::Quiet,
        }
    }

    /// The held data-in ends with what it was given.
    fn end_in(&mut self, tag: u16, transfer: Transfer) -> Next
        ensures { (self.new, result) ≡ in_ended self.old tag transfer }
    {
        let moved = self.places.given(tag).len() as u32;
        self.end(
            Pipe::DataIn,
            tag,
            transfer,
            Status::Success,
            moved,
            AnswerData::Given(tag),
        )
    }

    /// The held data-out ends with what the task used.
    fn end_out(&mut self, tag: u16, transfer: Transfer) -> Next
        ensures { (self.new, result) ≡ out_ended self.old tag transfer }
    {
        let moved = self.places.used(tag) as u32;
        self.end(
            Pipe::DataOut,
            tag,
            transfer,
            Status::Success,
            moved,
            AnswerData::Nothing,
        )
    }

    /// The transfer of a tag's status takes the unit, and the task is gone; where it is too short, it ends and the unit stays due.
    fn end_status(&mut self, tag: u16, transfer: Transfer) -> Next
        requires { wanted self.old.tasks tag ≡ Ends }
        ensures { (self.new, result) ≡ status_ended self.old tag transfer }
    {
        let mut text = ArrayVec::new();
        self.tasks.write_status(tag, &mut text);
        if text.len() <= transfer.length as usize {
            self.tasks.sent(tag);
        }
        self.tell_status(tag, transfer, text)
    }

    /// A status transfer ends with a unit, or by babble where it is too short.
    fn tell_status(
        &mut self,
        tag: u16,
        transfer: Transfer,
        text: ArrayVec<u8, STATUS_BYTES>,
    ) -> Next
        ensures { (self.new, result) ≡ status_told self.old tag transfer text.items }
    {
        if text.len() <= transfer.length as usize {
            let moved = text.len() as u32;
            self.end(
                Pipe::Status,
                tag,
                transfer,
                Status::Success,
                moved,
                AnswerData::Unit(text),
            )
        } else {
            let none = AnswerData::Unit(ArrayVec::new());
            self.end(Pipe::Status, tag, transfer, Status::Babble, 0, none)
        }
    }

    /// A held transfer is answered, and the answer kept.
    fn end(
        &mut self,
        pipe: Pipe,
        tag: u16,
        transfer: Transfer,
        status: Status,
        moved: u32,
        body: AnswerData,
    ) -> Next
        ensures { (self.new, result) ≡ transfer_ended self.old pipe tag transfer status moved body }
    {
        self.places.end(pipe, tag, status, moved, unit_in(&body));
        let answer = bulk_told(
            transfer.id,
            address_of(pipe),
            u32::from(tag),
            status,
            moved,
            body,
        );
        Next::Sends(answer)
    }

    /// The transfer that waits for a tag's status is told that a unit came where the tag had a task. Then the tag is served.
    pub(crate) fn overlap(&mut self, tag: u16) -> Next
        ensures { (self.new, result) ≡ overlapped self.old tag }
    {
        self.rest = Rest::Serves(tag);
        match self.places.held(Pipe::Status, tag) {
            Some(transfer) => self.tell_status(tag, transfer, overlap_text(tag)),
            None => Next::Moved,
        }
    }
}

/// The held data-in of a tag where it has all its bytes.
fn full_in(places: &Places, tag: u16) -> Option<Transfer>
    ensures { result ≡ full_in places.now tag }
{
    if places.is_full(tag) {
        places.held(Pipe::DataIn, tag)
    } else {
        None
    }
}

/// The held data-out of a tag where the task used all of it.
fn used_out(places: &Places, tag: u16) -> Option<Transfer>
    ensures { result ≡ used_out places.now tag }
{
    if places.left(tag).is_empty() {
        places.held(Pipe::DataOut, tag)
    } else {
        None
    }
}

fn asked_as(next: TaskNext) -> Next
    ensures { result ≡ asked_as next }
{
    match next {
        TaskNext::Asks { number, request } => Next::Asks { number, request },
        TaskNext::Absent
        | TaskNext::Waits
        | TaskNext::Gives(_)
        | TaskNext::Takes(_)
        | TaskNext::Ends => Next::Moved,
    }
}

/// The unit that goes with an answer, which its place keeps.
fn unit_in(body: &AnswerData) -> &[u8]
    ensures unit { result.now ≡ unit_in body.now }
    ensures most { length result.now ≤ STATUS_BYTES }
{
    match body {
        AnswerData::Unit(text) => text.as_slice(),
        AnswerData::Nothing | AnswerData::Control(_) | AnswerData::Given(_) => &[],
    }
}

fn overlap_text(tag: u16) -> ArrayVec<u8, STATUS_BYTES>
    ensures { result.items ≡ overlap_text tag }
{
    let mut text = ArrayVec::new();
    let unit = Iu::Response {
        tag,
        code: OVERLAPPED_TAG,
    };
    write(&unit, &mut text);
    text
}
