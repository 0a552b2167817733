//! Rows 15 and 16: what a question's events came to.
ghost use Rattle.std.specs.Prelude.{◌≡◌};
ghost use Rattle.disk_ready.specs.Ends.{told_in};
ghost use Rattle.disk_ready.specs.Steps.{World};
ghost use Rattle.disk_ready.specs.Table.{closed, closed_by, closed_told, closed_untold, concluded, count_of, event_came, grace, heard_by, is_freed, is_row_15, late, next_step, rest_or_late, seen_by, served, status_taken, take_begun, went};

use crate::ends::{Ends, told_in};
use crate::questions::{Heard, Next, Question};
use crate::steps::{Awaited, ReadyStep, Readying, TAG, Told, Verdict, sent_of, target_of};
use bring_up::{Served, Serving, Taken, Why, later, taken_event};
use disk_requests::Readiness;
use host_trbs::Event;
use usb_descriptors::Pipes;

/// ms that data may come behind a status GOOD.
const GRACE: u64 = 1_000;

/// ms before a question is asked again.
const PAUSE: u64 = 200;

/// The most bytes of a status unit.
const STATUS_BYTES: u32 = 112;

impl Readying {
    /// A step of the look for a question's events.
    pub(crate) fn serve(
        &mut self,
        taken: &mut Taken,
        pipes: &Pipes,
        awaited: Awaited,
        now: u64,
        value: u32,
        bytes: &[u8],
    )
        ensures { record { ready = self.new; taken = taken.new } ≡ served taken.old.check (record { ready = self.old; taken = taken.old }) pipes.now awaited now value bytes.now }
    {
        if let Some(check) = taken.check {
            taken.check_port(check, value);
            return;
        }
        match awaited.service.at {
            Serving::Event => self.event_came(taken, pipes, awaited, now, taken_event(bytes)),
            _ => {
                let how = awaited.service.after(taken.events.cycle, value);
                self.went(taken, awaited, now, how);
            }
        }
    }

    fn event_came(
        &mut self,
        taken: &mut Taken,
        pipes: &Pipes,
        awaited: Awaited,
        now: u64,
        event: Event,
    )
        ensures { record { ready = self.new; taken = taken.new } ≡ event_came (record { ready = self.old; taken = taken.old }) pipes.now awaited now event }
    {
        taken.pass_event(event);
        match event {
            Event::Controller { .. } => taken.restart(now),
            _ => {
                let awaited = self.seen_by(taken, pipes, awaited, event);
                self.step = ReadyStep::Serve(awaited);
            }
        }
    }

    /// With what an event says.
    fn seen_by(&self, taken: &Taken, pipes: &Pipes, awaited: Awaited, event: Event) -> Awaited
        ensures { result ≡ seen_by (record { ready = self.now; taken = taken.now }) pipes.now awaited event }
    {
        Awaited {
            ends: awaited.ends.seen(
                event,
                &taken.layout,
                &target_of(taken, pipes),
                &sent_of(awaited.question),
                self.spots,
                awaited.question.data_bytes(),
            ),
            service: awaited.service.passed(),
            ..awaited
        }
    }

    fn went(&mut self, taken: &mut Taken, awaited: Awaited, now: u64, how: Served)
        ensures { record { ready = self.new; taken = taken.new } ≡ went (record { ready = self.old; taken = taken.old }) awaited now how }
    {
        match how {
            Served::On(service) => self.step = ReadyStep::Serve(Awaited { service, ..awaited }),
            Served::Closed => self.closed(taken, awaited, now),
            Served::Broken => taken.restart(now),
        }
    }

    /// All events were read.
    fn closed(&mut self, taken: &mut Taken, awaited: Awaited, now: u64)
        ensures { record { ready = self.new; taken = taken.new } ≡ closed (record { ready = self.old; taken = taken.old }) awaited now }
    {
        if awaited.ends.is_failed {
            taken.try_again();
        } else {
            self.closed_by(taken, awaited, now);
        }
    }

    fn closed_by(&mut self, taken: &mut Taken, awaited: Awaited, now: u64)
        ensures { record { ready = self.new; taken = taken.new } ≡ closed_by awaited.told (record { ready = self.old; taken = taken.old }) awaited now }
    {
        match awaited.told {
            None => self.closed_untold(taken, awaited, now),
            Some(told) => self.closed_told(taken, awaited, told, now),
        }
    }

    /// The status unit is loaded, once it came.
    fn closed_untold(&mut self, taken: &mut Taken, awaited: Awaited, now: u64)
        ensures { record { ready = self.new; taken = taken.new } ≡ closed_untold awaited.ends.status_moved (record { ready = self.old; taken = taken.old }) awaited now }
    {
        match awaited.ends.status_moved {
            None => self.rest_or_late(taken, awaited, now),
            Some(count) => {
                self.step = ReadyStep::Status {
                    awaited,
                    count: count.min(STATUS_BYTES),
                };
            }
        }
    }

    fn closed_told(&mut self, taken: &mut Taken, awaited: Awaited, told: Told, now: u64)
        ensures { record { ready = self.new; taken = taken.new } ≡ closed_told (record { ready = self.old; taken = taken.old }) awaited told now }
    {
        let verdict = Verdict {
            question: awaited.question,
            how: told.how,
        };
        if awaited.ends.all_ended() {
            self.take(taken, verdict, count_of(awaited.ends.data_moved), now);
        } else if is_freed(awaited.ends, told, now) {
            self.free(taken, verdict, now);
        } else {
            let awaited = Awaited {
                told: Some(told),
                ..awaited
            };
            self.rest_or_late(taken, awaited, now);
        }
    }

    /// Events are looked for again, up to the row's limit.
    fn rest_or_late(&mut self, taken: &mut Taken, awaited: Awaited, now: u64)
        ensures { record { ready = self.new; taken = taken.new } ≡ rest_or_late (record { ready = self.old; taken = taken.old }) awaited now }
    {
        if awaited.service.limit <= now {
            late(taken, awaited.question);
        } else {
            self.step = ReadyStep::Serve(Awaited {
                service: awaited.service.rested(now),
                ..awaited
            });
        }
    }

    /// The data are loaded, where there are any.
    fn take(&mut self, taken: &mut Taken, verdict: Verdict, count: u32, now: u64)
        ensures { record { ready = self.new; taken = taken.new } ≡ take_begun (record { ready = self.old; taken = taken.old }) verdict count now }
    {
        if count == 0 {
            self.conclude(taken, verdict, &[], now);
        } else {
            self.step = ReadyStep::Take {
                verdict,
                count: count.min(u32::from(verdict.question.data_bytes())),
            };
        }
    }

    /// A status unit came.
    pub(crate) fn status_taken(
        &mut self,
        taken: &mut Taken,
        awaited: Awaited,
        now: u64,
        bytes: &[u8],
    )
        ensures { record { ready = self.new; taken = taken.new } ≡ status_taken (record { ready = self.old; taken = taken.old }) awaited now (told_in bytes.now 1) }
    {
        match told_in(bytes, TAG) {
            None => taken.try_again(),
            Some(how) => {
                let told = Told {
                    how,
                    until: grace(how, now),
                };
                self.closed_told(taken, awaited, told, now);
            }
        }
    }

    /// A question was answered.
    pub(crate) fn conclude(&mut self, taken: &mut Taken, verdict: Verdict, bytes: &[u8], now: u64)
        ensures { record { ready = self.new; taken = taken.new } ≡ concluded (record { ready = self.old; taken = taken.old }) verdict bytes.now now }
    {
        let heard = self.learned.heard(verdict.question, verdict.how, bytes);
        self.heard_by(taken, verdict.question, heard, now);
    }

    fn heard_by(&mut self, taken: &mut Taken, question: Question, heard: Heard, now: u64)
        ensures { record { ready = self.new; taken = taken.new } ≡ heard_by (record { ready = self.old; taken = taken.old }) question heard now }
    {
        self.learned = heard.learned;
        self.spots = self.spots.after(sent_of(question).way);
        self.go_on(taken, heard.next, now);
    }

    fn go_on(&mut self, taken: &mut Taken, next: Next, now: u64)
        ensures { record { ready = self.new; taken = taken.new } ≡ next_step (record { ready = self.old; taken = taken.old }) next now }
    {
        match next {
            Next::Ask(question) => self.ask(question),
            Next::Size => self.begin_row(Question::ShortCapacity, now),
            Next::Pause(question) => {
                self.step = ReadyStep::Pause {
                    question,
                    until: later(now, PAUSE),
                };
            }
            Next::Refused(why) => taken.give_up(why),
            Next::Ready => self.step = ReadyStep::Ready,
        }
    }
}

/// A row's time is over: the disk isn't used, or the device is tried again.
pub(crate) fn late(taken: &mut Taken, question: Question)
    ensures { taken.new ≡ late taken.old question }
{
    if is_row_15(question) {
        taken.give_up(Why::NeverReady);
    } else {
        taken.try_again();
    }
}

/// Until when data may still come.
fn grace(how: Readiness, now: u64) -> u64
    ensures { result ≡ grace how now }
{
    match how {
        Readiness::Ready => later(now, GRACE),
        _ => now,
    }
}

fn count_of(count: Option<u32>) -> u32
    ensures { result ≡ count_of count }
{
    match count {
        Some(count) => count,
        None => 0,
    }
}

/// Whether data that didn't come aren't awaited any longer.
fn is_freed(ends: Ends, told: Told, now: u64) -> bool
    ensures { result ≡ is_freed ends told now }
{
    ends.data_moved.is_none() && told.until <= now && ends.has_unit
}

fn is_row_15(question: Question) -> bool
    ensures { result ≡ is_row_15 question }
{
    matches!(
        question,
        Question::Inquiry | Question::UnitReady | Question::StartUnit
    )
}
