//! Rows 15 and 16: a TD of data that didn't come is taken off (xHCI 1.2, 4.6.9 and 4.6.10).
ghost use Rattle.std.specs.Prelude.{◌≡◌};
ghost use Rattle.byteorder.specs.Endian.{little_number};
ghost use Rattle.disk_ready.specs.Steps.{World};
ghost use Rattle.disk_ready.specs.Table.{context_taken, first_word, free_begun, free_closed, free_event, free_passed, free_served, free_went, freed_by, freeing_put, move_ended, moved, moving, stop_again, stop_ended};

use crate::steps::{Freeing, ReadyStep, Readying, Removal, Verdict};
use bring_up::{Completed, Putting, Served, Service, Serving, Taken, later, taken_event};
use host_trbs::{Completion, EndpointState, Event, endpoint_state};

/// ms of a command on the command ring.
const COMMAND_LIMIT: u64 = 5_000;

/// ms that Stop Endpoint is tried.
const STOP_LIMIT: u64 = 100;

impl Readying {
    /// The data's TD begins to be taken off.
    pub(crate) fn free(&mut self, taken: &Taken, verdict: Verdict, now: u64)
        ensures { record { ready = self.new; taken = taken.now } ≡ free_begun (record { ready = self.old; taken = taken.now }) verdict now }
    {
        self.step = ReadyStep::Free {
            verdict,
            freeing: Freeing::Stop(now),
            at: taken.commands.begun_command(),
        };
    }

    /// The next access of a command that is put, or its event.
    pub(crate) fn free_put(&mut self, verdict: Verdict, freeing: Freeing, at: Putting, now: u64)
        ensures { self.new ≡ freeing_put self.old verdict freeing at now }
    {
        let next = match at {
            Putting::Link => Putting::Body,
            Putting::Body => Putting::Last,
            Putting::Last => Putting::Bell,
            Putting::Bell => {
                self.step = ReadyStep::ServeFree(Removal {
                    verdict,
                    freeing,
                    came: None,
                    service: Service::begun(now, COMMAND_LIMIT),
                });
                return;
            }
        };
        self.step = ReadyStep::Free {
            verdict,
            freeing,
            at: next,
        };
    }

    /// A step of the look for a command's event.
    pub(crate) fn serve_free(
        &mut self,
        taken: &mut Taken,
        removal: Removal,
        now: u64,
        value: u32,
        bytes: &[u8],
    )
        ensures { record { ready = self.new; taken = taken.new } ≡ free_served taken.old.check (record { ready = self.old; taken = taken.old }) removal now value bytes.now }
    {
        if let Some(check) = taken.check {
            taken.check_port(check, value);
            return;
        }
        match removal.service.at {
            Serving::Event => self.free_event(taken, removal, now, taken_event(bytes)),
            _ => {
                let how = removal.service.after(taken.events.cycle, value);
                self.free_went(taken, removal, now, how);
            }
        }
    }

    fn free_event(&mut self, taken: &mut Taken, removal: Removal, now: u64, event: Event)
        ensures { record { ready = self.new; taken = taken.new } ≡ free_event (record { ready = self.old; taken = taken.old }) removal now event }
    {
        taken.pass_event(event);
        match event {
            Event::Controller { .. } => taken.restart(now),
            Event::Command { trb, code, slot } if trb == taken.commands.address(&taken.layout) => {
                self.step = ReadyStep::ServeFree(Removal {
                    came: Some(Completed { code, slot }),
                    service: removal.service.closing(),
                    ..removal
                });
            }
            _ => {
                self.step = ReadyStep::ServeFree(Removal {
                    service: removal.service.passed(),
                    ..removal
                });
            }
        }
    }

    fn free_went(&mut self, taken: &mut Taken, removal: Removal, now: u64, how: Served)
        ensures { record { ready = self.new; taken = taken.new } ≡ free_went (record { ready = self.old; taken = taken.old }) removal now how }
    {
        match how {
            Served::On(service) => self.step = ReadyStep::ServeFree(Removal { service, ..removal }),
            Served::Closed => self.free_closed(taken, removal, now),
            Served::Broken => taken.restart(now),
        }
    }

    /// All events were read. A command that is silent for too long has the controller taken anew.
    fn free_closed(&mut self, taken: &mut Taken, removal: Removal, now: u64)
        ensures { record { ready = self.new; taken = taken.new } ≡ free_closed (record { ready = self.old; taken = taken.old }) removal now }
    {
        match removal.came {
            Some(ended) => {
                taken.commands = taken.commands.next();
                self.freed(taken, removal, Completion::of(ended.code), now);
            }
            None if removal.service.limit <= now => taken.restart(now),
            None => {
                self.step = ReadyStep::ServeFree(Removal {
                    service: removal.service.rested(now),
                    ..removal
                });
            }
        }
    }

    /// A command ended.
    fn freed(&mut self, taken: &mut Taken, removal: Removal, completion: Completion, now: u64)
        ensures { record { ready = self.new; taken = taken.new } ≡ freed_by removal.freeing (record { ready = self.old; taken = taken.old }) removal.verdict completion now }
    {
        match removal.freeing {
            Freeing::Stop(since) => {
                self.stop_ended(taken, removal.verdict, since, completion, now);
            }
            Freeing::Move => self.move_ended(taken, removal.verdict, completion, now),
        }
    }

    fn stop_ended(
        &mut self,
        taken: &mut Taken,
        verdict: Verdict,
        since: u64,
        completion: Completion,
        now: u64,
    )
        ensures { record { ready = self.new; taken = taken.new } ≡ stop_ended completion (record { ready = self.old; taken = taken.old }) verdict since now }
    {
        match completion {
            Completion::Success => self.move_on(taken, verdict),
            Completion::ContextState => self.stop_again(taken, verdict, since, now),
            _ => taken.restart(now),
        }
    }

    fn move_on(&mut self, taken: &Taken, verdict: Verdict)
        ensures { record { ready = self.new; taken = taken.now } ≡ moving (record { ready = self.old; taken = taken.now }) verdict }
    {
        self.step = ReadyStep::Free {
            verdict,
            freeing: Freeing::Move,
            at: taken.commands.begun_command(),
        };
    }

    /// The endpoint isn't running: Stop Endpoint again, for a while; then its state is read.
    fn stop_again(&mut self, taken: &Taken, verdict: Verdict, since: u64, now: u64)
        ensures { record { ready = self.new; taken = taken.now } ≡ stop_again (record { ready = self.old; taken = taken.now }) verdict since now }
    {
        if later(since, STOP_LIMIT) <= now {
            self.step = ReadyStep::Context(verdict);
        } else {
            self.step = ReadyStep::Free {
                verdict,
                freeing: Freeing::Stop(since),
                at: taken.commands.begun_command(),
            };
        }
    }

    fn move_ended(&mut self, taken: &mut Taken, verdict: Verdict, completion: Completion, now: u64)
        ensures { record { ready = self.new; taken = taken.new } ≡ move_ended completion (record { ready = self.old; taken = taken.old }) verdict now }
    {
        match completion {
            Completion::Success => self.moved(taken, verdict, now),
            _ => taken.restart(now),
        }
    }

    /// The stream is at its next third.
    fn moved(&mut self, taken: &mut Taken, verdict: Verdict, now: u64)
        ensures { record { ready = self.new; taken = taken.new } ≡ moved (record { ready = self.old; taken = taken.old }) verdict now }
    {
        if taken.quirks.has_stale_streams {
            self.step = ReadyStep::Mend(verdict);
        } else {
            self.conclude(taken, verdict, &[], now);
        }
    }

    /// The endpoint's context was loaded: one that stands goes on.
    pub(crate) fn context_taken(&mut self, taken: &mut Taken, verdict: Verdict, bytes: &[u8])
        ensures { record { ready = self.new; taken = taken.new } ≡ context_taken (record { ready = self.old; taken = taken.old }) verdict (first_word bytes.now) }
    {
        match endpoint_state(&context_bytes(bytes)) {
            EndpointState::Stopped => self.move_on(taken, verdict),
            _ => taken.try_again(),
        }
    }
}

/// Thirty-two bytes, or zeros.
fn context_bytes(bytes: &[u8]) -> [u8; 32]
    ensures { little_number 4 result ≡ first_word bytes.now }
{
    let mut context = [0; 32];
    if bytes.len() == 32 {
        context.copy_from_slice(bytes);
    }
    context
}
