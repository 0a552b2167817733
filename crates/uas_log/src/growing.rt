//! A log that is to grow by one entry, for which no memory is missing any more.
ghost use Rattle.std.specs.Prelude.{◌≡◌, ℕ, ◌+◌, ◌<◌, ◌≤◌, ◌∷◌, ◌++◌, [], length, IfOk, OnOk, OnErr, option_to_list, vec_len, vec_capacity};
ghost use Rattle.std.specs.Option.{option_map_or};
ghost use Rattle.shared_machine.specs.Laws.{reply_len};
ghost use Rattle.uas_log.specs.Booking.{with_entry, without_lists};
ghost use Rattle.uas_log.specs.Growing.{HasLists, HasRoom};

use crate::{Growth, Log, RefusalNumbers, Replies, Steps, refusal_number};
use shared_machine::{Outcome, Step};
use std::alloc::{AllocError, Global};

impl Growth {
    /// Takes the lists out of a log and makes room for the entry of a step whose reply brings `len` bytes, or none. At
    /// `AllocError` the log is as before.
    pub fn begin(
        alloc: Global,
        log: &mut Log,
        step: &Step,
        len: usize,
    ) -> Result<Growth, AllocError>
        ensures lists { IfOk result (λ growth. HasLists growth log.old) }
        ensures room { IfOk result (λ growth. HasRoom growth) }
        ensures copy { IfOk result (λ growth. growth.copy ≡ step.now) }
        ensures spare { IfOk result (λ growth. vec_len growth.spare ≡ len) }
        ensures out { OnOk result (log.new ≡ without_lists log.old) }
        ensures err { OnErr result (log.new ≡ log.old) }
    {
        let copy = step.try_clone(alloc)?;
        let spare = vec![in alloc; 0; len]?;
        let mut growth = Growth {
            steps: log.steps.take(alloc),
            refusals: log.refusals.take(alloc),
            replies: log.replies.take(alloc),
            copy,
            spare,
        };
        match growth.reserve() {
            Ok(()) => Ok(growth),
            Err(error) => {
                growth.give_up(log);
                Err(error)
            }
        }
    }

    /// Makes room for one more in each list.
    fn reserve(&mut self) -> Result<(), AllocError>
        ensures steps { self.new.steps.items ≡ self.old.steps.items }
        ensures refusals { self.new.refusals.items ≡ self.old.refusals.items }
        ensures replies { self.new.replies.items ≡ self.old.replies.items }
        ensures copy { self.new.copy ≡ self.old.copy }
        ensures spare { self.new.spare ≡ self.old.spare }
        ensures room { OnOk result (HasRoom self.new) }
    {
        self.steps.reserve(1)?;
        self.refusals.reserve(1)?;
        self.replies.reserve(1)
    }

    /// The lists go back to their log as they are.
    fn give_up(self, log: &mut Log)
        ensures { log.new ≡ record log.old { steps = self.steps.items; refusals = self.refusals.items; replies = self.replies.items } }
    {
        let Growth {
            steps,
            refusals,
            replies,
            ..
        } = self;
        log.steps = Steps::from_vec(steps);
        log.refusals = RefusalNumbers::from_vec(refusals);
        log.replies = Replies::from_vec(replies);
    }

    /// The entry is written, and the lists go back to their log: the step, the number of its refusal, and its reply, copied.
    /// Asks that the reply brings as many bytes as was told. Takes no memory.
    pub fn enter(self, log: &mut Log, outcome: &Outcome)
        requires room { HasRoom self }
        requires spare { option_map_or reply_len outcome.now.reply 0 ≡ vec_len self.spare }
        ensures { (before : Log) → HasLists self before → log.old ≡ without_lists before → log.new ≡ with_entry before self.copy outcome.now }
    {
        let Growth {
            mut steps,
            mut refusals,
            mut replies,
            copy,
            spare,
        } = self;
        steps.push_reserved(copy);
        refusals.push_reserved(refusal_number(outcome));
        if let Some(reply) = &outcome.reply {
            replies.push_reserved(reply.copy_into(spare));
        }
        log.steps = Steps::from_vec(steps);
        log.refusals = RefusalNumbers::from_vec(refusals);
        log.replies = Replies::from_vec(replies);
    }
}
