//! Rows 15 and 16: the steps, and what each tells.
ghost use Rattle.std.specs.Prelude.{◌≡◌, not};
ghost use Rattle.disk_ready.specs.Steps.{World, begun_readying, found_access, freeing_access, freeing_command, pieces_of, ready_access, sent_of, target_of};
ghost use Rattle.disk_ready.specs.Table.{asked, found_advanced, pause_over, ready_advanced, ready_interrupted, row_begun, sending_after};

use crate::ends::Ends;
use crate::puts::{Put, Sent, Spots, Target, Way};
use crate::questions::{Learned, Question};
use crate::serving::late;
use crate::stores::place_in;
use bring_up::{Access, Completed, Putting, Service, Serving, Taken, later, load_in};
use disk_requests::{Readiness, asking_cdb, command_unit};
use disk_up::{next_third, stream_mended};
use host_layout::{Fixed, Layout, Piece, Ring, TagArea};
use host_trbs::Command;
use uas_profile::Pipe;
use usb_descriptors::{Pipes, Streams, UasFunction};

/// What a status unit says, and until when data may still come.
#[derive(Clone, Copy)]
pub struct Told {
    pub how: Readiness,
    pub until: u64,
}

/// A question whose events are awaited: which of its TDs ended, and what its status unit says, once that was read.
#[derive(Clone, Copy)]
pub struct Awaited {
    pub question: Question,
    pub ends: Ends,
    pub told: Option<Told>,
    pub service: Service,
}

/// A question, and what its status unit says.
#[derive(Clone, Copy)]
pub struct Verdict {
    pub question: Question,
    pub how: Readiness,
}

/// A command that takes the data's TD off.
#[derive(Clone, Copy)]
pub enum Freeing {
    /// Stop Endpoint, tried since a time.
    Stop(u64),
    /// Set TR Dequeue Pointer to the next third.
    Move,
}

/// Such a command whose event is awaited.
#[derive(Clone, Copy)]
pub struct Removal {
    pub verdict: Verdict,
    pub freeing: Freeing,
    pub came: Option<Completed>,
    pub service: Service,
}

/// What of rows 15 and 16 comes next.
#[derive(Clone, Copy)]
pub enum ReadyStep {
    Begin,
    /// A question's TDs are put.
    Sending {
        question: Question,
        at: Put,
    },
    /// Their events are awaited.
    Serve(Awaited),
    /// So many bytes of the status unit are loaded.
    Status {
        awaited: Awaited,
        count: u32,
    },
    /// A command that takes the data's TD off is put, and its event awaited; the endpoint's context is loaded.
    Free {
        verdict: Verdict,
        freeing: Freeing,
        at: Putting,
    },
    ServeFree(Removal),
    Context(Verdict),
    /// The stream's context is mended.
    Mend(Verdict),
    /// So many bytes of data are loaded.
    Take {
        verdict: Verdict,
        count: u32,
    },
    /// A question is asked again at this time.
    Pause {
        question: Question,
        until: u64,
    },
    Ready,
}

/// A disk that is asked whether it is ready.
#[derive(Clone, Copy)]
pub struct Readying {
    pub spots: Spots,
    pub learned: Learned,
    /// When the row's time is over.
    pub limit: u64,
    pub step: ReadyStep,
}

/// The tag of all questions.
pub(crate) const TAG: u8 = 1;

/// ms of a row.
const ROW_LIMIT: u64 = 30_000;

/// Bytes of a context that are loaded.
const CONTEXT_BYTES: u32 = 32;

/// A question's command.
pub(crate) fn sent_of(question: Question) -> Sent
    ensures { result ≡ sent_of question }
{
    Sent {
        tag: TAG,
        way: if question.data_bytes() == 0 {
            Way::Nothing
        } else {
            Way::In
        },
        unit: command_unit(u16::from(TAG), 0, &asking_cdb(&question.asking())),
        list: None,
    }
}

/// Where its data come.
fn pieces_of(layout: &Layout, question: Question) -> [Piece; 1]
    ensures { result ≡ pieces_of layout.now question }
{
    let length = u32::from(question.data_bytes());
    [Piece {
        at: layout.fixed(Fixed::Buffer),
        length,
        end: length,
    }]
}

pub(crate) fn target_of(taken: &Taken, pipes: &Pipes) -> Target
    ensures { result ≡ target_of taken.now pipes.now }
{
    Target {
        slot: taken.device.slot,
        pipes: *pipes,
    }
}

impl Readying {
    pub(crate) fn begun() -> Readying
        ensures { result ≡ begun_readying }
    {
        Readying {
            spots: Spots::begun(),
            learned: Learned::nothing(),
            limit: 0,
            step: ReadyStep::Begin,
        }
    }

    /// The access of a device with these pipes; none of one whose pipes aren't known.
    pub(crate) fn found_access(
        &self,
        taken: &Taken,
        found: &Option<(UasFunction, Streams)>,
    ) -> Access
        ensures { result ≡ found_access found.now (record { ready = self.now; taken = taken.now }) }
    {
        match found {
            Some((function, _)) => self.access(taken, &function.pipes),
            None => Access::Rest(u64::MAX),
        }
    }

    /// The access that its step tells.
    fn access(&self, taken: &Taken, pipes: &Pipes) -> Access
        ensures { result ≡ ready_access (record { ready = self.now; taken = taken.now }) pipes.now }
    {
        let layout = &taken.layout;
        match self.step {
            ReadyStep::Begin => Access::Rest(0),
            ReadyStep::Sending { question, at } => at.access(
                &taken.controller,
                layout,
                &target_of(taken, pipes),
                &sent_of(question),
                self.spots,
                &pieces_of(layout, question),
            ),
            ReadyStep::Serve(awaited) => taken.look_access(awaited.service),
            ReadyStep::Status { count, .. } => load_in(
                layout.of_tag(TAG, TagArea::StatusUnit),
                count,
            ),
            ReadyStep::Free { freeing, at, .. } => self.freeing_access(taken, pipes, freeing, at),
            ReadyStep::ServeFree(removal) => taken.look_access(removal.service),
            ReadyStep::Context(_) => load_in(
                layout.device_context(pipes.data_in.context_index()),
                CONTEXT_BYTES,
            ),
            ReadyStep::Mend(_) => stream_mended(layout, Pipe::DataIn, TAG),
            ReadyStep::Take { count, .. } => load_in(Some(layout.fixed(Fixed::Buffer)), count),
            ReadyStep::Pause { until, .. } => Access::Rest(until),
            ReadyStep::Ready => Access::Rest(u64::MAX),
        }
    }

    fn freeing_access(&self, taken: &Taken, pipes: &Pipes, freeing: Freeing, at: Putting) -> Access
        ensures { result ≡ freeing_access (record { ready = self.now; taken = taken.now }) pipes.now freeing at }
    {
        let command = self.freeing_command(taken, pipes, freeing);
        taken.commands.put(
            &taken.controller,
            &taken.layout,
            at,
            command.words(taken.commands.cycle),
            command.words(!taken.commands.cycle),
        )
    }

    fn freeing_command(&self, taken: &Taken, pipes: &Pipes, freeing: Freeing) -> Command
        ensures { result ≡ freeing_command (record { ready = self.now; taken = taken.now }) pipes.now freeing }
    {
        let slot = taken.device.slot;
        let endpoint = pipes.data_in.context_index();
        let next = next_third(self.spots.data_third);
        match freeing {
            Freeing::Stop(_) => Command::StopEndpoint { slot, endpoint },
            Freeing::Move => Command::SetDequeue {
                pointer: match place_in(&taken.layout, Ring::DataIn(TAG), next, 0) {
                    Some(at) => at,
                    None => 0,
                },
                stream: u16::from(TAG),
                slot,
                endpoint,
            },
        }
    }

    pub(crate) fn found_advance(
        &mut self,
        taken: &mut Taken,
        found: &Option<(UasFunction, Streams)>,
        now: u64,
        value: u32,
        bytes: &[u8],
    )
        ensures { record { ready = self.new; taken = taken.new } ≡ found_advanced found.now (record { ready = self.old; taken = taken.old }) now value bytes.now }
    {
        match found {
            Some((function, _)) => self.advance(taken, &function.pipes, now, value, bytes),
            None => {}
        }
    }

    /// Goes on behind its step's access, with what was read.
    fn advance(&mut self, taken: &mut Taken, pipes: &Pipes, now: u64, value: u32, bytes: &[u8])
        ensures { record { ready = self.new; taken = taken.new } ≡ ready_advanced (record { ready = self.old; taken = taken.old }) pipes.now now value bytes.now }
    {
        match self.step {
            ReadyStep::Begin => self.begin_row(Question::Inquiry, now),
            ReadyStep::Sending { question, at } => {
                let pieces = pieces_of(&taken.layout, question);
                let next = at.after(&sent_of(question), self.spots, &pieces);
                self.sent(question, next);
            }
            ReadyStep::Serve(awaited) => self.serve(taken, pipes, awaited, now, value, bytes),
            ReadyStep::Status { awaited, .. } => self.status_taken(taken, awaited, now, bytes),
            ReadyStep::Free {
                verdict,
                freeing,
                at,
            } => self.free_put(verdict, freeing, at, now),
            ReadyStep::ServeFree(removal) => self.serve_free(taken, removal, now, value, bytes),
            ReadyStep::Context(verdict) => self.context_taken(taken, verdict, bytes),
            ReadyStep::Mend(verdict) => self.conclude(taken, verdict, &[], now),
            ReadyStep::Take { verdict, .. } => self.conclude(taken, verdict, bytes, now),
            ReadyStep::Pause { question, .. } => self.pause_over(taken, question, now),
            ReadyStep::Ready => {}
        }
    }

    /// A row begins with its first question.
    pub(crate) fn begin_row(&mut self, question: Question, now: u64)
        ensures { self.new ≡ row_begun self.old question now }
    {
        self.limit = later(now, ROW_LIMIT);
        self.ask(question);
    }

    pub(crate) fn ask(&mut self, question: Question)
        ensures { self.new ≡ asked self.old question }
    {
        self.step = ReadyStep::Sending {
            question,
            at: Put::CommandUnit,
        };
    }

    /// The next access of a question that is put, or its events.
    fn sent(&mut self, question: Question, next: Option<Put>)
        ensures { self.new ≡ sending_after self.old question next }
    {
        self.step = match next {
            Some(at) => ReadyStep::Sending { question, at },
            None => ReadyStep::Serve(Awaited {
                question,
                ends: Ends::begun(sent_of(question).way),
                told: None,
                service: Service {
                    limit: self.limit,
                    seen: 0,
                    at: Serving::Status,
                },
            }),
        };
    }

    /// A question again, unless its row's time is over.
    fn pause_over(&mut self, taken: &mut Taken, question: Question, now: u64)
        ensures { record { ready = self.new; taken = taken.new } ≡ pause_over (record { ready = self.old; taken = taken.old }) question now }
    {
        if self.limit <= now {
            late(taken, question);
        } else {
            self.ask(question);
        }
    }

    /// An interrupt ends a rest between looks for events.
    pub(crate) fn interrupt(&mut self)
        ensures { self.new ≡ ready_interrupted self.old }
    {
        self.step = match self.step {
            ReadyStep::Serve(awaited) => ReadyStep::Serve(Awaited {
                service: awaited.service.woken(),
                ..awaited
            }),
            ReadyStep::ServeFree(removal) => ReadyStep::ServeFree(Removal {
                service: removal.service.woken(),
                ..removal
            }),
            step => step,
        };
    }
}
