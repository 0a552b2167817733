//! Two devices that are one: `uas_target`, which keeps blocks, and `uas_tasks`, which asks somebody else for each move of them.
//!
//! Behind `uas_tasks` stands somebody who keeps the blocks (`Backed`) and does each request at once (`done_at_once`): that of a READ as
//! its bytes are given, any other as soon as the device has it. So both devices see the blocks of the same moment. Then, with the
//! profile's commands, chunks of 8 blocks and logical units of as many blocks of 512 bytes, a host can't tell the two apart: whatever is
//! received, and whatever chunks are given and taken, it sees the same answers and the same bytes, and both devices end with the same
//! blocks, the same medium, the same attentions and the same tasks (`one_device`). Their definitions were written apart, so each checks
//! the other: a slip in one alone would break the law.
//!
//! ```text
//!     uas_target   Moving, READ                 Moving, WRITE              Moving, INQUIRY   Ended
//!     uas_tasks    Blocks, its request is due   Blocks, no byte is there   Giving            Ended
//! ```
//!
//! Of requests that are done at other moments it says one thing: the blocks of a READ may be read before their bytes are given, where no
//! other call comes between (`reads_may_be_early`). It says nothing of the commands that only hosts send, nor of a unit attention that
//! tells of power on: `uas_target` has neither.
//!
//! It has laws alone, over the definitions of both crates.
#![tactic(auto)]

ghost use Rattle.task_laws.specs.Laws.{AnswersAreSame, CallsAreSame, GivesInParts, OneDevice, OpeningsAreSame, ReadsMayBeEarly};
ghost use Rattle.task_laws.specs.Laws.{ResetsAreSame, RunsAreSame, StaysOneDevice, TagsWantTheSame, TakesInParts};

/// Law: new devices are the same.
pub fn openings_are_same()
    ensures { OpeningsAreSame }
{}

/// Law: two that are the same stay so with each call, with a list of calls and with a reset, and show a host the same.
pub fn calls_are_same()
    ensures call { CallsAreSame }
    ensures calls { RunsAreSame }
    ensures reset { ResetsAreSame }
{}

/// Law: of two that are the same each tag wants the same, and has the same answer.
pub fn tags_are_same()
    ensures wants { TagsWantTheSame }
    ensures answers { AnswersAreSame }
{}

/// Law: the blocks of a READ may be read before their bytes are given, where no other call comes between.
pub fn reads_may_be_early()
    ensures { ReadsMayBeEarly }
{}

/// Law: a chunk of which any parts are given, or taken, in turn, and then the rest, is the chunk.
pub fn parts_are_chunks()
    ensures gives { GivesInParts }
    ensures takes { TakesInParts }
{}

/// Law: whatever a transport does, a host sees the same of both, and both end the same.
pub fn one_device()
    ensures seen { OneDevice }
    ensures same { StaysOneDevice }
{}
