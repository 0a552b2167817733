//! Whole commands: what a READ or a WRITE that ends with GOOD brought, or wrote.
//!
//! The solo machine takes a command through its steps, chunk by chunk, and its reply is a status and a buffer. That a GOOD means what
//! the commands' standard says of it (SBC, READ and WRITE) stands in none of its definitions: here it is said of its runs, and of one
//! command alone on a bus of its own.
//!
//! It has laws alone, over the definitions of solo_model and shared_machine; [`transfers`] has the chunks.
#![tactic(auto)]

ghost use Rattle.whole_commands.specs.OnTheBus.{DrainTakesBusSteps, OneReadAlone, OneWriteAlone};
ghost use Rattle.whole_commands.specs.Reads.{GoodReadsGiveBlocks};
ghost use Rattle.whole_commands.specs.Writes.{GoodWriteIsWritten};

pub mod transfers;

/// Law: reads interleaved in any way change no blocks, and each that ends with GOOD brings its blocks in full, as they stand.
pub fn good_reads_give_blocks()
    ensures { GoodReadsGiveBlocks }
{}

/// Law: a WRITE alone that ends with GOOD wrote its bytes and nothing else.
pub fn good_write_is_written()
    ensures { GoodWriteIsWritten }
{}

/// Law: a drain takes steps of the bus's own alone: it submits nothing and takes no reply, and to each client its steps are those of the
/// client's own machine.
pub fn drain_takes_bus_steps()
    ensures { DrainTakesBusSteps }
{}

/// Law: one command alone on a bus of its own: a READ that ends with GOOD brings its blocks as they stand in the unit, and a WRITE that
/// does leaves its bytes in its blocks and all else as it was.
pub fn one_command_alone()
    ensures read { OneReadAlone }
    ensures write { OneWriteAlone }
{}
