//! The texts of help that are no one line of a subcommand.

pub(crate) const CLIENTS_HELP: &str =
    "How many clients there are, each with a unit of its own: 1 to 15, and up to 31 with fewer tags";

pub(crate) const TAGS_HELP: &str =
    "How many tags each client has, one of them for task management: 2 to 16, usually 16; 248 in all";

pub(crate) const LBA_HELP: &str = "The number of the first block: 0 to 4294967295";

pub(crate) const BYTE_HELP: &str = "The byte that the blocks are filled with: 0 to 255";

/// What each exit status of the program says.
pub(crate) const PROGRAM_HELP: &str = "\
Exit status: 0 done; 1 a command ended other than GOOD or was refused, a READ of work brought other bytes, an audit of
work is false or decode refused a line; 2 a word is refused; 3 a fault of a script, a file or a stream; 4 want of memory.";

/// What a script has, and an example.
pub(crate) const SCRIPT_HELP: &str = "\
A script has a line for each command, task management or step; words stand between spaces. A line whose first byte is #
is a remark, and no other # begins one:
  C tur | C inquiry LEN | C capacity        a command of client C, which is below CLIENTS
  C read LBA COUNT [fua]                    LBA to 4294967295, COUNT to 128
  C write LBA COUNT BYTE [fua]              the blocks are filled with BYTE
  C sync LBA COUNT
  C read16, C write16, C capacity16 LEN     the same by commands of 16 bytes
  C abort TAG | C query TAG | C reset       task management
  command | engine | event | data TAG | status TAG | retire PIPE TAG | take C
                                            one step; TAG is a command's, PIPE 2, 3 or 4
  drain                                     all steps that are due
A drain follows by itself at the end.

Exit status: 1 where a command ended other than GOOD or was refused, 2 where a word is refused, 3 at a fault of the
script or of a stream, 4 for want of memory, else 0.

Example:
  uasdisk replay 2 100 < examples/two-clients.script";

pub(crate) const TRACE_HELP: &str = "\
Exit status: 1 where a command ended other than GOOD or was refused, 2 where a word is refused, 3 at a fault of the
script or of a stream, 4 for want of memory, else 0.

Example:
  uasdisk trace 1 100 < examples/first-reply.script";

pub(crate) const MAKE_HELP: &str = "\
Exit status: 2 where a word is refused, 3 at a fault of the file or of a stream, 4 for want of memory, else 0.

Example:
  uasdisk make disk.image 100";

pub(crate) const INFO_HELP: &str = "\
Exit status: 2 where a word is refused, 3 where the file is no image or at a fault of it or of a stream, 4 for want of
memory, else 0.

Example:
  uasdisk info disk.image";

pub(crate) const DUMP_HELP: &str = "\
Exit status: 1 where the READ ended other than GOOD, 2 where a word is refused, 3 where the file is no image or at a
fault of it or of a stream, 4 for want of memory, else 0.

Example:
  uasdisk dump disk.image 0 1";

pub(crate) const FILL_HELP: &str = "\
Exit status: 1 where the WRITE ended other than GOOD, 2 where a word is refused, 3 where the file is no image or at a
fault of it or of a stream, 4 for want of memory, else 0.

Example:
  uasdisk fill disk.image 0 1 255";

pub(crate) const CAPTURE_HELP: &str = "\
Exit status: 1 where a command ended other than GOOD or was refused, 2 where a word is refused, 3 at a fault of the
script, of the file or of a stream, 4 for want of memory, else 0.

Example:
  uasdisk capture 2 100 run.pcapng < examples/two-clients.script";

pub(crate) const ROUNDS_HELP: &str =
    "How many rounds each client takes, a WRITE and a READ of the same 8 blocks: 1 to 1000";

pub(crate) const LOG_HELP: &str =
    "A file that the log is saved in, in place of one that is there; each client is audited then";

pub(crate) const DEPTH_HELP: &str =
    "How many commands each client has out at a time: 1 to 15, fewer than tags; usually 1";

pub(crate) const SYNC_HELP: &str = "\
Keep LOG while it grows, synced after each N steps, or at the end alone where N is 0: 0 to 4294967295";

/// What `work` does, and an example.
pub(crate) const WORK_HELP: &str = "\
Each client has a unit of 64 blocks and a thread of its own. In round r, from 0 on, client c fills 8 blocks from block
8 (r mod 8) on with the byte (16 c + r) mod 256 and reads them back. With --depth D it submits D of these commands, and
has the replies of all of them before the next D. Of each client a line is printed, by number:
  client C writes R reads R equal E         R ended GOOD, E of the reads brought what had been written
With LOG a second line follows of each client, by number, and then the log is saved in that file:
  audit C true                              its replies are those of a disk that it had alone; else false
With --sync the log is written while the clients work, so that LOG has its beginning whatever ends the program. With
--sync 1 a client has a reply only once the step that gave it is synced.

Exit status: 1 where a command ended other than GOOD, a READ brought other bytes or an audit is false, 2 where a word is
refused, 3 at a fault of the log's file or of a stream, 4 for want of memory or a full log, else 0.

Examples:
  uasdisk work 4 3
  uasdisk work 4 3 work.log
  uasdisk work 4 3 work.log --sync 1";

pub(crate) const HEAD_HELP: &str =
    "Tell at which step of a log that was kept this checksum stands: 1 to 8 hexadecimal digits";

/// What `audit` says of a kept head, and an example.
pub(crate) const AUDIT_HELP: &str = "\
A log that work kept by --sync has behind each record a checksum of all that came before. With --head the last line is
  head HEX at step N                        HEX, in 8 digits, stands first behind N of its steps; 0: behind its head
Where no whole record has that checksum, and of a log without any, the fault is OtherHead.

Exit status: 0 where each client's audit is true, 2 where a word is refused, 3 where the log is no true one or at a fault
of a file, 4 for want of memory.

Examples:
  uasdisk audit work.log
  uasdisk audit work.log --head 1c291ca3";

pub(crate) const COLOR_HELP: &str =
    "Colours: always, auto (on a terminal alone, as without this option) or never";

pub(crate) const JSON_HELP: &str = "Prints each line as a JSON object";

pub(crate) const PAGE_HELP: &str =
    "Write a page (HTML) that shows the run step by step, in place of the picture";

/// What `draw` writes, with examples.
pub(crate) const DRAW_HELP: &str = "\
The page needs a browser and nothing else: it shows each step's bytes with what they say, and the rings, stream
contexts, events, tasks and replies behind it. Its keys are told on it.

Exit status: 1 where a command ended other than GOOD or was refused, 2 where a word is refused, 3 at a fault of the
script or of a stream, 4 for want of memory, else 0.

Examples:
  uasdisk draw 3 100 < examples/abort.script > abort.svg
  uasdisk draw 3 100 --page < examples/abort.script > abort.html";
