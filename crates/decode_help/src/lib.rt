//! What the help of `decode` says of its lines. The program and the small program of `decode` print it.
#![tactic(auto)]

/// The kinds of lines, and an example. Without a line feed at its end.
pub const DECODE_HELP: &str = "\
The first word of a line tells what its bytes are, in hexadecimal digits of either case, in one word or several:
  unit [ADDRESS] BYTES          an information unit
  put|link|event ADDRESS BYTES  a TRB of a ring: 16 bytes behind an address of 16 digits
  trb BYTES                     a TRB
  context [PIPE STREAM] BYTES   a stream context: 16 bytes; PIPE is 1 to 4
  bell VALUE                    a doorbell: 8 digits
  cdb BYTES [BLOCKS]            a CDB of 6, 10 or 16 bytes, for a logical unit of so many blocks
  host BYTES                    a CDB of the host set, of 6, 10, 12 or 16 bytes
  sense BYTES                   18 bytes of fixed sense data
Behind the line is printed what they say, or that they are refused and why. Every other line stays as it is.

Exit status: 1 where a line was refused, 2 where a word is refused, 3 at a fault of a stream, 4 for want of memory, else 0.

Example:
  uasdisk trace 1 100 < examples/first-reply.script | uasdisk decode";
