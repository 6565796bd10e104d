// Frames of bytes in and lines out, for programs that answer frame by frame. A number's most significant byte comes first. A read that
// fails is an error of its own, which leaves the lent bytes as long as they were; how a stream came to its end `tell` writes as a last
// line on standard error.
#![tactic(auto)]

mod ends;
mod reading;
mod writing;

pub use ends::{End, answer_all, tell};
pub use reading::{ReadError, next_block, next_or_skipped, read_part};
pub use writing::{Line, WriteError, write_part};
