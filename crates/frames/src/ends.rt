// How a stream ends.
ghost use Rattle.std.specs.Prelude.{◌≡◌};

use crate::reading::ReadError;
use crate::writing::WriteError;
use std::io::Write;
use std::{fmt, io};

#[derive(Clone, Copy, Debug, PartialEq, Eq)]
pub enum End {
    // Behind a frame.
    Whole,
    // Inside a frame, or at one that is too long.
    Cut,
    ReadFailed,
    WriteFailed,
}

impl From<ReadError> for End {
    ghost use Rattle.frames.specs.Stream.{end_of};

    ghost from_gives = { λ error end. end ≡ end_of error };

    fn from(error: ReadError) -> End {
        match error {
            ReadError::Ended => End::Whole,
            ReadError::Cut => End::Cut,
            ReadError::Failed(_) => End::ReadFailed,
        }
    }
}

impl From<WriteError> for End {
    ghost use Rattle.frames.specs.declared.ends.End.TheVariants.{WriteFailed};

    ghost from_gives = { λ _ end. end ≡ WriteFailed };

    fn from(_: WriteError) -> End {
        End::WriteFailed
    }
}

impl fmt::Display for End {
    fn fmt<W: fmt::Write>(&self, f: &mut fmt::Formatter<W>) -> fmt::Result {
        f.write_str(match self {
            End::Whole => "whole stream,",
            End::Cut => "cut or too long behind",
            End::ReadFailed => "read failed behind",
            End::WriteFailed => "output failed behind",
        })
    }
}

// Answers frames in turn until one says how the stream ends, and tells that.
pub fn answer_all<F: FnMut() -> Result<(), End>>(
    errors: &mut impl Write,
    program: &[u8],
    mut next: F,
) -> io::Result<()>
    requires { F.IsAlwaysCallable next }
{
    let mut frames: u64 = 0;
    let end = loop {
        if let Err(end) = next() {
            break end;
        }
        if frames == u64::MAX {
            break End::WriteFailed;
        }
        frames += 1;
    };
    tell(errors, program, end, frames)
}

// Says how the stream ends.
pub fn tell(errors: &mut impl Write, program: &[u8], end: End, frames: u64) -> io::Result<()> {
    errors.write_all(program)?;
    writeln!(errors, ": {end} {frames} frames")
}
