//! What ends a session before its input does.

ghost use Rattle.std.specs.Prelude.{◌≡◌};
ghost use Rattle.canvas_session.specs.Cause.{cause_code};

use canvas_code::Coded;
use thiserror::Error;

/// What ends a session before its input does.
#[derive(Clone, Copy, Debug, Drop, PartialEq, Eq, Error)]
#[error("{}", self.name())]
pub enum Cause {
    /// The line buffer could not be had. Nothing was read.
    OutOfMemory,
    /// 65,537 bytes came without an LF. A closing reply says so.
    LineTooLong,
    /// A read failed.
    ReadFault,
    /// A write or a flush failed, or a write took nothing.
    WriteFault,
    /// Line 1,000,001 came. A closing reply says so.
    TooManyRequests,
    /// The input ended inside a line, for which nothing was written.
    CutLine,
}

impl Coded for Cause {
    ghost code_of = { cause_code };

    fn code(&self) -> u16 {
        match self {
            Cause::OutOfMemory => 1,
            Cause::LineTooLong => 70,
            Cause::ReadFault => 71,
            Cause::WriteFault => 72,
            Cause::TooManyRequests => 73,
            Cause::CutLine => 74,
        }
    }
}

/// A session that ended before its input did.
#[derive(Clone, Copy, Debug, Drop, PartialEq, Eq, Error)]
#[error("{cause}")]
pub struct SessionFault {
    pub cause: Cause,
    /// How many lines were answered in full. A closing reply answers no line.
    pub answered: u64,
    /// How many bytes the writer took.
    pub written: u64,
}

/// The number and the name are the cause's.
impl Coded for SessionFault {
    ghost code_of = { λ fault. cause_code fault.cause };

    fn code(&self) -> u16 {
        self.cause.code()
    }
}
