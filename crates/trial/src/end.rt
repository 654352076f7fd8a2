//! How a script ends.
ghost use Rattle.std.specs.Prelude.{◌≡◌};
ghost use Rattle.trial.specs.Script.{status_of};
ghost use Rattle.trial.specs.declared.end.End.TheVariants.{Memory};

use std::alloc::{AllocError, AllocFailed};

/// How a script ends.
#[derive(Clone, Copy, Debug, PartialEq, Eq)]
pub enum End {
    /// Each line was answered.
    Done,
    /// A line is outside the grammar.
    BadLine,
    /// The reader failed.
    Reading,
    /// The writer failed.
    Writing,
    /// A growth of the program's own was refused.
    Memory,
    /// The reader gave more bytes than a script may have.
    TooLong,
}

impl End {
    /// The exit status.
    pub fn status(self) -> u8
        ensures { result ≡ status_of self }
    {
        match self {
            End::Done => 0,
            End::BadLine => 2,
            End::Reading | End::Writing | End::Memory | End::TooLong => 1,
        }
    }
}

impl From<AllocError> for End {
    ghost from_gives = { λ _ e. e ≡ Memory };

    fn from(_: AllocError) -> End {
        End::Memory
    }
}

impl<T: Drop> From<AllocFailed<T>> for End {
    ghost from_gives = { λ _ e. e ≡ Memory };

    fn from(_: AllocFailed<T>) -> End {
        End::Memory
    }
}
