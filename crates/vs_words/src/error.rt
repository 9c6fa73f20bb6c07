//! Why words ask for nothing.
ghost use Rattle.vs_words.specs.Errors.{error_of};

use std::alloc::AllocError;

/// Why words ask for nothing.
#[derive(Clone, Copy, Debug, PartialEq, Eq)]
pub enum WordsError {
    /// They are no command.
    Usage,
    /// Memory ran out.
    OutOfMemory,
}

impl From<AllocError> for WordsError {
    ghost use Rattle.std.specs.Prelude.{◌≡◌};
    ghost use Rattle.vs_words.specs.declared.error.WordsError.TheVariants.{OutOfMemory};

    ghost from_gives = { λ _ e. e ≡ OutOfMemory };

    fn from(_: AllocError) -> WordsError {
        WordsError::OutOfMemory
    }
}

impl From<clap::Error> for WordsError {
    ghost use Rattle.std.specs.Prelude.{◌≡◌};
    ghost use Rattle.clap.specs.Words.{kind_of};

    ghost from_gives = { λ error e. e ≡ error_of (kind_of error) };

    fn from(error: clap::Error) -> WordsError {
        match error.kind() {
            clap::error::ErrorKind::OutOfMemory => WordsError::OutOfMemory,
            _ => WordsError::Usage,
        }
    }
}
