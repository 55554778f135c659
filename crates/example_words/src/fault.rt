//! Why the program stops.
ghost use Rattle.std.specs.Prelude.{◌≡◌};
ghost use Rattle.example_words.specs.declared.fault.WordsError.TheVariants.{Output};
ghost use Rattle.programs.specs.Statuses.{WrapsBrokenPipe};

use programs::ProgramError;
use std::alloc::AllocError;
use std::io;
use thiserror::Error;

/// Why the program stopped.
#[derive(Debug, Drop, Error)]
pub enum WordsError {
    /// The input gave this error.
    #[error("cannot read: {0}")]
    Input(io::Error),
    /// The output gave this error.
    #[error("cannot write: {0}")]
    Output(io::Error),
    /// The line with this number, counted from 1, was not counted.
    #[error("line {0}: {1}")]
    Line(u64, LineError),
    /// Memory was refused.
    #[error("out of memory")]
    Memory,
}

/// Why a line was not counted.
#[derive(Debug, Clone, Copy, PartialEq, Eq, Drop, Error)]
pub enum LineError {
    /// The input ended within it.
    #[error("the line has no newline")]
    CutOff,
    /// It has no tab.
    #[error("the line has no tab")]
    NoTab,
    /// What is before its tab is no word.
    #[error("there is no word before the tab")]
    NoWord,
    /// What is behind its tab is no count as `map` writes it: decimal digits, the first of which is not 0.
    #[error("the count is no number")]
    NoCount,
    /// Its word is less than that of the line before it.
    #[error("the word is out of order")]
    OutOfOrder,
    /// A count passes 64 bits.
    #[error("the count passes 64 bits")]
    TooLarge,
    /// Memory was refused.
    #[error("out of memory")]
    Memory,
}

impl ProgramError for WordsError {
    ghost broken_pipe = { WrapsBrokenPipe Output };

    fn is_broken_pipe(&self) -> bool {
        match self {
            WordsError::Output(e) => e.is_broken_pipe(),
            _ => false,
        }
    }
}

impl From<AllocError> for WordsError {
    ghost use Rattle.example_words.specs.declared.fault.WordsError.TheVariants.{Memory};

    ghost from_gives = { λ _ e. e ≡ Memory };

    fn from(_error: AllocError) -> WordsError {
        WordsError::Memory
    }
}

impl From<AllocError> for LineError {
    ghost use Rattle.example_words.specs.declared.fault.LineError.TheVariants.{Memory};

    ghost from_gives = { λ _ e. e ≡ Memory };

    fn from(_error: AllocError) -> LineError {
        LineError::Memory
    }
}
