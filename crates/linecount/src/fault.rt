//! Why the lines are not counted.
ghost use Rattle.linecount.specs.declared.fault.CountError.TheVariants.{Output};
ghost use Rattle.programs.specs.Statuses.{WrapsBrokenPipe};

use programs::ProgramError;
use std::io;
use thiserror::Error;

/// Why the lines were not counted.
#[derive(Debug, Drop, Error)]
pub enum CountError {
    /// The line with this number, counted from 1, is not UTF-8.
    #[error("line {0}: not UTF-8")]
    NotUtf8(u64),
    /// The line with this number, counted from 1, was not read.
    #[error("line {0}: cannot read: {1}")]
    Line(u64, io::Error),
    /// The number was not printed.
    #[error("cannot write: {0}")]
    Output(io::Error),
    /// Memory was refused before the first line.
    #[error("out of memory")]
    Memory,
}

impl ProgramError for CountError {
    ghost broken_pipe = { WrapsBrokenPipe Output };

    fn is_broken_pipe(&self) -> bool {
        match self {
            CountError::Output(e) => e.is_broken_pipe(),
            _ => false,
        }
    }
}
