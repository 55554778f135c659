//! Why the program ends before its input.
ghost use Rattle.example_http.specs.declared.fault.ProgramError.TheVariants.{Output};
ghost use Rattle.programs.specs.Statuses.{WrapsBrokenPipe};

use crate::http_error::HttpError;
use std::io;
use thiserror::Error;

/// Why the program ends before its input.
#[derive(Debug, Drop, Error)]
pub enum ProgramError {
    /// The system supplied no random keys.
    #[error("no random keys: {0}")]
    Keys(io::Error),
    /// The input returned this error.
    #[error("cannot read: {0}")]
    Input(io::Error),
    /// The output returned this error.
    #[error("cannot write: {0}")]
    Output(io::Error),
    /// Memory was refused.
    #[error("out of memory")]
    Memory,
}

impl From<HttpError> for ProgramError {
    fn from(error: HttpError) -> ProgramError {
        match error {
            HttpError::Input(e) => ProgramError::Input(e),
            HttpError::Output(e) => ProgramError::Output(e),
            HttpError::Memory => ProgramError::Memory,
        }
    }
}

impl programs::ProgramError for ProgramError {
    ghost broken_pipe = { WrapsBrokenPipe Output };

    fn is_broken_pipe(&self) -> bool {
        match self {
            ProgramError::Output(e) => e.is_broken_pipe(),
            _ => false,
        }
    }
}
