//! Why the program stops.
ghost use Rattle.example_redis.specs.declared.fault.Fault.TheVariants.{Served};
ghost use Rattle.framed.specs.declared.ServeError.TheVariants.{Output};
ghost use Rattle.programs.specs.Statuses.{WrapsBrokenPipe};

use crate::error::{ReplyError, RequestError};
use framed::ServeError;
use programs::ProgramError;
use thiserror::Error;

/// Why the program stopped before the end of the session.
#[derive(Debug, Drop, Error)]
pub enum Fault {
    /// Serving stopped.
    #[error(transparent)]
    Served(ServeError<RequestError, ReplyError>),
    /// Memory was refused before the first request.
    #[error("out of memory")]
    Memory,
}

impl ProgramError for Fault {
    ghost broken_pipe = { WrapsBrokenPipe (λ e. Served (Output e)) };

    fn is_broken_pipe(&self) -> bool {
        match self {
            Fault::Served(ServeError::Output(e)) => e.is_broken_pipe(),
            _ => false,
        }
    }
}
