//! Why the program stops.
ghost use Rattle.example_frames.specs.declared.fault.Fault.TheVariants.{Output};
ghost use Rattle.programs.specs.Statuses.{WrapsBrokenPipe};

use crate::entries::EntryError;
use bytes::BytesMut;
use framed::{CollectError, FrameError};
use programs::ProgramError;
use std::alloc::AllocError;
use std::io;
use thiserror::Error;

/// Why the program stopped.
#[derive(Debug, Drop, Error)]
pub enum Fault {
    /// A frame was not read or not written.
    #[error(transparent)]
    Frame(FrameError),
    /// An entry was not read.
    #[error(transparent)]
    Entry(EntryError),
    /// Standard input failed.
    #[error("cannot read: {0}")]
    Input(io::Error),
    /// Standard output failed.
    #[error("cannot write: {0}")]
    Output(io::Error),
    /// Memory was refused.
    #[error("out of memory")]
    Memory,
}

impl ProgramError for Fault {
    ghost broken_pipe = { WrapsBrokenPipe Output };

    fn is_broken_pipe(&self) -> bool {
        match self {
            Fault::Output(e) => e.is_broken_pipe(),
            _ => false,
        }
    }
}

impl From<FrameError> for Fault {
    fn from(error: FrameError) -> Fault {
        Fault::Frame(error)
    }
}

impl From<CollectError<BytesMut, FrameError>> for Fault {
    fn from(error: CollectError<BytesMut, FrameError>) -> Fault {
        match error {
            CollectError::Input(e) => Fault::Frame(e),
            CollectError::Memory(_) => Fault::Memory,
        }
    }
}

impl From<EntryError> for Fault {
    fn from(error: EntryError) -> Fault {
        Fault::Entry(error)
    }
}

impl From<io::Error> for Fault {
    fn from(error: io::Error) -> Fault {
        Fault::Output(error)
    }
}

impl From<AllocError> for Fault {
    fn from(_: AllocError) -> Fault {
        Fault::Memory
    }
}
