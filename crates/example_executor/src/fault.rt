//! Why an executor stops before it has the values.
ghost use Rattle.std.specs.Prelude.{◌≡◌};
ghost use Rattle.example_executor.specs.declared.fault.RunError.TheVariants.{Memory};

use std::alloc::AllocError;
use std::io;
use std::io::ErrorKind;

/// Why an executor stopped before so many tasks had their values.
#[derive(Debug, Drop)]
pub enum RunError {
    /// There was no memory for the queue, or there were no random bytes to name it by: no task was polled.
    Queue(io::Error),
    /// An allocation failed, such as that of a task's place in the queue: no task was polled.
    Memory,
    /// All tasks have their values, and more were wanted.
    TooFew,
}

impl From<AllocError> for RunError {
    ghost from_gives = { λ _ error. error ≡ Memory };

    fn from(_: AllocError) -> RunError {
        RunError::Memory
    }
}

impl From<RunError> for io::Error {
    fn from(error: RunError) -> io::Error {
        match error {
            RunError::Queue(error) => error,
            RunError::Memory => io::Error::from(ErrorKind::OutOfMemory),
            RunError::TooFew => io::Error::from(ErrorKind::InvalidInput),
        }
    }
}
