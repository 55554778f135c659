ghost use Rattle.std.specs.Prelude.{◌≡◌};
ghost use Rattle.pollrun.specs.Fault.{line_of, status_of};
ghost use Rattle.pollrun.specs.declared.fault.Fault.TheVariants.{Memory};

use std::alloc::{AllocError, AllocFailed};

/// Why there is nothing to print.
#[derive(Clone, Copy, Debug, PartialEq, Eq)]
pub enum Fault {
    /// The words are not a request.
    Arguments,
    /// Memory was refused.
    Memory,
    /// The output could not be written.
    Output,
    /// Nobody reads the output any more.
    BrokenPipe,
}

impl Fault {
    /// The status that the program ends with: 2 for bad arguments, 141 for a broken pipe, else 1.
    pub fn status(self) -> u8
        ensures { result ≡ status_of self }
    {
        match self {
            Fault::Arguments => 2,
            Fault::Memory | Fault::Output => 1,
            Fault::BrokenPipe => 141,
        }
    }

    /// The line that tells the fault, with its newline. A broken pipe has none.
    pub fn line(self) -> &'static str
        ensures { result.now ≡ line_of self }
    {
        match self {
            Fault::Arguments => "pollrun: bad arguments\n",
            Fault::Memory => "pollrun: out of memory\n",
            Fault::Output => "pollrun: output failed\n",
            Fault::BrokenPipe => "",
        }
    }
}

impl From<AllocError> for Fault {
    ghost from_gives = { λ _ fault. fault ≡ Memory };

    fn from(_refused: AllocError) -> Fault {
        Fault::Memory
    }
}

impl<T: Drop> From<AllocFailed<T>> for Fault {
    ghost from_gives = { λ _ fault. fault ≡ Memory };

    fn from(_refused: AllocFailed<T>) -> Fault {
        Fault::Memory
    }
}
