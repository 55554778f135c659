//! How a program ends.
ghost use Rattle.programs.specs.Statuses.{EndsAtError, EndsHelped, IsBrokenPipe};
ghost use Rattle.std.specs.Prelude.{◌≡◌, ◌↔◌, IfErr, IfOk, IsTrue};
ghost use Rattle.std.specs.Process.{exit_status};

use std::fmt::Display;
use std::io::{self, Eprint, ErrorKind, Print};
use std::process::ExitCode;

/// The status of a program if nobody reads its output any more. A shell shows it for a tool that SIGPIPE ended.
pub const BROKEN_PIPE: u8 = 141;

/// Why a program stops.
pub trait ProgramError: Display {
    /// Whether the error says that nobody reads the output any more.
    ghost broken_pipe: { Self → Type 0 };

    /// Returns whether nobody reads the output any more.
    fn is_broken_pipe(&self) -> bool
        ensures { IsTrue result ↔ Self.broken_pipe self.now };
}

impl ProgramError for io::Error {
    ghost broken_pipe = { IsBrokenPipe };

    fn is_broken_pipe(&self) -> bool {
        self.kind() == ErrorKind::BrokenPipe
    }
}

/// Returns the status that a program ends with: 0 after `Ok`, and 1 after an error.
///
/// The error is printed on standard error, as one line with the name of the program. If nobody reads the output any more,
/// nothing is printed, and the status is [`BROKEN_PIPE`].
pub fn end<R: Eprint, E: ProgramError + Drop>(rt: &R, name: &str, ended: Result<(), E>) -> ExitCode
    ensures ok { IfOk ended (λ _. exit_status result ≡ 0) }
    ensures failed { IfErr ended (λ e. EndsAtError (E.broken_pipe e) result) }
{
    match ended {
        Ok(()) => ExitCode::from(0),
        Err(e) => {
            if e.is_broken_pipe() {
                return ExitCode::from(BROKEN_PIPE);
            }
            failed(rt, name, &e)
        }
    }
}

/// Prints the error on standard error, as one line with the name of the program, and returns the status 1.
pub(crate) fn failed<R: Eprint, E: Display>(rt: &R, name: &str, error: &E) -> ExitCode
    ensures { exit_status result ≡ 1 }
{
    let _ = eprintln!(rt; "{name}: {error}");
    ExitCode::from(1)
}

/// Prints on standard output how the program is called, and returns the status 0.
///
/// The status is that of [`end`] if standard output fails: 1, or [`BROKEN_PIPE`] if nobody reads it any more.
pub fn help<R: Print + Eprint>(rt: &R, name: &str, usage: &str) -> ExitCode
    ensures { EndsHelped result }
{
    end(rt, name, println!(rt; "usage: {usage}"))
}

/// Prints on standard error how the program is called, and returns the status 2.
pub fn misused<R: Eprint>(rt: &R, name: &str, usage: &str) -> ExitCode
    ensures { exit_status result ≡ 2 }
{
    let _ = eprintln!(rt; "{name}: usage: {usage}");
    ExitCode::from(2)
}
