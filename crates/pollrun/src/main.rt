//! `pollrun PIPE POLLS ANSWERS` polls a stream over a script and prints what it answers.
#![tactic(auto)]

ghost use Rattle.std.specs.Prelude.{◌≡◌, ◌≤◌, ◌⊎◌, IfErr, IfOk};
ghost use Rattle.pollrun.specs.declared.fault.Fault.TheVariants.{Arguments, Memory};

mod fault;
mod request;
mod serve;
mod spelling;

use crate::fault::Fault;
use crate::serve::{report, serve};
use futures::task::{Doorbell, Solo};
use programs::help;
use std::env;
use std::io::ErrorKind;
use std::process::ExitCode;

/// The name of the program.
const NAME: &str = "pollrun";

/// How it is called.
const USAGE: &str = "pollrun PIPE POLLS ANSWERS [ANSWERS]";

fn main(rt: HostRuntime) -> ExitCode {
    let ended = match words_of(&rt) {
        Ok(words) if asks_usage(&words) => return help(&rt, NAME, USAGE),
        Ok(words) => served(&rt, &words),
        Err(fault) => Err(fault),
    };
    match ended {
        Ok(status) => ExitCode::from(status),
        Err(fault) => {
            let _ = report(fault, &mut rt.stderr());
            ExitCode::from(fault.status())
        }
    }
}

/// Returns whether the words are `--help` alone.
fn asks_usage(words: &[String]) -> bool {
    matches!(words, [word] if word.as_str() == "--help")
}

/// Hands the words, the standard streams and a task of its own to `serve`.
fn served(rt: &HostRuntime, words: &[String]) -> Result<u8, Fault>
    ensures status { IfOk result (λ status. (status ≤ 2) ⊎ (status ≡ 141)) }
    ensures failed { IfErr result (λ fault. fault ≡ Memory) }
{
    let Ok(solo) = Solo::new(rt, Doorbell::spinning()) else {
        return Err(Fault::Memory);
    };
    let mut cx = solo.begin();
    let status = serve(
        rt.alloc(),
        &mut cx,
        words,
        &mut rt.stdout(),
        &mut rt.stderr(),
    );
    cx.cancel();
    Ok(status)
}

/// The words after the program's name. One that is not UTF-8 is no argument of this program's.
fn words_of(rt: &HostRuntime) -> Result<Vec<String>, Fault>
    ensures { IfErr result (λ fault. (fault ≡ Arguments) ⊎ (fault ≡ Memory)) }
{
    match env::args(rt) {
        Ok(words) => Ok(words.skip(1).collect(rt.alloc())?),
        Err(e) if e.kind() == ErrorKind::InvalidData => Err(Fault::Arguments),
        Err(_) => Err(Fault::Memory),
    }
}
