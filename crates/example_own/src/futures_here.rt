//! Two futures of one's own, waited for on this thread.
ghost use Rattle.std.specs.Prelude.{◌≡◌, IfOk};

use crate::countdown::Countdown;
use crate::later::Later;
use futures_lite::future::block_on;
use std::alloc::{AllocError, AllocGlobal};
use std::io;
use std::random::RandomSource;
use std::sync::Wait;

/// Waits for both, and prints what they gave.
pub fn show<R>(rt: &R) -> io::Result<()>
where
    R: Wait + RandomSource + AllocGlobal + Print,
{
    let value = block_on(rt, Later { left: 2, value: 7 })?;
    println!(rt; "{value}")?;
    let value = waited(rt, 3, 8)?;
    println!(rt; "{value}")
}

/// Waits for a countdown: the value is the one that it was made with.
#[tactic(auto, using(crate::specs::Countdown::countdown_value))]
fn waited<R>(rt: &R, left: u8, value: u32) -> Result<u32, AllocError>
where
    R: Wait + RandomSource + AllocGlobal,
    ensures { IfOk result (λ given. given ≡ value) }
{
    let given = block_on(rt, Countdown { left, value })?;
    Ok(given)
}
