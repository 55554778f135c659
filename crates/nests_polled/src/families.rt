//! A nest for each family of adapters that joins, flattens or merges, and what is known of each item that comes out of it.
ghost use Rattle.std.specs.Prelude.{◌<◌};
ghost use Rattle.futures_lite.specs.Answers.{EachItem, Recorded};

use futures_lite::future::ready;
use futures_lite::stream::Script;
use futures_lite::{Context, Poll, StreamExt, laws};
use std::alloc::AllocError;

/// Appends what `polls` polls answer of one script after another, up to the end, and of ends after it. Where each item of both
/// is below 10, so is each that comes out. `Err` where memory for `out` is refused: then fewer were appended.
pub fn joined(
    first: Script<u8>,
    second: Script<u8>,
    cx: &mut Context<'_>,
    polls: usize,
    out: &mut Vec<Poll<Option<u8>>>,
) -> Result<(), AllocError>
    requires { EachItem (λ x. x < 10) first × EachItem (λ x. x < 10) second }
    ensures { Recorded out.old out.new polls result (EachItem (λ x. x < 10)) }
{
    let chained = first.chain(second);
    let mut joined = chained.fuse();
    laws::run(&mut joined, cx, polls, out)
}

/// Appends what `polls` polls answer of the items of the scripts that a script gives. Where each of theirs is below 10, so is
/// each that comes out. `Err` where memory for `out` is refused: then fewer were appended.
pub fn flattened(
    scripts: Script<Script<u8>>,
    cx: &mut Context<'_>,
    polls: usize,
    out: &mut Vec<Poll<Option<u8>>>,
) -> Result<(), AllocError>
    requires { EachItem (EachItem (λ x. x < 10)) scripts }
    ensures { Recorded out.old out.new polls result (EachItem (λ x. x < 10)) }
{
    let mut flat = scripts.flatten();
    laws::run(&mut flat, cx, polls, out)
}

/// Appends what `polls` polls answer of the last digits of a script's items, each handed out by a future. Each is below 10.
/// `Err` where memory for `out` is refused: then fewer were appended.
pub fn digits(
    script: Script<u8>,
    cx: &mut Context<'_>,
    polls: usize,
    out: &mut Vec<Poll<Option<u8>>>,
) -> Result<(), AllocError>
    ensures { Recorded out.old out.new polls result (EachItem (λ x. x < 10)) }
{
    let mut digits = script.then(|x: u8| ready(x % 10));
    laws::run(&mut digits, cx, polls, out)
}

/// Appends what `polls` polls answer of the pairs of two scripts' items. Where the first's are below 10 and the second's above
/// 90, so are those of each pair. `Err` where memory for `out` is refused: then fewer were appended.
pub fn paired(
    first: Script<u8>,
    second: Script<u8>,
    cx: &mut Context<'_>,
    polls: usize,
    out: &mut Vec<Poll<Option<(u8, u8)>>>,
) -> Result<(), AllocError>
    requires { EachItem (λ x. x < 10) first × EachItem (λ y. 90 < y) second }
    ensures { Recorded out.old out.new polls result (EachItem (λ z. (z.0 < 10) × (90 < z.1))) }
{
    let mut pairs = first.zip(second);
    laws::run(&mut pairs, cx, polls, out)
}

/// Appends what `polls` polls answer of two scripts, of which the first stands first. Where each item of both is below 10, so is
/// each that comes out. `Err` where memory for `out` is refused: then fewer were appended.
pub fn merged(
    first: Script<u8>,
    second: Script<u8>,
    cx: &mut Context<'_>,
    polls: usize,
    out: &mut Vec<Poll<Option<u8>>>,
) -> Result<(), AllocError>
    requires { EachItem (λ x. x < 10) first × EachItem (λ x. x < 10) second }
    ensures { Recorded out.old out.new polls result (EachItem (λ x. x < 10)) }
{
    let mut merged = first.or(second);
    laws::run(&mut merged, cx, polls, out)
}
