//! A nest of six adapters, run twice over sources that differ in their pendings alone.
ghost use Rattle.std.specs.Prelude.{◌≡◌, ◌++◌, List, length, IfOk};
ghost use Rattle.futures_lite.specs.Answers.{Answer, Comparable, strip};

use futures_lite::stream::Script;
use futures_lite::{Context, Poll, StreamExt, laws};
use std::alloc::AllocError;

/// Appends what `polls` polls answer of the first `count` even triples below 1000, without the first number, of each of two scripts
/// whose ready answers are the same. One of the two lists of answers begins the other, pendings aside. `Err` where memory for an
/// answer is refused: then fewer were appended.
pub fn triples_agree(
    one: Script<u32>,
    other: Script<u32>,
    count: usize,
    cx: &mut Context<'_>,
    polls: usize,
    out: &mut Vec<Poll<Option<u64>>>,
    out_more: &mut Vec<Poll<Option<u64>>>,
) -> Result<(), AllocError>
    requires { strip one ≡ strip other }
    ensures { (l m : List (Answer _)) × (out.new.items ≡ out.old.items ++ l)
        × (out_more.new.items ≡ out_more.old.items ++ m)
        × Comparable (strip l) (strip m) × IfOk result (λ _. (length l ≡ polls) × (length m ≡ polls)) }
{
    let triple = |x: u32| x as u64 * 3;
    let is_even = |x: &u64| *x % 2 == 0;
    let is_small = |x: &u64| *x < 1000;
    let tripled = one.skip(1).map(triple).filter(is_even);
    let mut x = tripled.take_while(is_small).take(count).fuse();
    let tripled = other.skip(1).map(triple).filter(is_even);
    let mut y = tripled.take_while(is_small).take(count).fuse();
    laws::run_both(&mut x, &mut y, cx, polls, polls, out, out_more)
}
