//! Numbers are mapped, filtered and cut. List functions say what comes out, and the list that is printed is proved.
#![tactic(auto)]

ghost use Rattle.std.specs.Prelude.{◌≡◌, ◌==◌, ◌%◌, ◌*◌, IfOk, map, take};
ghost use Rattle.std.specs.List.{filter};

use futures_lite::{StreamExt, future, stream};
use std::alloc::{AllocError, AllocGlobal};
use std::io;
use std::random::RandomSource;
use std::sync::Wait;

/// The first even triples, `count` at most.
fn even_triples<R>(rt: &R, numbers: Vec<u32>, count: usize) -> Result<Vec<u64>, AllocError>
where
    R: Wait + RandomSource + AllocGlobal,
    ensures { IfOk result (λ v. v.items ≡ take count (filter (λ x. x % 2 == 0) (map (λ x. x * 3) numbers.items))) }
{
    let tripled = stream::iter_vec(numbers).map(|x: u32| x as u64 * 3);
    let evens = tripled.filter(|x| *x % 2 == 0).take(count);
    future::block_on(rt, evens.collect::<Vec<u64>>(rt.alloc()))?.map_err(|_| AllocError)
}

fn main(rt: HostRuntime) -> io::Result<()> {
    let numbers = vec![in rt.alloc(); 1u32, 2, 3, 4, 5, 6]?;
    let evens = even_triples(&rt, numbers, 2)?;
    prove!(evens.len() == 2 && evens[0] == 6 && evens[1] == 12);
    println!(rt; "{evens:?}")?;
    Ok(())
}
