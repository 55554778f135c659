//! Nests of streams and readers whose contracts say what they give by functions of lists, with no proof file; each is called, and its
//! value printed.
#![tactic(auto)]

mod ask;
mod gather;
mod sum;
mod text;
mod together;

use ask::{all_even, first_large, last_small, place_of_even};
use futures_lite::stream::iter_vec;
use gather::{
    NotDigits, all_doubled, digits, evens_doubled, flattened, joined, numbered, pairs, parted, sums,
};
use programs::{end, without_words};
use std::alloc::AllocGlobal;
use std::io::{self, ErrorKind};
use std::process::ExitCode;
use std::random::RandomSource;
use std::sync::Wait;
use sum::{counted, total};
use text::{all, front_lines, lines, packed};

/// The name of the program.
const NAME: &str = "example_nests";

fn main(rt: HostRuntime) -> ExitCode {
    match without_words(&rt, NAME) {
        Ok(()) => end(&rt, NAME, print(&rt)),
        Err(status) => status,
    }
}

/// Prints what each nest gives.
fn print<R>(rt: &R) -> io::Result<()>
where
    R: Wait + RandomSource + AllocGlobal + Print,
{
    print_streams(rt)?;
    print_readers(rt)?;
    together::print(rt)
}

/// Prints what the nests of streams give.
fn print_streams<R>(rt: &R) -> io::Result<()>
where
    R: Wait + RandomSource + AllocGlobal + Print,
{
    let numbers = vec![in rt.alloc(); 3u32, 4, 10, 11]?;
    let bytes = vec![in rt.alloc(); 1u8, 2]?;
    println!(rt; "{:?}", evens_doubled(rt, numbers.clone()?)?)?;
    println!(rt; "{:?}", all_doubled(rt, iter_vec(numbers.clone()?))?)?;
    println!(rt; "{}", counted(rt, numbers.clone()?, 3)?)?;
    println!(rt; "{}", total(rt, numbers.clone()?)?)?;
    println!(rt; "{:?}", first_large(rt, numbers.clone()?)?)?;
    println!(rt; "{:?}", pairs(rt, bytes.clone()?, numbers.clone()?)?)?;
    println!(rt; "{:?}", joined(rt, bytes.clone()?, bytes)?)?;
    println!(rt; "{}", all_even(rt, numbers.clone()?)?)?;
    println!(rt; "{:?}", last_small(rt, numbers.clone()?)?)?;
    println!(rt; "{:?}", place_of_even(rt, numbers.clone()?)?)?;
    println!(rt; "{:?}", numbered(rt, numbers.clone()?)?)?;
    println!(rt; "{:?}", parted(rt, numbers.clone()?)?)?;
    println!(rt; "{:?}", sums(rt, numbers.clone()?)?)?;
    println!(rt; "{:?}", flattened(rt, numbers.clone()?)?)?;
    match digits(rt, numbers) {
        Ok(all) => println!(rt; "{all:?}")?,
        Err(NotDigits::Item(x)) => println!(rt; "{x} is no digit")?,
        Err(NotDigits::Memory) => return Err(ErrorKind::OutOfMemory.into()),
    }
    Ok(())
}

/// Prints what the nests of readers give.
fn print_readers<R>(rt: &R) -> io::Result<()>
where
    R: Wait + RandomSource + AllocGlobal + Print,
{
    println!(rt; "{:?}", lines(rt, b"one\ntwo\r\nthree")?)?;
    let second = b"wo\nthree".to_vec(rt.alloc())?;
    println!(rt; "{:?}", front_lines(rt, b"one\nt", second, 7)?)?;
    let mut read = Vec::new(rt.alloc());
    let n = all(rt, b"abc", &mut read)??;
    println!(rt; "{n} {read:?}")?;
    let bytes = packed(rt, b"ab")??;
    println!(rt; "{bytes:?}")
}
