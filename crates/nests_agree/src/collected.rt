//! The lines of two readers that are alike, collected. Wherever either reader was pending, and in whatever pieces its bytes came,
//! the lines are the same: texts by their bytes, and errors by their kinds. `Err` where there was no memory to sleep on.
ghost use Rattle.lite_base.specs.Alike.{SameList};
ghost use Rattle.lite_gather.specs.Agreeing.{SameCollected, TrySameCollected};
ghost use Rattle.lite_read.specs.Laws.Marks.{SameText};
ghost use Rattle.lite_io_base.specs.Steady.{SameByKind, SameOr};
ghost use Rattle.nests_agree.specs.Lines.{AmpleUnrefused, EachFound, WasFound};
ghost use Rattle.std.specs.IoError.{error_kind};
ghost use Rattle.std.specs.List.{AllZip};
ghost use Rattle.std.specs.Prelude.{◌≡◌, IfOk};

use crate::lengths::{is_some, length};
use lite_base::{Counted, SteadyStream};
use lite_gather::make::{collect, try_collect};
use lite_gather::{Refused, TryCollectError};
use lite_io_base::{AsyncBufRead, CountedRead, SteadyRead};
use lite_laws::block_on_both;
use lite_read::make::lines;
use lite_reshape::make::filter;
use lite_stream::make::{map, take};
use std::alloc::{AllocError, AllocGlobal};
use std::io;
use std::random::RandomSource;
use std::sync::Wait;

/// The lines of a reader, or what came in place of one.
pub type TriedLines = Result<Vec<String>, TryCollectError<Vec<String>, String, io::Error>>;

/// The lines of a reader, and its errors in their places.
pub type GatheredLines = Result<
    Vec<io::Result<String>>,
    Refused<Vec<io::Result<String>>, io::Result<String>>,
>;

/// The lengths of the lines of a reader, and its errors in their places.
pub type GatheredLengths = Result<
    Vec<io::Result<usize>>,
    Refused<Vec<io::Result<usize>>, io::Result<usize>>,
>;

/// Collects the lines of each reader up to a number of lines, or up to the first error. Where neither value is a refusal of memory,
/// both are collections of the same lines, or errors of one kind.
pub fn tried_lines_agree<R, T>(
    rt: &R,
    one: T,
    other: T,
    most: usize,
) -> Result<(TriedLines, TriedLines), AllocError>
where
    R: Wait + RandomSource + AllocGlobal,
    T: AsyncBufRead + CountedRead + SteadyRead + Drop,
    requires counts { T.ranks.counts one × T.ranks.counts other }
    requires alike { T.alike one other }
    requires found { T.needs_none }
    ensures { IfOk result (λ values. WasFound values.0 → WasFound values.1
        → TrySameCollected (λ v w. AllZip SameText v.items w.items)
        (λ e f. error_kind e ≡ error_kind f) values.0 values.1) }
{
    let tried = try_collect(take(lines(one, rt.alloc()), most), rt.alloc());
    let more = try_collect(take(lines(other, rt.alloc()), most), rt.alloc());
    block_on_both(rt, tried, more)
}

/// Collects the lines of each reader up to a number of lines, with its errors in their places. Where no memory was refused, neither
/// for a line nor for a collection, both hold the same.
pub fn gathered_lines_agree<R, T>(
    rt: &R,
    one: T,
    other: T,
    most: usize,
) -> Result<(GatheredLines, GatheredLines), AllocError>
where
    R: Wait + RandomSource + AllocGlobal,
    T: AsyncBufRead + CountedRead + SteadyRead + Drop,
    requires counts { T.ranks.counts one × T.ranks.counts other }
    requires alike { T.alike one other }
    requires found { T.needs_none }
    ensures { IfOk result (λ values. EachFound values.0 → EachFound values.1
        → SameCollected (λ v w. AllZip (SameOr SameText) v.items w.items) values.0 values.1) }
{
    let gathered = collect(take(lines(one, rt.alloc()), most), rt.alloc());
    let more = collect(take(lines(other, rt.alloc()), most), rt.alloc());
    block_on_both(rt, gathered, more)
}

/// Collects the lengths of the lines of each reader up to a number of lines, without those that are empty, with its errors in their places.
/// Where no memory was refused, neither for a line nor for a collection, both hold the same: equal lengths, and errors of one kind.
pub fn gathered_lengths_agree<R, T>(
    rt: &R,
    one: T,
    other: T,
    most: usize,
) -> Result<(GatheredLengths, GatheredLengths), AllocError>
where
    R: Wait + RandomSource + AllocGlobal,
    T: AsyncBufRead + CountedRead + SteadyRead + Drop,
    requires counts { T.ranks.counts one × T.ranks.counts other }
    requires alike { T.alike one other }
    requires found { T.needs_none }
    ensures { IfOk result (λ values. EachFound values.0 → EachFound values.1
        → SameCollected (λ v w. AllZip SameByKind v.items w.items) values.0 values.1) }
{
    let lengths = filter(take(map(lines(one, rt.alloc()), length), most), is_some);
    let more = filter(take(map(lines(other, rt.alloc()), length), most), is_some);
    gathered_agree(rt, lengths, more)
}

/// Collects the items of each of two streams that are alike. Where no memory was refused, both hold the same.
fn gathered_agree<R, S>(
    rt: &R,
    one: S,
    other: S,
) -> Result<(GatheredLengths, GatheredLengths), AllocError>
where
    R: Wait + RandomSource + AllocGlobal,
    S: SteadyStream<Item = io::Result<usize>> + Counted + Drop,
    requires can_poll { S.can_poll one × S.can_poll other }
    requires counts { S.ranks.counts one × S.ranks.counts other }
    requires alike { S.alike one other }
    requires found { AmpleUnrefused S.run S.ample }
    ensures { IfOk result (λ values. EachFound values.0 → EachFound values.1
        → SameCollected (λ v w. SameList S.same v.items w.items) values.0 values.1) }
{
    block_on_both(rt, collect(one, rt.alloc()), collect(other, rt.alloc()))
}
