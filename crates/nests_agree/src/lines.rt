//! Nests over the lines of two readers that are alike. Lines are the same where their texts have the same bytes, or both are
//! errors of one kind.
ghost use Rattle.lite_base.specs.Alike.{OptionBy};
ghost use Rattle.lite_base.specs.Answers.{ComparableBy, strip};
ghost use Rattle.nests_agree.specs.Lengths.{WillGiveLength};
ghost use Rattle.nests_agree.specs.Lines.{FromLines};
ghost use Rattle.lite_read.specs.Laws.Marks.{SameText};
ghost use Rattle.lite_read.specs.NoneRefused.{NoneRefused};
ghost use Rattle.lite_io_base.specs.Steady.{SameByKind, SameOr};
ghost use Rattle.nests_agree.specs.Both.{Begins, BothAppended};

use crate::both::{TwoRuns, both_appended};
use crate::lengths::{is_some, length};
use lite_base::Context;
use lite_future::Ready;
use lite_future::make::ready;
use lite_io_base::{AsyncBufRead, CountedRead, SteadyRead};
use lite_read::make::lines;
use lite_reshape::make::{filter, then};
use lite_stream::make::{map, take};
use std::alloc::{AllocError, Global};
use std::io;

/// Runs the lengths of the lines of each of two readers that are alike, up to a number of lines, without those that are empty.
/// Where memory was found for each line, the answers are the same, pendings aside, as far as both go: errors by their kinds.
/// On `Ok` so many answers were appended; `Err` where memory for an answer is refused: then fewer were.
pub fn lengths_agree<R>(
    one: R,
    other: R,
    alloc: Global,
    most: usize,
    cx: &mut Context<'_>,
    runs: &mut TwoRuns<io::Result<usize>>,
) -> Result<(), AllocError>
where
    R: AsyncBufRead + CountedRead + SteadyRead + Drop,
    requires counts { R.ranks.counts one × R.ranks.counts other }
    requires alike { R.alike one other }
    ensures { BothAppended
        (λ l m. FromLines R.reads R.ample one other (ComparableBy (OptionBy SameByKind) (strip l) (strip m)))
        runs.old runs.new result }
{
    let mut x = filter(take(map(lines(one, alloc), length), most), is_some);
    let mut y = filter(take(map(lines(other, alloc), length), most), is_some);
    both_appended(&mut x, &mut y, cx, runs)
}

/// Makes a future of each line of each of two readers that are alike, up to a number of lines, which gives the line's length,
/// and 0 for an error. Where memory was found for each line, the lengths are equal, pendings aside, as far as both go.
/// On `Ok` so many answers were appended; `Err` where memory for an answer is refused: then fewer were.
pub fn futures_of_lines_agree<R>(
    one: R,
    other: R,
    alloc: Global,
    most: usize,
    cx: &mut Context<'_>,
    runs: &mut TwoRuns<usize>,
) -> Result<(), AllocError>
where
    R: AsyncBufRead + CountedRead + SteadyRead + Drop,
    requires counts { R.ranks.counts one × R.ranks.counts other }
    requires alike { R.alike one other }
    ensures { BothAppended
        (λ l m. FromLines R.reads R.ample one other (Begins l m))
        runs.old runs.new result }
{
    let measure = |line: io::Result<String>| -> Ready<usize>
        ensures { WillGiveLength line result }
    {
        match line {
            Ok(text) => ready(text.as_str().len()),
            Err(_) => ready(0),
        }
    };
    let mut x = take(then(lines(one, alloc), measure), most);
    let mut y = take(then(lines(other, alloc), measure), most);
    both_appended(&mut x, &mut y, cx, runs)
}

/// Runs the lines of each of two readers that are alike and ask for no memory. Where no answer is a refusal, an error of the
/// kind `OutOfMemory`, the lines are the same, pendings aside, as far as both go.
/// On `Ok` so many answers were appended; `Err` where memory for an answer is refused: then fewer were.
pub fn lines_agree<R>(
    one: R,
    other: R,
    alloc: Global,
    cx: &mut Context<'_>,
    runs: &mut TwoRuns<io::Result<String>>,
) -> Result<(), AllocError>
where
    R: AsyncBufRead + CountedRead + SteadyRead + Drop,
    requires counts { R.ranks.counts one × R.ranks.counts other }
    requires alike { R.alike one other }
    requires found { R.needs_none }
    ensures { BothAppended
        (λ l m. NoneRefused l → NoneRefused m → ComparableBy (OptionBy (SameOr SameText)) (strip l) (strip m))
        runs.old runs.new result }
{
    let mut x = lines(one, alloc);
    let mut y = lines(other, alloc);
    both_appended(&mut x, &mut y, cx, runs)
}
