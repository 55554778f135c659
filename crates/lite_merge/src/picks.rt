//! What `or` and `race` share: a poll of two streams in a given order.
ghost use Rattle.std.specs.Prelude.{List, [], ◌∷◌};
ghost use Rattle.lite_merge.specs.Uses.{Keeps, Answer, Fuses, Registered};
ghost use Rattle.lite_merge.specs.Merge.{MergeRegisters, MergeRow, OpenRegisters, fused};

use lite_base::{Context, Poll, Stream, ready};

/// Polls `first`, and then `second` if that has no item. A stream that has ended is not polled, and the flag behind it
/// says whether it has.
pub(crate) fn poll_in_order<S, U>(
    first: &mut S,
    first_ended: &mut bool,
    second: &mut U,
    second_ended: &mut bool,
    cx: &mut Context<'_>,
) -> Poll<Option<S::Item>>
where
    S: Stream,
    U: Stream<Item = S::Item>,
    requires first { S.can_poll first.old }
    requires second { U.can_poll second.old }
    ensures row { (i j : List (Answer S.Item))
        × Fuses S.run (fused first.old first_ended.old) i (fused first.new first_ended.new)
        × Fuses U.run (fused second.old second_ended.old) j (fused second.new second_ended.new)
        × MergeRow i j result [] [] }
    ensures first_again { S.can_poll first.new }
    ensures second_again { U.can_poll second.new }
    ensures registered { Registered result (MergeRegisters S.registers U.registers
        (fused first.new first_ended.new) (fused second.new second_ended.new)) cx.new }
    ensures context { Keeps cx.old cx.new }
{
    match poll_unended(first, first_ended, cx) {
        Poll::Ready(Some(item)) => Poll::Ready(Some(item)),
        Poll::Ready(None) => poll_unended(second, second_ended, cx),
        Poll::Pending => match poll_unended(second, second_ended, cx) {
            Poll::Ready(Some(item)) => Poll::Ready(Some(item)),
            Poll::Ready(None) | Poll::Pending => Poll::Pending,
        },
    }
}

// Polls a stream, unless it has ended, and notes an end that it returns.
#[inline(always)]
fn poll_unended<S: Stream>(
    stream: &mut S,
    has_ended: &mut bool,
    cx: &mut Context<'_>,
) -> Poll<Option<S::Item>>
    requires { S.can_poll stream.old }
    ensures ran { Fuses S.run (fused stream.old has_ended.old) (result ∷ []) (fused stream.new has_ended.new) }
    ensures again { S.can_poll stream.new }
    ensures registered { Registered result (OpenRegisters S.registers (fused stream.new has_ended.new)) cx.new }
    ensures context { Keeps cx.old cx.new }
{
    if *has_ended {
        return Poll::Ready(None);
    }
    match ready!(stream.poll_next(cx)) {
        Some(item) => Poll::Ready(Some(item)),
        None => {
            *has_ended = true;
            Poll::Ready(None)
        }
    }
}
