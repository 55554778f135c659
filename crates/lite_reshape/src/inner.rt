//! What `flatten` and `flat_map` share: a step over an outer stream and the current inner stream.
ghost use Rattle.std.specs.Prelude.{◌≡◌, IfSome, None};
ghost use Rattle.lite_reshape.specs.Uses.{Keeps, Registered};
ghost use Rattle.lite_reshape.specs.Inner.{CanFlatten, FlatStep};
ghost use Rattle.lite_reshape.specs.Expanding.{HeldRegisters};

use lite_base::{Context, Counted, Poll, Stream};

// Polls the inner stream, and the outer one if there is no inner stream or it has ended. `None` means that
// the poll continues, because the outer stream yielded an inner stream.
#[inline]
pub(crate) fn poll_part<B: Stream + Drop, S: Counted<Item = B>>(
    stream: &mut S,
    inner_stream: &mut Option<B>,
    cx: &mut Context<'_>,
) -> Option<Poll<Option<B::Item>>>
    requires { CanFlatten S.run S.can_poll S.ranks.counts B.can_poll stream.old inner_stream.old }
    ensures stepped { FlatStep B.run S.run (stream.old, inner_stream.old) result (stream.new, inner_stream.new) }
    ensures again { CanFlatten S.run S.can_poll S.ranks.counts B.can_poll stream.new inner_stream.new }
    ensures registered { IfSome result
        (λ answer. Registered answer (HeldRegisters S.registers B.registers stream.new inner_stream.new) cx.new) }
    ensures context { Keeps cx.old cx.new }
{
    match inner_stream {
        Some(inner) => match inner.poll_next(cx) {
            Poll::Ready(Some(item)) => Some(Poll::Ready(Some(item))),
            Poll::Ready(None) => {
                *inner_stream = None;
                poll_outer(stream, inner_stream, cx)
            }
            Poll::Pending => Some(Poll::Pending),
        },
        None => poll_outer(stream, inner_stream, cx),
    }
}

// Polls the outer stream. `None` means that it yielded an inner stream.
#[inline]
fn poll_outer<B: Stream + Drop, S: Counted<Item = B>>(
    stream: &mut S,
    inner_stream: &mut Option<B>,
    cx: &mut Context<'_>,
) -> Option<Poll<Option<B::Item>>>
    requires can { CanFlatten S.run S.can_poll S.ranks.counts B.can_poll stream.old inner_stream.old }
    requires empty { inner_stream.old ≡ None }
    ensures stepped { FlatStep B.run S.run (stream.old, None) result (stream.new, inner_stream.new) }
    ensures again { CanFlatten S.run S.can_poll S.ranks.counts B.can_poll stream.new inner_stream.new }
    ensures registered { IfSome result
        (λ answer. Registered answer (HeldRegisters S.registers B.registers stream.new inner_stream.new) cx.new) }
    ensures context { Keeps cx.old cx.new }
{
    match stream.poll_next(cx) {
        Poll::Ready(Some(inner)) => {
            *inner_stream = Some(inner);
            None
        }
        Poll::Ready(None) => Some(Poll::Ready(None)),
        Poll::Pending => Some(Poll::Pending),
    }
}
