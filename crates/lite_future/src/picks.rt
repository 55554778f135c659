ghost use Rattle.std.specs.Prelude.{◌⊎◌, List, []};
ghost use Rattle.lite_future.specs.Uses.{Keeps, Poll, Registered};
ghost use Rattle.futures.specs.Poll.{OnPending};
ghost use Rattle.lite_future.specs.Picks.{PickRow};

use lite_base::{Context, Future, Poll};

/// Polls `first`, and then `second` if `first` returned `Pending`.
pub(crate) fn poll_in_order<F, G>(
    first: &mut F,
    second: &mut G,
    cx: &mut Context<'_>,
) -> Poll<F::Output>
where
    F: Future,
    G: Future<Output = F::Output>,
    requires first { F.can_poll first.old }
    requires second { G.can_poll second.old }
    ensures row { (i j : List (Poll F.Output)) × F.run first.old i first.new × G.run second.old j second.new
        × PickRow i j result [] [] }
    ensures again { OnPending result (F.can_poll first.new × G.can_poll second.new) }
    ensures registered { Registered result (λ fact. F.registers first.new fact ⊎ G.registers second.new fact) cx.new }
    ensures context { Keeps cx.old cx.new }
{
    match first.poll(cx) {
        Poll::Ready(x) => Poll::Ready(x),
        Poll::Pending => second.poll(cx),
    }
}
