ghost use Rattle.std.specs.Prelude.{◌≡◌, ⊤, ℕ, Option};
ghost use Rattle.lite_merge.specs.Uses.{laws_capped, ok_counting, ranks_of, through_counting, through_on};
ghost use Rattle.lite_base.specs.Laws.Lent.{lent_counting, lent_laws};
ghost use Rattle.std.specs.Borrow.{Lends, sem};
ghost use Rattle.lite_merge.specs.Drain.{Drains, drain_parts};
ghost use Rattle.lite_merge.specs.Laws.Drain.{drain_calm, drained_relating};
ghost use Rattle.lite_base.specs.Laws.Armed.{arms_always};

use lite_base::{ArmedStream, CalmStream, Context, Counted, OkCounted, Poll, Stream};

/// A stream that borrows another stream, and ends whenever that is pending.
///
/// Returned by [`drain`](crate::make::drain). It never returns `Pending`: its end means that the borrowed
/// stream is pending or has ended. The next poll polls the borrowed stream again.
#[derive(Debug, Drop)]
pub struct Drain<'a, S> {
    pub(crate) stream: &'a mut S,
}

impl<'a, S> Drain<'a, S> {
    ghost use mir.Syntax.{named};
    ghost use Rattle.std.specs.Prelude.{[]};
    ghost use Rattle.lite_merge.specs.contracts.drain.Drain.{the_row};

    /// Returns a reference to the borrowed stream.
    ///
    /// # Examples
    ///
    /// ```
    /// use futures_lite::{Stream, StreamExt, stream};
    ///
    /// fn hint<S: Stream>(s: &mut S) -> (usize, Option<usize>)
    ///     ensures { S.hints s.old result }
    /// {
    ///     s.drain().get_ref().size_hint()
    /// }
    ///
    /// let mut numbers = stream::iter(0u8..4);
    /// assert_eq!(rt; hint(&mut numbers), (4, Some(4)));
    /// ```
    pub fn get_ref(&self) -> &S
        ensures { result.now ≡ self.now.stream.now }
    {
        self.stream
    }

    /// Returns a mutable reference to the borrowed stream, which may be polled or changed.
    ///
    /// # Examples
    ///
    /// ```
    /// use futures_lite::{Stream, StreamExt, future, stream};
    ///
    /// fn replaced<S: Stream + Drop>(s: S, other: S) -> S
    ///     ensures { result ≡ other }
    /// {
    ///     let mut s = s;
    ///     *s.drain().get_mut() = other;
    ///     s
    /// }
    ///
    /// let mut numbers = replaced(stream::iter(0u8..2), stream::iter(0..4));
    /// let mut ready = numbers.drain();
    /// assert_eq!(rt; future::block_on(&rt, ready.get_mut().nth(2))?, Some(2));
    /// assert_eq!(rt; future::block_on(&rt, ready.next())?, Some(3));
    /// ```
    pub fn get_mut(&mut self) -> &mut S
        ensures value { result.now ≡ self.old.stream.now }
        ensures* writes_back { sem 𝓛 (Lends (the_row (record { mir = named 1; lft = [] }) S.row) S.row self.entry result
            (λ w. record self.old { stream = record self.old.stream { now = w } })) }
    {
        self.stream
    }

    /// Returns the mutable reference to the borrowed stream.
    ///
    /// # Examples
    ///
    /// ```
    /// use futures_lite::{Stream, StreamExt, future, stream};
    ///
    /// fn replaced<S: Stream + Drop>(s: S, other: S) -> S
    ///     ensures { result ≡ other }
    /// {
    ///     let mut s = s;
    ///     *s.drain().into_inner() = other;
    ///     s
    /// }
    ///
    /// let mut numbers = replaced(stream::iter(0u8..2), stream::iter(0..4));
    /// let mut ready = numbers.drain();
    /// assert_eq!(rt; future::block_on(&rt, ready.next())?, Some(0));
    /// let rest = ready.into_inner();
    /// assert_eq!(rt; future::block_on(&rt, rest.next())?, Some(1));
    /// ```
    pub fn into_inner(self) -> &'a mut S
        ensures { result ≡ self.entry.stream }
    {
        self.stream
    }
}

impl<'a, S: Stream> Stream for Drain<'a, S> {
    type Item = S::Item;

    ghost can_poll = { λ m. S.can_poll m.stream.now };

    ghost run = { Drains S.run };

    // It is never pending.
    ghost registers = { λ _ _. ⊤ };

    ghost hints = { λ m hint. (inner : ℕ × Option ℕ) × S.hints m.stream.now inner × (hint ≡ (0, inner.1)) };

    ghost laws = { laws_capped drain_parts (lent_laws S.laws) drained_relating
        (through_on drain_parts (lent_laws S.laws)) };

    fn poll_next(&mut self, cx: &mut Context<'_>) -> Poll<Option<S::Item>> {
        match self.stream.poll_next(cx) {
            Poll::Ready(answer) => Poll::Ready(answer),
            Poll::Pending => Poll::Ready(None),
        }
    }

    fn size_hint(&self) -> (usize, Option<usize>) {
        let (_, upper) = self.stream.size_hint();
        (0, upper)
    }
}

impl<'a, S: Counted> Counted for Drain<'a, S> {
    ghost ranks = { ranks_of (λ m. m.stream.now) S.ranks };

    ghost counting = { through_counting drain_parts (lent_counting S.counting) drained_relating };
}

impl<'a, T, E, S: Counted<Item = Result<T, E>>> OkCounted for Drain<'a, S> {
    type Ok = T;

    type Err = E;

    ghost ok_ranks = { ranks_of (λ m. m.stream.now) S.ranks };

    ghost ok_counting = { ok_counting (through_counting drain_parts (lent_counting S.counting) drained_relating) };
}

impl<'a, S: Stream> CalmStream for Drain<'a, S> {
    ghost is_calm = { λ _. ⊤ };

    ghost calm = { drain_calm S.run };
}

impl<'a, S: Stream> ArmedStream for Drain<'a, S> {
    ghost armed = { arms_always };
}
