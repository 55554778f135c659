ghost use Rattle.std.specs.Prelude.{◌≡◌, IfOk, None, OnErr, OnOk, Some};
ghost use Rattle.lite_consume.specs.Uses.{CalledAt, TakesAt, Calls};
ghost use Rattle.lite_consume.specs.Given.{BlockGives, MayCall, MayFold, nothing};
ghost use Rattle.lite_consume.specs.All.{all_fold};
ghost use Rattle.lite_consume.specs.Any.{any_fold};
ghost use Rattle.lite_consume.specs.Fold.{CallsBoth, folds};
ghost use Rattle.lite_consume.specs.Count.{counts};
ghost use Rattle.lite_consume.specs.Find.{finds};
ghost use Rattle.lite_consume.specs.FindMap.{finds_map};
ghost use Rattle.lite_consume.specs.ForEach.{calls_each};
ghost use Rattle.lite_consume.specs.Last.{lasts};
ghost use Rattle.lite_consume.specs.Next.{nexts};
ghost use Rattle.lite_consume.specs.Nth.{nths};
ghost use Rattle.lite_consume.specs.Position.{positions};
ghost use Rattle.lite_consume.specs.Consume.{MayTakeEach};

use crate::blocking::Blocking;
use crate::make::consume;
use crate::{All, Any, Count, Find, FindMap, Fold, Folder, ForEach, Last, Next, Nth, Position};
use lite_base::{Counted, Stream};
use std::alloc::AllocError;
use std::fmt;

/// A stream whose items are waited for on this thread.
///
/// Returned by [`block_on`](crate::make::block_on) and [`block_on_by`](crate::make::block_on_by). Each method blocks
/// the thread until one future over the stream is ready, and leaves the stream in the state in which that future
/// leaves it.
///
/// The type `K` says what the calls wait by. With [`ByRuntime`](crate::ByRuntime) the first method that is called
/// allocates what a wait needs. If that fails, the method returns `Err`, and the stream was not polled. No later
/// call allocates, so no later call returns `Err`. With [`ByWaiter`](crate::ByWaiter) no call does. Unlike that of
/// futures-lite, the type is no `Iterator`, because the first call may fail.
#[derive(Drop)]
pub struct BlockOn<K, S> {
    pub(crate) by: K,
    pub(crate) stream: S,
}

impl<K, S: fmt::Debug> fmt::Debug for BlockOn<K, S> {
    fn fmt<W: fmt::Write>(&self, f: &mut fmt::Formatter<W>) -> fmt::Result {
        f.debug_tuple("BlockOn").field(&self.stream).finish()
    }
}

impl<K: Blocking, S: Stream> BlockOn<K, S> {
    /// Waits for what `folder` makes of the items.
    fn ask<F: Folder<S> + Drop>(&mut self, mut folder: F) -> Result<F::Output, AllocError>
        requires polls { S.can_poll self.old.stream }
        requires counts { F.counts self.old.stream }
        requires open { F.is_open folder }
        requires asks { MayTakeEach S.run F.fold F.can_take self.old.stream folder }
        ensures gave { IfOk result (λ value. BlockGives F.fold S.run self.old.stream folder value self.new.stream) }
        ensures again { S.can_poll self.new.stream }
        ensures unchanged { OnErr result (self.new.stream ≡ self.old.stream) }
        ensures first { OnErr result (K.is_unused self.old.by) }
        ensures used { OnOk result (K.is_unused self.new.by → ⊥) }
    {
        self.by
            .wait_for(&mut consume(&mut self.stream, &mut folder))
    }

    /// Blocks until the stream yields an item, and returns it, or returns `None` at an end.
    ///
    /// It may wait for ever. `Err` means an allocation failure, in the first call only. The caller guarantees
    /// that the stream may be polled.
    ///
    /// # Examples
    ///
    /// ```
    /// use futures_lite::stream;
    ///
    /// let mut seven = stream::block_on(rt, stream::once(7u8));
    /// assert_eq!(rt; seven.next()?, Some(7));
    /// assert_eq!(rt; seven.next()?, None);
    /// ```
    pub fn next(&mut self) -> Result<Option<S::Item>, AllocError>
        requires polls { S.can_poll self.old.stream }
        ensures gave { IfOk result (λ value. BlockGives nexts S.run self.old.stream nothing value self.new.stream) }
        ensures again { S.can_poll self.new.stream }
        ensures unchanged { OnErr result (self.new.stream ≡ self.old.stream) }
        ensures first { OnErr result (K.is_unused self.old.by) }
        ensures used { OnOk result (K.is_unused self.new.by → ⊥) }
    {
        self.ask(Next)
    }

    /// Blocks until the stream yields the item with the index `n`, counted from 0, and returns it.
    ///
    /// It returns `None` if the stream ends before. The items before that one are dropped, so they have to be
    /// `Drop`. It may wait for ever. `Err` means an allocation failure, in the first call only. The caller
    /// guarantees that the stream may be polled.
    ///
    /// # Examples
    ///
    /// ```
    /// use futures_lite::stream;
    ///
    /// let mut numbers = stream::block_on(rt, stream::iter(1u8..4));
    /// assert_eq!(rt; numbers.nth(1)?, Some(2));
    /// assert_eq!(rt; numbers.nth(0)?, Some(3));
    /// assert_eq!(rt; numbers.nth(0)?, None);
    /// ```
    pub fn nth(&mut self, n: usize) -> Result<Option<S::Item>, AllocError>
    where
        S: Stream<Item: Drop>,
        requires polls { S.can_poll self.old.stream }
        ensures gave { IfOk result (λ value. BlockGives nths S.run self.old.stream n value self.new.stream) }
        ensures again { S.can_poll self.new.stream }
        ensures unchanged { OnErr result (self.new.stream ≡ self.old.stream) }
        ensures first { OnErr result (K.is_unused self.old.by) }
        ensures used { OnOk result (K.is_unused self.new.by → ⊥) }
    {
        self.ask(Nth { n })
    }

    /// Blocks until the stream ends, and returns the number of its items, modulo 2^64.
    ///
    /// It drops the items, the stream and what it waits by, so they have to be `Drop`. It may wait for ever. `Err`
    /// means an allocation failure, in the first call only. The stream must be `Counted`, because one poll
    /// may consume many items. The caller guarantees that `ranks.counts` holds for it, and that it may be
    /// polled.
    ///
    /// # Examples
    ///
    /// ```
    /// use futures_lite::stream;
    ///
    /// let numbers = stream::block_on(rt, stream::iter(1u8..4));
    /// assert_eq!(rt; numbers.count()?, 3);
    /// ```
    pub fn count(mut self) -> Result<usize, AllocError>
    where
        K: Drop,
        S: Counted<Item: Drop> + Drop,
        requires polls { S.can_poll self.stream }
        requires counts { S.ranks.counts self.stream }
        ensures gave { IfOk result (λ value. (left : S) × BlockGives counts S.run self.stream 0 value left) }
        ensures first { OnErr result (K.is_unused self.by) }
    {
        self.ask(Count { count: 0 })
    }

    /// Blocks until the stream ends, and returns its last item, or `None` if there is none.
    ///
    /// It drops the other items, the stream and what it waits by, so they have to be `Drop`. It may wait for ever.
    /// `Err` means an allocation failure, in the first call only. The stream must be `Counted`, because one
    /// poll may consume many items. The caller guarantees that `ranks.counts` holds for it, and that it may
    /// be polled.
    ///
    /// # Examples
    ///
    /// ```
    /// use futures_lite::stream;
    ///
    /// let numbers = stream::block_on(rt, stream::iter(1u8..4));
    /// assert_eq!(rt; numbers.last()?, Some(3));
    /// ```
    pub fn last(mut self) -> Result<Option<S::Item>, AllocError>
    where
        K: Drop,
        S: Counted<Item: Drop> + Drop,
        requires polls { S.can_poll self.stream }
        requires counts { S.ranks.counts self.stream }
        ensures gave { IfOk result (λ value. (left : S) × BlockGives lasts S.run self.stream None value left) }
        ensures first { OnErr result (K.is_unused self.by) }
    {
        self.ask(Last { last: None })
    }

    /// Blocks until the stream ends, and returns its items folded into `init` by `f`, one after the other.
    ///
    /// `f`, the accumulator, the stream and what it waits by have to be `Drop`. It may wait for ever. `Err` means
    /// an allocation failure, in the first call only. The stream must be `Counted`, because one poll may
    /// consume many items. The caller guarantees that `ranks.counts` holds for it, that it may be polled, and
    /// that `f` may be called with each item.
    ///
    /// # Examples
    ///
    /// ```
    /// use futures_lite::stream;
    ///
    /// let numbers = stream::block_on(rt, stream::iter(1u32..4));
    /// let digits = numbers.fold(0, |digits: u32, x: u32| digits * 10 + x)?;
    /// assert_eq!(rt; digits, 123);
    /// ```
    pub fn fold<T, F>(mut self, init: T, f: F) -> Result<T, AllocError>
    where
        K: Drop,
        T: Drop,
        S: Counted + Drop,
        F: FnMut(T, S::Item) -> T + Drop,
        requires polls { S.can_poll self.stream }
        requires counts { S.ranks.counts self.stream }
        requires asks { MayTakeEach S.run (folds (CallsBoth F.FnMut)) (MayFold F.FnMut) self.stream (f, Some init) }
        ensures gave { IfOk result
            (λ value. (left : S) × BlockGives (folds (CallsBoth F.FnMut)) S.run self.stream (f, Some init) value left) }
        ensures first { OnErr result (K.is_unused self.by) }
    {
        self.ask(Fold { f, acc: Some(init) })
    }

    /// Blocks until the stream ends, and calls `f` with each item.
    ///
    /// `f`, the stream and what it waits by have to be `Drop`. It may wait for ever. `Err` means an allocation
    /// failure, in the first call only. The stream must be `Counted`, because one poll may consume many
    /// items. The caller guarantees that `ranks.counts` holds for it, that it may be polled, and that `f` may
    /// be called with each item.
    ///
    /// # Examples
    ///
    /// ```
    /// use futures_lite::stream;
    /// use std::cell::Cell;
    ///
    /// let sum = Cell::new(0u8);
    /// let numbers = stream::block_on(rt, stream::iter(1u8..4));
    /// numbers.for_each(|x: u8| sum.set(sum.get() + x))?;
    /// assert_eq!(rt; sum.get(), 6);
    /// ```
    pub fn for_each<F>(mut self, f: F) -> Result<(), AllocError>
    where
        K: Drop,
        S: Counted + Drop,
        F: FnMut(S::Item) + Drop,
        requires polls { S.can_poll self.stream }
        requires counts { S.ranks.counts self.stream }
        requires asks { MayTakeEach S.run (calls_each (Calls F.FnMut)) (MayCall F.FnMut) self.stream f }
        ensures gave { IfOk result
            (λ value. (left : S) × BlockGives (calls_each (Calls F.FnMut)) S.run self.stream f value left) }
        ensures first { OnErr result (K.is_unused self.by) }
    {
        self.ask(ForEach { f })
    }

    /// Blocks until `predicate` returns false for an item, or the stream ends. Returns whether it was true
    /// for each item.
    ///
    /// The stream is left after the item that decided. `predicate` has to be `Drop`. It may wait for ever.
    /// `Err` means an allocation failure, in the first call only. The stream must be `Counted`, because one
    /// poll may consume many items. The caller guarantees that `ranks.counts` holds for it, that it may be
    /// polled, and that `predicate` may be called with each item.
    ///
    /// # Examples
    ///
    /// ```
    /// use futures_lite::stream;
    ///
    /// let mut numbers = stream::block_on(rt, stream::iter(1u8..4));
    /// assert_eq!(rt; numbers.all(|x: u8| x < 2)?, false);
    /// assert_eq!(rt; numbers.next()?, Some(3));
    /// ```
    pub fn all<P>(&mut self, predicate: P) -> Result<bool, AllocError>
    where
        S: Counted,
        P: FnMut(S::Item) -> bool + Drop,
        requires polls { S.can_poll self.old.stream }
        requires counts { S.ranks.counts self.old.stream }
        requires asks { MayTakeEach S.run (all_fold (Calls P.FnMut)) (MayCall P.FnMut) self.old.stream predicate }
        ensures gave { IfOk result
            (λ value. BlockGives (all_fold (Calls P.FnMut)) S.run self.old.stream predicate value self.new.stream) }
        ensures again { S.can_poll self.new.stream }
        ensures unchanged { OnErr result (self.new.stream ≡ self.old.stream) }
        ensures first { OnErr result (K.is_unused self.old.by) }
        ensures used { OnOk result (K.is_unused self.new.by → ⊥) }
    {
        self.ask(All { predicate })
    }

    /// Blocks until `predicate` returns true for an item, or the stream ends. Returns whether it was true for
    /// an item.
    ///
    /// The stream is left after the item that decided. `predicate` has to be `Drop`. It may wait for ever.
    /// `Err` means an allocation failure, in the first call only. The stream must be `Counted`, because one
    /// poll may consume many items. The caller guarantees that `ranks.counts` holds for it, that it may be
    /// polled, and that `predicate` may be called with each item.
    ///
    /// # Examples
    ///
    /// ```
    /// use futures_lite::stream;
    ///
    /// let mut numbers = stream::block_on(rt, stream::iter(1u8..4));
    /// assert_eq!(rt; numbers.any(|x: u8| x == 2)?, true);
    /// assert_eq!(rt; numbers.next()?, Some(3));
    /// ```
    pub fn any<P>(&mut self, predicate: P) -> Result<bool, AllocError>
    where
        S: Counted,
        P: FnMut(S::Item) -> bool + Drop,
        requires polls { S.can_poll self.old.stream }
        requires counts { S.ranks.counts self.old.stream }
        requires asks { MayTakeEach S.run (any_fold (Calls P.FnMut)) (MayCall P.FnMut) self.old.stream predicate }
        ensures gave { IfOk result
            (λ value. BlockGives (any_fold (Calls P.FnMut)) S.run self.old.stream predicate value self.new.stream) }
        ensures again { S.can_poll self.new.stream }
        ensures unchanged { OnErr result (self.new.stream ≡ self.old.stream) }
        ensures first { OnErr result (K.is_unused self.old.by) }
        ensures used { OnOk result (K.is_unused self.new.by → ⊥) }
    {
        self.ask(Any { predicate })
    }

    /// Blocks until `predicate` returns true for an item, and returns that item, or `None` if the stream ends
    /// before.
    ///
    /// The items before that one are dropped, so they have to be `Drop`, and so has `predicate`. The stream
    /// is left after that item. It may wait for ever. `Err` means an allocation failure, in the first call
    /// only. The stream must be `Counted`, because one poll may consume many items. The caller guarantees
    /// that `ranks.counts` holds for it, that it may be polled, and that `predicate` may be called with each
    /// item.
    ///
    /// # Examples
    ///
    /// ```
    /// use futures_lite::stream;
    ///
    /// let mut numbers = stream::block_on(rt, stream::iter(1u8..4));
    /// assert_eq!(rt; numbers.find(|x: &u8| *x % 2 == 0)?, Some(2));
    /// assert_eq!(rt; numbers.find(|x: &u8| *x % 2 == 0)?, None);
    /// ```
    pub fn find<P>(&mut self, predicate: P) -> Result<Option<S::Item>, AllocError>
    where
        S: Counted<Item: Drop>,
        P: FnMut(&S::Item) -> bool + Drop,
        requires polls { S.can_poll self.old.stream }
        requires counts { S.ranks.counts self.old.stream }
        requires asks { MayTakeEach S.run (finds (CalledAt P.FnMut)) (TakesAt P.FnMut) self.old.stream predicate }
        ensures gave { IfOk result
            (λ value. BlockGives (finds (CalledAt P.FnMut)) S.run self.old.stream predicate value self.new.stream) }
        ensures again { S.can_poll self.new.stream }
        ensures unchanged { OnErr result (self.new.stream ≡ self.old.stream) }
        ensures first { OnErr result (K.is_unused self.old.by) }
        ensures used { OnOk result (K.is_unused self.new.by → ⊥) }
    {
        self.ask(Find { predicate })
    }

    /// Blocks until `f` returns `Some(value)` for an item, and returns that, or `None` if the stream ends
    /// before.
    ///
    /// The stream is left after that item. `f` has to be `Drop`. It may wait for ever. `Err` means an
    /// allocation failure, in the first call only. The stream must be `Counted`, because one poll may consume
    /// many items. The caller guarantees that `ranks.counts` holds for it, that it may be polled, and that
    /// `f` may be called with each item.
    ///
    /// # Examples
    ///
    /// ```
    /// use futures_lite::stream;
    ///
    /// let mut numbers = stream::block_on(rt, stream::iter(1u8..4));
    /// let double = numbers.find_map(|x: u8| if x == 2 { Some(x * 2) } else { None });
    /// assert_eq!(rt; double?, Some(4));
    /// assert_eq!(rt; numbers.next()?, Some(3));
    /// ```
    pub fn find_map<F, B>(&mut self, f: F) -> Result<Option<B>, AllocError>
    where
        S: Counted,
        F: FnMut(S::Item) -> Option<B> + Drop,
        requires polls { S.can_poll self.old.stream }
        requires counts { S.ranks.counts self.old.stream }
        requires asks { MayTakeEach S.run (finds_map (Calls F.FnMut)) (MayCall F.FnMut) self.old.stream f }
        ensures gave { IfOk result
            (λ value. BlockGives (finds_map (Calls F.FnMut)) S.run self.old.stream f value self.new.stream) }
        ensures again { S.can_poll self.new.stream }
        ensures unchanged { OnErr result (self.new.stream ≡ self.old.stream) }
        ensures first { OnErr result (K.is_unused self.old.by) }
        ensures used { OnOk result (K.is_unused self.new.by → ⊥) }
    {
        self.ask(FindMap { f })
    }

    /// Blocks until `predicate` returns true for an item, and returns its index, or `None` if the stream ends
    /// before.
    ///
    /// The index counts from 0, at the next item of the stream, and modulo 2^64. The stream is left after
    /// that item. `predicate` has to be `Drop`. It may wait for ever. `Err` means an allocation failure, in
    /// the first call only. The stream must be `Counted`, because one poll may consume many items. The caller
    /// guarantees that `ranks.counts` holds for it, that it may be polled, and that `predicate` may be called
    /// with each item.
    ///
    /// # Examples
    ///
    /// ```
    /// use futures_lite::stream;
    ///
    /// let mut numbers = stream::block_on(rt, stream::iter(1u8..4));
    /// assert_eq!(rt; numbers.position(|x: u8| x == 2)?, Some(1));
    /// assert_eq!(rt; numbers.position(|x: u8| x == 3)?, Some(0));
    /// assert_eq!(rt; numbers.position(|x: u8| x == 4)?, None);
    /// ```
    pub fn position<P>(&mut self, predicate: P) -> Result<Option<usize>, AllocError>
    where
        S: Counted,
        P: FnMut(S::Item) -> bool + Drop,
        requires polls { S.can_poll self.old.stream }
        requires counts { S.ranks.counts self.old.stream }
        requires asks { MayTakeEach S.run (positions (Calls P.FnMut)) (λ p. MayCall P.FnMut p.0) self.old.stream (predicate, 0) }
        ensures gave { IfOk result
            (λ value. BlockGives (positions (Calls P.FnMut)) S.run self.old.stream
            (predicate, 0) value self.new.stream) }
        ensures again { S.can_poll self.new.stream }
        ensures unchanged { OnErr result (self.new.stream ≡ self.old.stream) }
        ensures first { OnErr result (K.is_unused self.old.by) }
        ensures used { OnOk result (K.is_unused self.new.by → ⊥) }
    {
        self.ask(Position {
            predicate,
            index: 0,
        })
    }

    /// Returns the size hint of the stream: bounds on the number of items before its first end.
    ///
    /// # Examples
    ///
    /// ```
    /// use futures_lite::stream;
    ///
    /// let mut numbers = stream::block_on(rt, stream::iter(1u8..4));
    /// assert_eq!(rt; numbers.size_hint(), (3, Some(3)));
    /// assert_eq!(rt; numbers.next()?, Some(1));
    /// assert_eq!(rt; numbers.size_hint(), (2, Some(2)));
    /// ```
    pub fn size_hint(&self) -> (usize, Option<usize>)
        ensures { S.hints self.now.stream result }
    {
        self.stream.size_hint()
    }
}
