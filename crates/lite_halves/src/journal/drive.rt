//! A list of calls, made one after the other.
ghost use Rattle.std.specs.Prelude.{◌≡◌, ◌≤◌, ◌<◌, ◌-◌, ◌⊎◌, length, vec_capacity, vec_len, IfNone, IfSome, OnErr};
ghost use Rattle.lite_halves.specs.Uses.{Keeps};
ghost use Rattle.lite_halves.specs.Drive.{AddsOrNone, AsksAt, Drives};
ghost use Rattle.lite_halves.specs.Entry.{Request, asked_in, asked_of, told_in};

use super::Journal;
use crate::answers::{buffer_answer, done_answer, write_answer};
use crate::entry::{Answer, Call};
use lite_base::Context;
use lite_io_base::{AsyncRead, AsyncWrite};
use std::alloc::{AllocError, Global};

impl<T: AsyncRead + AsyncWrite + Clone> Journal<T> {
    /// Makes the calls one after the other, each with its entry, and appends their answers to `out`.
    ///
    /// An error of the stream itself, `OutOfMemory` too, is an answer; the calls continue after it.
    ///
    /// # Errors
    ///
    /// `Err(AllocError)` means that the memory for the next call's entry or answer was refused. The calls
    /// before it are in the journal, and their answers in `out`. The refused call reached neither the stream
    /// nor the journal.
    ///
    /// # Examples
    ///
    /// ```
    /// use futures_lite::io::{Answer, Call, Cursor, Journal};
    /// use futures_lite::{Context, Poll, future};
    /// use std::alloc::AllocError;
    ///
    /// let cursor = Cursor::new(Vec::from_slice(rt.alloc(), b"ab")?);
    /// let Ok(mut journal) = Journal::new(rt.alloc(), cursor) else {
    ///     return Err(AllocError.into());
    /// };
    /// let calls = [Call::Read { room: 1 }, Call::Write(vec![in rt.alloc(); b'x']?), Call::Close];
    /// let mut answers = Vec::new(rt.alloc());
    /// let driven = future::poll_fn(|cx: &mut Context<'_>| {
    ///     Poll::Ready(journal.drive(cx, &calls, &mut answers))
    /// });
    /// future::block_on(&rt, driven)??;
    /// let expected = [Answer::Read(vec![in rt.alloc(); b'a']?), Answer::Wrote(1), Answer::Done];
    /// assert_eq!(rt; answers.as_slice(), expected.as_slice());
    /// assert_eq!(rt; journal.entries().len(), 3);
    /// ```
    pub fn drive(
        &mut self,
        cx: &mut Context<'_>,
        calls: &[Call],
        out: &mut Vec<Answer>,
    ) -> Result<(), AllocError>
        ensures drives { Drives T.reads T.writes self.old (asked_in calls.now) (told_in out.old.items) result self.new
            (told_in out.new.items) }
        ensures refused { OnErr result ((vec_capacity out.new ≤ vec_len out.new)
            ⊎ AsksAt self.new calls.now (vec_len out.new - vec_len out.old)) }
        ensures context { Keeps cx.old cx.new }
    {
        for call in calls {
            out.reserve(1)?;
            let answer = self.make(cx, call).ok_or(AllocError)?;
            out.push_reserved(answer);
        }
        Ok(())
    }

    /// Makes one call, with its entry. `None` means that the memory was refused, and nothing was called.
    fn make(&mut self, cx: &mut Context<'_>, call: &Call) -> Option<Answer>
        ensures made { AddsOrNone T.reads T.writes self.old (asked_of call.now) result self.new }
        ensures context { Keeps cx.old cx.new }
    {
        match call {
            Call::Read { room } => self.make_read(cx, *room),
            Call::Write(bytes) => Some(write_answer(&self.step_write(cx, bytes)?)),
            Call::Flush => Some(done_answer(&self.step_flush(cx)?)),
            Call::Close => Some(done_answer(&self.step_close(cx)?)),
        }
    }

    fn make_read(&mut self, cx: &mut Context<'_>, room: usize) -> Option<Answer>
        ensures made { AddsOrNone T.reads T.writes self.old (Request.room room) result self.new }
        ensures context { Keeps cx.old cx.new }
    {
        let mut buf = zeros(self.alloc, room)?;
        let polled = self.step_read(cx, &mut buf)?;
        Some(buffer_answer(&polled, buf))
    }
}

// Returns `amount` zeros, or `None` if the memory for them was refused.
fn zeros(alloc: Global, amount: usize) -> Option<Vec<u8>>
    ensures some { IfSome result (λ v. length v.items ≡ amount) }
    ensures none { IfNone result (0 < amount) }
{
    let mut zeros = Vec::with_capacity(alloc, amount).ok()?;
    let Ok(()) = zeros.resize(amount, 0) else {
        unreachable!()
    };
    Some(zeros)
}
