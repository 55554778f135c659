ghost use Rattle.std.specs.Prelude.{◌≡◌, ◌≤◌, ◌⊎◌, ◌++◌, ◌∷◌, [], Ok, Err, length, IfOk, MatchResult};
ghost use Rattle.futures.specs.Poll.{IfReady};
ghost use Rattle.futures.specs.Task.{Keeps};
ghost use Rattle.lite_io_base.specs.Marks.{by_kind};
ghost use Rattle.lite_io_base.specs.WriteMarks.{done_marks, write_marks};
ghost use Rattle.lite_io_base.specs.WriteMarks.WriteMark.{closed, flushed};
ghost use Rattle.lite_io_base.specs.Runs.{Idle};
ghost use Rattle.lite_io_base.specs.Laws.Runs.{idle_laws};
ghost use Rattle.lite_mock.specs.SteadyTakes.{NoPendingOrder};
ghost use Rattle.lite_mock.specs.Laws.SteadyTakes.{takes_calm, takes_steady};
ghost use Rattle.lite_base.specs.Registered.{Registered};

use lite_base::{Context, Poll};
use lite_io_base::{AsyncWrite, CalmWrite, ReadSpec, SteadyWrite, WriteSpec};
use std::alloc::{AllocError, Global};
use std::io;
use std::io::ErrorKind;
use std::marker::Model;

/// What one write to a [`Takes`] is to do.
#[derive(Clone, Copy)]
pub enum Order {
    /// Take at most so many bytes.
    AtMost(usize),
    /// Be pending, and ask for another poll.
    Wait,
    /// Answer an error of this kind.
    Fail(ErrorKind),
}

/// A writer whose writes follow orders, one each, and which takes all that is offered once no order is left. Its flush
/// and its close answer `Ok`. A contract sees the orders that are left and the bytes that were taken.
///
/// A write that finds no memory for the bytes answers an error of the kind `OutOfMemory`; it uses up no order and
/// takes nothing. The original has no such type.
#[derive(Clone, Drop)]
pub struct Takes {
    orders: Vec<Order>,
    // How many were followed.
    next: usize,
    taken: Vec<u8>,
}

impl Model for Takes {
    ghost use Rattle.std.specs.Prelude.{drop, ◌≤◌, length};
    ghost use Rattle.lite_mock.specs.Takes.{Orders};

    ghost Value = { Orders };

    ghost view = { λ t. record { orders = drop t.next t.orders.items; taken = t.taken.items } };

    ghost invariant = { λ t. t.next ≤ length t.orders.items };
}

impl Takes {
    ghost use Rattle.lite_mock.specs.Takes.{Orders};

    /// A writer that takes all.
    pub fn new(alloc: Global) -> Takes
        ensures orders { result.orders ≡ [] }
        ensures taken { result.taken ≡ [] }
    {
        Takes {
            orders: Vec::new(alloc),
            next: 0,
            taken: Vec::new(alloc),
        }
    }

    /// Adds an order after those that are there already. `AllocError` says that there was no memory; nothing changes
    /// then.
    pub fn order(&mut self, order: Order) -> Result<(), AllocError>
        ensures { MatchResult result (λ _. self.new ≡ record self.old { orders = self.old.orders ++ order ∷ [] })
            (λ _. self.new ≡ self.old) }
    {
        self.orders.push(order)?;
        Ok(())
    }

    /// The bytes that were taken.
    pub fn taken(&self) -> &[u8]
        ensures { result.now ≡ self.now.taken }
    {
        self.taken.as_slice()
    }
}

impl WriteSpec for Takes {
    ghost use Rattle.lite_mock.specs.Takes.{AllObey, ObeysOrder};
    ghost use Rattle.lite_io_base.specs.Laws.Runs.{steps_laws};

    ghost writes = { AllObey };

    ghost write_laws = { steps_laws ObeysOrder };
}

// It is not read from.
impl ReadSpec for Takes {
    ghost reads = { Idle };

    ghost read_laws = { idle_laws };
}

impl AsyncWrite for Takes {
    ghost use Rattle.lite_mock.specs.Takes.{AllObey, answer_of};

    fn poll_write(&mut self, cx: &mut Context<'_>, buf: &[u8]) -> Poll<io::Result<usize>>
        ensures bound { IfReady result (λ r. IfOk r (λ n. n ≤ length buf.now)) }
        ensures ran { AllObey self.old (write_marks result buf.now) self.new }
        ensures order { (by_kind result ≡ answer_of self.old.orders buf.now)
            ⊎ (by_kind result ≡ Poll.Ready (Err ErrorKind.OutOfMemory)) }
        ensures registered { Registered result (λ _. ⊥) cx.new }
        ensures context { Keeps cx.old cx.new }
    {
        let order = self.orders.get(self.next).copied();
        let most = match order {
            None => buf.len(),
            Some(Order::AtMost(n)) => n.min(buf.len()),
            Some(Order::Wait) => {
                self.next += 1;
                return cx.yield_now();
            }
            Some(Order::Fail(kind)) => {
                self.next += 1;
                return Poll::Ready(Err(io::Error::from(kind)));
            }
        };
        if let Err(e) = self.taken.extend_from_slice(&buf[..most]) {
            return Poll::Ready(Err(io::Error::from(e)));
        }
        if order.is_some() {
            self.next += 1;
        }
        Poll::Ready(Ok(most))
    }

    fn poll_flush(&mut self, _cx: &mut Context<'_>) -> Poll<io::Result<()>>
        ensures ran { AllObey self.old (done_marks flushed result) self.new }
        ensures done { result ≡ Poll.Ready (Ok tt) }
        ensures registered { Registered result (λ _. ⊥) _cx.new }
        ensures context { Keeps _cx.old _cx.new }
    {
        // What was taken is in place already.
        Poll::Ready(Ok(()))
    }

    fn poll_close(&mut self, _cx: &mut Context<'_>) -> Poll<io::Result<()>>
        ensures ran { AllObey self.old (done_marks closed result) self.new }
        ensures done { result ≡ Poll.Ready (Ok tt) }
        ensures registered { Registered result (λ _. ⊥) _cx.new }
        ensures context { Keeps _cx.old _cx.new }
    {
        // It can be written to as before.
        Poll::Ready(Ok(()))
    }
}

// Two that took the same.
impl SteadyWrite for Takes {
    ghost alike = { λ x y. x.taken ≡ y.taken };

    ghost below = { λ x. x.taken };

    ghost steady = { takes_steady };
}

impl CalmWrite for Takes {
    ghost is_calm = { λ x. NoPendingOrder x.orders };

    ghost calm = { takes_calm };
}
