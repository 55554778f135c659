ghost use Rattle.lite_bridge.specs.Uses.{PolledByCalls};
ghost use Rattle.lite_base.specs.Laws.FutureLaws.{polled_laws};
ghost use Rattle.lite_bridge.specs.Filling.{FillsLent};

use lite_base::{Context, Future, Poll};
use lite_io_base::{AsyncBufRead, fill};
use std::io;

/// A future that fills the buffer of a reader and returns no slice of it, so that it can be borrowed
/// afterwards.
#[derive(Drop)]
pub(crate) struct Filling<'a, T> {
    pub(crate) io: &'a mut T,
}

impl<T: AsyncBufRead> Future for Filling<'_, T> {
    type Output = io::Result<()>;

    ghost run = { PolledByCalls (FillsLent T.reads T.buffer_of) };

    ghost registers = { λ x. T.registers x.io.now };

    ghost laws = { polled_laws (FillsLent T.reads T.buffer_of) (λ x y c h. tt) };

    fn poll(&mut self, cx: &mut Context<'_>) -> Poll<io::Result<()>> {
        fill(self.io, cx)
    }
}
