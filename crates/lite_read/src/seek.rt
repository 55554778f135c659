ghost use Rattle.lite_read.specs.Uses.{polled_laws, PolledByCalls};
ghost use Rattle.lite_read.specs.Seek.{Seeks};

use lite_base::{Context, Future, Poll};
use lite_io_base::AsyncSeek;
use std::io;
use std::io::SeekFrom;

/// A future that seeks once.
///
/// Returned by [`seek`](crate::make::seek). Each poll seeks once. The value is the new position, in bytes
/// from the start, or the error of the seek.
#[derive(Debug, Drop)]
pub struct SeekFuture<'a, S> {
    pub(crate) seeker: &'a mut S,
    pub(crate) pos: SeekFrom,
}

impl<S: AsyncSeek> Future for SeekFuture<'_, S> {
    type Output = io::Result<u64>;

    ghost run = { PolledByCalls (Seeks S.seeks) };

    ghost registers = { λ x. S.seek_registers x.seeker.now };

    ghost laws = { polled_laws (Seeks S.seeks) (λ x y c h. tt) };

    fn poll(&mut self, cx: &mut Context<'_>) -> Poll<io::Result<u64>> {
        self.seeker.poll_seek(cx, self.pos)
    }
}
