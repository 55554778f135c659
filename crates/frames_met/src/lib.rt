//! Contracts that say which properties a stream of frames and a server of them have, by reader and writer: whether it counts,
//! is firm, calm or armed, which two are alike, and what a `Pending` has registered.
#![tactic(auto)]

ghost use Rattle.framed.specs.FrameErrors.{SaysOutOfMemory};
ghost use Rattle.framed.specs.Frames.{reading};
ghost use Rattle.framed.specs.declared.frame_error.FrameError.{FrameError};
ghost use Rattle.futures.specs.Poll.{OnPending};
ghost use Rattle.futures.specs.Task.{IsArmed, Lasting};
ghost use Rattle.std.specs.Prelude.{◌≡◌};

use framed::{FramedRead, LengthDelimited, LineDelimited, PromptDecoder, SteadyDecoder};
use lent_frames::Cutter;
use lite_base::future::poll_armed;
use lite_base::{CalmFuture, CalmStream, Context, OkCounted, Poll, SteadyStream, Stream};
use lite_io_base::{
    ArmedRead, ArmedWrite, AsyncBufRead, CalmRead, CalmWrite, CountedRead, SteadyRead,
};
use serving::{Responder, Serving, ServingError};

/// Frames count over a firm reader, and then they are firm too.
pub fn frames_count<T, D>(frames: &FramedRead<T, D>)
where
    T: AsyncBufRead + CountedRead,
    D: PromptDecoder,
    ensures counts { T.ranks.firm frames.now.reader → ⟦<FramedRead<T, D> as OkCounted>⟧.ok_ranks.counts frames.now }
    ensures firm { T.ranks.firm frames.now.reader → ⟦<FramedRead<T, D> as OkCounted>⟧.ok_ranks.firm frames.now }
{}

/// Frames of a calm reader are calm. A `Pending` has registered what that of the reader has.
pub fn frames_wait<T, D>(frames: &FramedRead<T, D>)
where
    T: AsyncBufRead + CountedRead + CalmRead,
    D: PromptDecoder,
    ensures calm { T.is_calm frames.now.reader → ⟦<FramedRead<T, D> as CalmStream>⟧.is_calm frames.now }
    ensures tells { (fact : Lasting) → T.registers frames.now.reader fact
        → ⟦<FramedRead<T, D> as Stream>⟧.registers frames.now fact }
{}

/// Frames of readers that are alike are alike, if their decoders are equal and neither has read anything yet, or both hold the
/// same bytes.
pub fn frames_are_alike<T, D>(x: &FramedRead<T, D>, y: &FramedRead<T, D>)
where
    T: AsyncBufRead + CountedRead + SteadyRead,
    D: SteadyDecoder,
    requires alike { T.alike x.now.reader y.now.reader }
    requires decoders { x.now.decoder ≡ y.now.decoder }
    requires held { x.now.held ≡ y.now.held }
    requires reading { (x.now.phase ≡ reading) × (y.now.phase ≡ reading) }
    ensures { ⟦<FramedRead<T, D> as SteadyStream>⟧.alike x.now y.now }
{}

/// Steady decoders: each error that says that memory was refused is of the kind `OutOfMemory`, so that other runs are ample.
pub fn decoders_lack_memory(codec: &LengthDelimited, lines: &LineDelimited)
    ensures delimited { (e : FrameError) → ⟦<LengthDelimited as SteadyDecoder>⟧.lacks e → SaysOutOfMemory e }
    ensures lines { (e : FrameError) → ⟦<LineDelimited as SteadyDecoder>⟧.lacks e → SaysOutOfMemory e }
{}

/// A server of a calm reader and a calm writer is calm.
pub fn servers_wait<T, C, O, S>(serving: &Serving<T, C, O, S>)
where
    T: AsyncBufRead + CountedRead + CalmRead,
    C: Cutter,
    O: CalmWrite,
    S: Responder<Error = C::Error>,
    ensures { T.is_calm serving.now.requests.reader → O.is_calm serving.now.replies
        → ⟦<Serving<T, C, O, S> as CalmFuture>⟧.is_calm serving.now }
{}

/// Polls a server once. If it is pending over an armed reader and an armed writer, its task may be parked.
pub fn poll_armed_server<T, C, O, S>(
    serving: &mut Serving<T, C, O, S>,
    cx: &mut Context<'_>,
) -> Poll<Result<(), ServingError<C::Error>>>
where
    T: AsyncBufRead + CountedRead + ArmedRead,
    C: Cutter,
    O: ArmedWrite,
    S: Responder<Error = C::Error>,
    requires { T.ranks.counts serving.old.requests.reader }
    ensures { OnPending result (IsArmed cx.new) }
{
    poll_armed(serving, cx)
}
