//! Blocking waits for one call of a reader or a writer. Their contracts follow from those of the traits
//! alone. They say which events the reader produced, or which bytes the writer accepted.
ghost use Rattle.std.specs.Prelude.{◌≡◌, ◌≤◌, ◌-◌, ◌++◌, [], ℕ, List, Ok, IfErr, IfOk, IsOk, length, take, vec_capacity};
ghost use Rattle.lite_theorems.specs.Uses.{Ready, ReadMark, read_marks, WriteMark, bytes_taken, FlushedUp, HandedUp, TakesFront};
ghost use Rattle.lite_theorems.specs.Uses.{FillsUp, PieceTold, PieceWithin, ToldStripped, VectorLacksRoom};

use lite_base::future::Waiter;
use lite_buffered::make::take;
use lite_io_base::{AsyncBufRead, AsyncRead, AsyncWrite, CountedRead};
use lite_read::make::{read, read_exact, read_until};
use lite_write::make::{flush, write_all};
use std::alloc::AllocError;
use std::io;
use std::sync::Wait;

/// Blocks this thread, by `on`, until one read into `buf` is done, and returns its value.
///
/// The value is that of [`read`]. The reader produced the events of that value, and pendings. If its rank
/// counted before, it counts after the call, by the lemma `told_counts`. The call may wait forever. The
/// outer result is always `Ok`.
///
/// # Examples
///
/// ```
/// use futures_lite::future::BlockOn;
/// use futures_lite::io::wait_read;
///
/// let mut on = BlockOn::new(&rt)?;
/// let mut reader = b"abc".as_slice();
/// let mut buf = [0u8; 2];
/// assert_eq!(rt; wait_read(&mut on, &rt, &mut reader, &mut buf)??, 2);
/// assert_eq!(rt; buf, *b"ab");
/// assert_eq!(rt; wait_read(&mut on, &rt, &mut reader, &mut buf)??, 1);
/// ```
#[inline(always)]
pub fn wait_read<R: Wait, W: Waiter, T: AsyncRead>(
    on: &mut W,
    rt: &R,
    reader: &mut T,
    buf: &mut [u8],
) -> Result<io::Result<usize>, AllocError>
    ensures told { (l : List ReadMark) × ToldStripped T.reads reader.old l reader.new
        × IfOk result (λ v. l ≡ read_marks (Ready v) buf.new) × IfErr result (λ _. l ≡ []) }
    ensures room { length buf.new ≡ length buf.old }
    ensures bound { IfOk result (λ v. IfOk v (λ n. n ≤ length buf.new)) }
    ensures waited { IsOk result }
{
    Ok(on.wait(rt, &mut read(reader, buf)))
}

/// Blocks this thread, by `on`, until `buf` is full, and returns the value.
///
/// The value is that of [`read_exact`]. If it is `Ok`, the reader produced exactly the bytes of the buffer.
/// Otherwise it produced fewer, which are at the front of the buffer, and then an end of file or the error.
/// If its rank counted before, it counts after the call, by the lemma `told_counts`. The call may wait for
/// ever. The outer result is always `Ok`.
///
/// # Examples
///
/// ```
/// use futures_lite::future::BlockOn;
/// use futures_lite::io::wait_read_exact;
/// use std::io::ErrorKind;
///
/// let mut on = BlockOn::new(&rt)?;
/// let mut reader = b"abc".as_slice();
/// let mut buf = [0u8; 2];
/// wait_read_exact(&mut on, &rt, &mut reader, &mut buf)??;
/// assert_eq!(rt; buf, *b"ab");
///
/// let short = wait_read_exact(&mut on, &rt, &mut reader, &mut buf)?;
/// assert_eq!(rt; short.map_err(|e| e.kind()), Err(ErrorKind::UnexpectedEof));
/// ```
#[inline(always)]
pub fn wait_read_exact<R: Wait, W: Waiter, T: AsyncRead>(
    on: &mut W,
    rt: &R,
    reader: &mut T,
    buf: &mut [u8],
) -> Result<io::Result<()>, AllocError>
    ensures told { (l : List ReadMark) × ToldStripped T.reads reader.old l reader.new
        × IfOk result (λ v. FillsUp buf.new l v) × IfErr result (λ _. l ≡ []) }
    ensures room { length buf.new ≡ length buf.old }
    ensures waited { IsOk result }
{
    Ok(on.wait(rt, &mut read_exact(reader, buf)))
}

/// Blocks this thread, by `on`, until a piece that ends in `byte`, or at an end of file, was appended to
/// `buf`.
///
/// The value is that of [`read_until`]. The reader produced exactly the bytes that were appended, and then
/// the end of file or the error, if there was one. An allocation fails only if the vector lacked room
/// (`VectorLacksRoom`). The call may wait forever. The outer result is always `Ok`. The caller guarantees
/// that `ranks.counts` holds for the reader.
///
/// # Examples
///
/// ```
/// use futures_lite::future::BlockOn;
/// use futures_lite::io::wait_read_until;
///
/// let mut on = BlockOn::new(&rt)?;
/// let mut reader = b"ab\nc".as_slice();
/// let mut piece = Vec::new(rt.alloc());
/// assert_eq!(rt; wait_read_until(&mut on, &rt, &mut reader, b'\n', &mut piece)??, 3);
/// assert_eq!(rt; wait_read_until(&mut on, &rt, &mut reader, b'\n', &mut piece)??, 1);
/// assert_eq!(rt; piece.as_slice(), b"ab\nc".as_slice());
/// ```
#[inline(always)]
pub fn wait_read_until<R: Wait, W: Waiter, T: AsyncBufRead + CountedRead>(
    on: &mut W,
    rt: &R,
    reader: &mut T,
    byte: u8,
    buf: &mut Vec<u8>,
) -> Result<io::Result<usize>, AllocError>
    requires { T.ranks.counts reader.old }
    ensures told { (l : List ReadMark) × (xs : List ℕ) × ToldStripped T.reads reader.old l reader.new
        × (buf.new.items ≡ buf.old.items ++ xs)
        × IfOk result (λ v. PieceTold (VectorLacksRoom byte (vec_capacity buf.old) buf.new.items (T.buffer_of reader.new)) byte xs l v)
        × IfErr result (λ _. (l ≡ []) × (xs ≡ [])) }
    ensures again { T.ranks.counts reader.new }
    ensures waited { IsOk result }
{
    Ok(read_until_by(on, rt, reader, byte, buf))
}

// As `wait_read_until`, without the `Ok`.
pub(crate) fn read_until_by<R: Wait, W: Waiter, T: AsyncBufRead + CountedRead>(
    waits: &mut W,
    rt: &R,
    reader: &mut T,
    byte: u8,
    buf: &mut Vec<u8>,
) -> io::Result<usize>
    requires { T.ranks.counts reader.old }
    ensures told { (l : List ReadMark) × (xs : List ℕ) × ToldStripped T.reads reader.old l reader.new
        × (buf.new.items ≡ buf.old.items ++ xs)
        × PieceTold (VectorLacksRoom byte (vec_capacity buf.old) buf.new.items (T.buffer_of reader.new)) byte xs l result }
    ensures again { T.ranks.counts reader.new }
{
    waits.wait(rt, &mut read_until(reader, byte, buf))
}

/// Blocks this thread, by `on`, until a piece that ends in `byte`, or `limit` bytes without it, or those before
/// an end of file were appended to `buf`. It returns how many were appended.
///
/// So a peer cannot fill the memory with one endless line. A piece is whole if the last of the appended bytes
/// is `byte`. If it is not and `limit` bytes were appended, the piece was cut behind them, and the rest was
/// not consumed; only at end of file is there no rest. If fewer were appended, the reader is at end of file.
/// With a `limit` of 0 the call returns `Ok(Ok(0))` and does not poll the reader. Otherwise the call is as
/// [`wait_read_until`]. It may wait forever; `framed::LineDelimited` limits lines without blocking. The outer
/// result is always `Ok`. The caller guarantees that `ranks.counts` holds for the reader.
///
/// # Examples
///
/// ```
/// use futures_lite::future::BlockOn;
/// use futures_lite::io::wait_read_until_limited;
///
/// let mut on = BlockOn::new(&rt)?;
/// let mut reader = b"ab\nlonger\n".as_slice();
/// let mut line = Vec::new(rt.alloc());
/// assert_eq!(rt; wait_read_until_limited(&mut on, &rt, &mut reader, b'\n', 4, &mut line)??, 3);
/// assert_eq!(rt; line.as_slice(), b"ab\n".as_slice());
///
/// line.clear();
/// assert_eq!(rt; wait_read_until_limited(&mut on, &rt, &mut reader, b'\n', 4, &mut line)??, 4);
/// assert_eq!(rt; line.as_slice(), b"long".as_slice());
/// assert_eq!(rt; reader, b"er\n".as_slice());
/// ```
#[inline(always)]
pub fn wait_read_until_limited<R: Wait, W: Waiter, T: AsyncBufRead + CountedRead>(
    on: &mut W,
    rt: &R,
    reader: &mut T,
    byte: u8,
    limit: u64,
    buf: &mut Vec<u8>,
) -> Result<io::Result<usize>, AllocError>
    requires { T.ranks.counts reader.old }
    ensures told { (l : List ReadMark) × (xs : List ℕ) × ToldStripped T.reads reader.old l reader.new
        × (buf.new.items ≡ buf.old.items ++ xs)
        × IfOk result (λ v. PieceWithin (VectorLacksRoom byte (vec_capacity buf.old) buf.new.items
        (take (limit - length xs) (T.buffer_of reader.new))) limit byte xs l v)
        × IfErr result (λ _. (l ≡ []) × (xs ≡ [])) }
    ensures again { T.ranks.counts reader.new }
    ensures waited { IsOk result }
{
    wait_read_until(on, rt, &mut take(reader, limit), byte, buf)
}

/// Blocks this thread, by `on`, until the writer has accepted all of `bytes`, and returns the value.
///
/// The value is that of [`write_all`]. If it is `Ok`, the writer accepted exactly these bytes. Otherwise it
/// accepted a prefix of them, and then returned the error. The call may wait forever. The outer result is
/// always `Ok`.
///
/// # Examples
///
/// ```
/// use futures_lite::future::BlockOn;
/// use futures_lite::io::wait_write_all;
///
/// let mut on = BlockOn::new(&rt)?;
/// let mut written = Vec::new(rt.alloc());
/// wait_write_all(&mut on, &rt, &mut written, b"ab")??;
/// wait_write_all(&mut on, &rt, &mut written, b"c")??;
/// assert_eq!(rt; written.as_slice(), b"abc".as_slice());
/// ```
#[inline(always)]
pub fn wait_write_all<R: Wait, W: Waiter, T: AsyncWrite>(
    on: &mut W,
    rt: &R,
    writer: &mut T,
    bytes: &[u8],
) -> Result<io::Result<()>, AllocError>
    ensures took { (took : List WriteMark) × TakesFront T.writes writer.old bytes.now took writer.new
        × IfOk result (λ v. HandedUp bytes.now took v) × IfErr result (λ _. took ≡ []) }
    ensures waited { IsOk result }
{
    Ok(write_all_by(on, rt, writer, bytes))
}

// As `wait_write_all`, without the `Ok`.
pub(crate) fn write_all_by<R: Wait, W: Waiter, T: AsyncWrite>(
    waits: &mut W,
    rt: &R,
    writer: &mut T,
    bytes: &[u8],
) -> io::Result<()>
    ensures { (took : List WriteMark) × TakesFront T.writes writer.old bytes.now took writer.new
        × HandedUp bytes.now took result }
{
    waits.wait(rt, &mut write_all(writer, bytes))
}

/// Blocks this thread, by `on`, until the writer was flushed, and returns the value.
///
/// The value is that of [`flush`]. The writer accepts no byte. The call may wait forever. The outer result
/// is always `Ok`.
///
/// # Examples
///
/// ```
/// use futures_lite::future::BlockOn;
/// use futures_lite::io::BufWriter;
/// use futures_lite::io::{wait_flush, wait_write_all};
///
/// let mut on = BlockOn::new(&rt)?;
/// let mut written = Vec::new(rt.alloc());
/// let Ok(mut writer) = BufWriter::new(rt.alloc(), &mut written) else {
///     return Err(Fail::from("no memory"));
/// };
/// wait_write_all(&mut on, &rt, &mut writer, b"abc")??;
/// wait_flush(&mut on, &rt, &mut writer)??;
/// drop(writer);
/// assert_eq!(rt; written.as_slice(), b"abc".as_slice());
/// ```
#[inline(always)]
pub fn wait_flush<R: Wait, W: Waiter, T: AsyncWrite>(
    on: &mut W,
    rt: &R,
    writer: &mut T,
) -> Result<io::Result<()>, AllocError>
    ensures took { (took : List WriteMark) × T.writes writer.old took writer.new × (bytes_taken took ≡ [])
        × IfOk result (λ v. FlushedUp took v) × IfErr result (λ _. took ≡ []) }
    ensures waited { IsOk result }
{
    Ok(flush_by(on, rt, writer))
}

// As `wait_flush`, without the `Ok`.
pub(crate) fn flush_by<R: Wait, W: Waiter, T: AsyncWrite>(
    waits: &mut W,
    rt: &R,
    writer: &mut T,
) -> io::Result<()>
    ensures { (took : List WriteMark) × T.writes writer.old took writer.new × (bytes_taken took ≡ []) × FlushedUp took result }
{
    waits.wait(rt, &mut flush(writer))
}
