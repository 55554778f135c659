ghost use Rattle.std.specs.Prelude.{◌≡◌, ◌++◌, [], ℕ, List, IfErr, IfOk, length, vec_capacity};
ghost use Rattle.lite_theorems.specs.BothReaders.{BothRead, LacksNext, ReadsUp};

use lite_base::future::block_on::BlockOn;
use lite_io_base::{CountedRead, SteadyRead};
use lite_read::make::read_to_end;
use std::alloc::{AllocError, AllocGlobal};
use std::io;
use std::random::RandomSource;
use std::sync::Wait;

/// Blocks this thread until two readers, one after the other, were read up to an end of file or an error.
///
/// The bytes of each are appended to a list of its own. The caller guarantees that the two are alike, as
/// [`SteadyRead`] defines it, and that `ranks.counts` holds for each. Then both lists get the same bytes,
/// also those before an error, unless memory was refused. The two values are the same too; errors are
/// compared by their kinds.
///
/// The values are those of [`read_to_end`]: how many bytes were appended, or the reader's error. An error of
/// the kind `OutOfMemory` that is not the reader's means that there was no memory for more bytes. That comes
/// only if the vector lacked room for its bytes and a largest next read (`LacksNext`). The call may wait for ever. Each reader can be read again
/// afterwards.
///
/// `AllocError` means that what the thread sleeps on could not be allocated. Then the second reader was not
/// read, and the first either not at all or up to its value.
///
/// # Examples
///
/// ```
/// use futures_lite::{io, laws};
///
/// let Ok(mut small) = io::BufReader::with_capacity(rt.alloc(), 2, b"abcde".as_slice()) else {
///     return Err(Fail::from("no memory"));
/// };
/// let Ok(mut large) = io::BufReader::new(rt.alloc(), b"abcde".as_slice()) else {
///     return Err(Fail::from("no memory"));
/// };
/// let (mut first, mut second) = (Vec::new(rt.alloc()), Vec::new(rt.alloc()));
/// let values = laws::read_both(&rt, &mut small, &mut large, &mut first, &mut second)?;
/// assert_eq!(rt; (values.0?, values.1?), (5, 5));
/// assert_eq!(rt; first.as_slice(), b"abcde".as_slice());
/// assert_eq!(rt; second.as_slice(), b"abcde".as_slice());
/// ```
pub fn read_both<R, T>(
    rt: &R,
    x: &mut T,
    y: &mut T,
    out: &mut Vec<u8>,
    out_more: &mut Vec<u8>,
) -> Result<(io::Result<usize>, io::Result<usize>), AllocError>
where
    R: Wait + RandomSource + AllocGlobal,
    T: SteadyRead + CountedRead,
    requires first { T.ranks.counts x.old }
    requires second { T.ranks.counts y.old }
    requires alike { T.alike x.old y.old }
    ensures agree { (xs ys : List ℕ) × (out.new.items ≡ out.old.items ++ xs) × (out_more.new.items ≡ out_more.old.items ++ ys)
        × IfOk result (λ values. BothRead T.reads T.ample T.needs_none
        (LacksNext (vec_capacity out.old) out.new.items (length xs))
        (LacksNext (vec_capacity out_more.old) out_more.new.items (length ys))
        x.old xs values.0 x.new y.old ys values.1 y.new)
        × IfErr result (λ _. (ys ≡ []) × (y.new ≡ y.old)) }
    ensures again { T.ranks.counts x.new × T.ranks.counts y.new }
{
    let mut on = BlockOn::new(rt)?;
    let first = read_up(&mut on, rt, x, out)?;
    let second = read_up(&mut on, rt, y, out_more)?;
    Ok((first, second))
}

// Waits until the reader was read up to a value.
fn read_up<R: Wait, T: CountedRead>(
    on: &mut BlockOn,
    rt: &R,
    reader: &mut T,
    out: &mut Vec<u8>,
) -> Result<io::Result<usize>, AllocError>
    requires { T.ranks.counts reader.old }
    ensures read { (xs : List ℕ) × (out.new.items ≡ out.old.items ++ xs)
        × IfOk result (λ v. ReadsUp (LacksNext (vec_capacity out.old) out.new.items (length xs)) T.reads reader.old xs v reader.new)
        × IfErr result (λ _. (xs ≡ []) × (reader.new ≡ reader.old)) }
    ensures again { T.ranks.counts reader.new }
{
    on.wait_for(rt, &mut read_to_end(reader, out))
}
