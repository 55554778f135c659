//! Written by tools/documents: the functions with clauses in the examples of `futures_lite::io`.
ghost use Rattle.std.specs.Prelude.{◌≡◌, ◌≤◌, ◌+◌, ◌++◌, IfOk, IsOk, Ok, length, map, replicate, string_bytes, take};
ghost use Rattle.std.specs.List.{slice_get};
ghost use Rattle.futures_lite.specs.Lines.{byte_lines, byte_pieces, through_first};
ghost use Rattle.futures_lite.specs.Writers.BufWriter.{unwritten, writer_inner};

use futures_lite::io::{
    AssertAsync, AsyncAsSync, AsyncRead, BlockOn, BufReader, BufWriter, Cursor, empty,
};
use futures_lite::{
    AsyncBufReadExt, AsyncReadExt, AsyncWriteExt, Context, Poll, StreamExt, future, io as bytes_io,
};
use std::alloc::{AllocError, AllocGlobal};
use std::io;
use std::random::RandomSource;
use std::sync::Wait;

pub fn assert_async_get_mut_replaced(bytes: &[u8]) -> usize
    ensures { result ≡ 2 }
{
    let mut reader = AssertAsync::new(bytes);
    *reader.get_mut() = b"hi";
    reader.get_ref().len()
}

pub fn assert_async_get_ref_left(bytes: &[u8]) -> usize
    ensures { result ≡ length bytes.now }
{
    let reader = AssertAsync::new(bytes);
    reader.get_ref().len()
}

pub fn assert_async_into_inner_inner(bytes: Vec<u8>) -> Vec<u8>
    ensures { result ≡ bytes }
{
    AssertAsync::new(bytes).into_inner()
}

pub fn assert_async_new_left(bytes: &[u8]) -> usize
    ensures { result ≡ length bytes.now }
{
    AssertAsync::new(bytes).get_ref().len()
}

pub fn async_as_sync_close_closed(cx: &mut Context<'_>, out: &mut Vec<u8>) -> io::Result<()>
    ensures { out.new.items ≡ out.old.items }
{
    AsyncAsSync::new(cx, out).close()
}

pub fn async_as_sync_new_length(cx: &mut Context<'_>, bytes: &[u8]) -> usize
    ensures { result ≡ length bytes.now }
{
    AsyncAsSync::new(cx, bytes).borrow().len()
}

pub fn async_as_sync_poll_with_left(cx: &mut Context<'_>, bytes: &[u8]) -> io::Result<usize>
    ensures { result ≡ Ok (length bytes.now) }
{
    let mut reader = AsyncAsSync::new(cx, bytes);
    reader.poll_with(|io: &mut &[u8], _cx: &mut Context<'_>| Poll::Ready(Ok(io.len())))
}

pub fn async_buf_read_ext_lines_all_lines<R>(rt: &R, text: &[u8]) -> Result<Vec<String>, AllocError>
where
    R: Wait + RandomSource + AllocGlobal,
    ensures { IfOk result (λ v. map string_bytes v.items ≡ byte_lines text.now) }
{
    let lines = text.lines(rt.alloc());
    let all = lines.try_collect::<String, io::Error, Vec<String>>(rt.alloc());
    future::block_on(rt, all)?.map_err(|_| AllocError)
}

pub fn async_buf_read_ext_read_line_length<R>(
    rt: &R,
    bytes: &[u8],
    line: &mut String,
) -> Result<io::Result<usize>, AllocError>
where
    R: Wait + RandomSource + AllocGlobal,
    ensures { IfOk result (λ r. IfOk r (λ n. n ≡ length (through_first 10 bytes.now))) }
{
    let mut reader = bytes;
    future::wait_for(rt, &mut reader.read_line(line))
}

pub fn async_buf_read_ext_read_until_piece<R>(
    rt: &R,
    bytes: &[u8],
    out: &mut Vec<u8>,
) -> Result<io::Result<usize>, AllocError>
where
    R: Wait + RandomSource + AllocGlobal,
    ensures { IfOk result (λ r. IfOk r (λ n. out.new.items ≡ out.old.items ++ through_first 45 bytes.now)) }
{
    let mut reader = bytes;
    future::wait_for(rt, &mut reader.read_until(b'-', out))
}

pub fn async_buf_read_ext_split_all_pieces<R>(
    rt: &R,
    bytes: &[u8],
) -> Result<Vec<Vec<u8>>, AllocError>
where
    R: Wait + RandomSource + AllocGlobal,
    ensures { IfOk result (λ v. map (λ x. x.items) v.items ≡ byte_pieces 45 bytes.now) }
{
    let pieces = AsyncBufReadExt::split(bytes, rt.alloc(), b'-');
    let all = pieces.try_collect::<Vec<u8>, io::Error, Vec<Vec<u8>>>(rt.alloc());
    future::block_on(rt, all)?.map_err(|_| AllocError)
}

pub fn async_read_ext_bytes_first<R>(
    rt: &R,
    bytes: &[u8],
) -> Result<Option<io::Result<u8>>, AllocError>
where
    R: Wait + RandomSource + AllocGlobal,
    ensures { IfOk result (λ v. v ≡ slice_get (map Ok bytes.now) 0) }
{
    let mut each = AsyncReadExt::bytes(bytes);
    future::block_on(rt, each.next())
}

pub fn async_read_ext_chain_joined<R>(
    rt: &R,
    first: &[u8],
    second: &[u8],
    out: &mut Vec<u8>,
) -> Result<io::Result<usize>, AllocError>
where
    R: Wait + RandomSource + AllocGlobal,
    ensures { IfOk result (λ r. IfOk r (λ n. out.new.items ≡ out.old.items ++ first.now ++ second.now)) }
{
    let mut reader = AsyncReadExt::chain(first, second);
    future::wait_for(rt, &mut reader.read_to_end(out))
}

pub fn async_read_ext_read_some<R>(
    rt: &R,
    bytes: &[u8],
) -> Result<io::Result<(usize, [u8; 8])>, AllocError>
where
    R: Wait + RandomSource + AllocGlobal,
    ensures { IfOk result (λ r. IfOk r (λ v. (v.0 ≤ 8) × (take v.0 v.1 ≡ take v.0 bytes.now))) }
{
    let mut reader = bytes;
    let mut buf = [b'-'; 8];
    match future::wait_for(rt, &mut reader.read(&mut buf))? {
        Ok(n) => Ok(Ok((n, buf))),
        Err(e) => Ok(Err(e)),
    }
}

pub fn async_read_ext_read_exact_front<R>(
    rt: &R,
    bytes: &[u8],
) -> Result<io::Result<[u8; 3]>, AllocError>
where
    R: Wait + RandomSource + AllocGlobal,
    ensures { IfOk result (λ r. IfOk r (λ v. v ≡ take 3 bytes.now)) }
{
    let mut reader = bytes;
    let mut buf = [0; 3];
    match future::wait_for(rt, &mut reader.read_exact(&mut buf))? {
        Ok(()) => Ok(Ok(buf)),
        Err(e) => Ok(Err(e)),
    }
}

pub fn async_read_ext_read_to_end_all<R>(
    rt: &R,
    bytes: &[u8],
    out: &mut Vec<u8>,
) -> Result<io::Result<usize>, AllocError>
where
    R: Wait + RandomSource + AllocGlobal,
    ensures { IfOk result (λ r. IfOk r (λ n. (out.new.items ≡ out.old.items ++ bytes.now) × (n ≡ length bytes.now))) }
{
    let mut reader = bytes;
    future::wait_for(rt, &mut reader.read_to_end(out))
}

pub fn async_read_ext_read_to_string_length<R>(
    rt: &R,
    bytes: &[u8],
    text: &mut String,
) -> Result<io::Result<usize>, AllocError>
where
    R: Wait + RandomSource + AllocGlobal,
    ensures { IfOk result (λ r. IfOk r (λ n. n ≡ length bytes.now)) }
{
    let mut reader = bytes;
    future::wait_for(rt, &mut reader.read_to_string(text))
}

pub fn async_read_ext_take_front<R>(
    rt: &R,
    bytes: &[u8],
    out: &mut Vec<u8>,
) -> Result<io::Result<usize>, AllocError>
where
    R: Wait + RandomSource + AllocGlobal,
    ensures { IfOk result (λ r. IfOk r (λ n. (out.new.items ≡ out.old.items ++ take 3 bytes.now)
        × (n ≡ length (take 3 bytes.now)))) }
{
    let mut reader = AsyncReadExt::take(bytes, 3);
    future::wait_for(rt, &mut reader.read_to_end(out))
}

pub fn async_write_ext_close_closed<R>(
    rt: &R,
    writer: &mut BufWriter<Vec<u8>>,
) -> Result<io::Result<()>, AllocError>
where
    R: Wait + RandomSource + AllocGlobal,
    ensures { IfOk result (λ r. IfOk r (λ _. (writer_inner writer.new).items
        ≡ (writer_inner writer.old).items ++ unwritten writer.old)) }
{
    future::wait_for(rt, &mut writer.close())
}

pub fn async_write_ext_flush_arrived<R>(
    rt: &R,
    bytes: &[u8],
    writer: &mut BufWriter<Vec<u8>>,
) -> Result<io::Result<()>, AllocError>
where
    R: Wait + RandomSource + AllocGlobal,
    ensures { IfOk result (λ r. IfOk r (λ _. (writer_inner writer.new).items
        ≡ ((writer_inner writer.old).items ++ unwritten writer.old) ++ bytes.now)) }
{
    match future::wait_for(rt, &mut writer.write_all(bytes))? {
        Ok(()) => future::wait_for(rt, &mut writer.flush()),
        Err(e) => Ok(Err(e)),
    }
}

pub fn async_write_ext_write_appended<R>(
    rt: &R,
    bytes: &[u8],
    out: &mut Vec<u8>,
) -> Result<io::Result<usize>, AllocError>
where
    R: Wait + RandomSource + AllocGlobal,
    ensures { IfOk result (λ r. IfOk r
        (λ n. (n ≤ length bytes.now) × (out.new.items ≡ out.old.items ++ take n bytes.now))) }
{
    future::wait_for(rt, &mut out.write(bytes))
}

pub fn async_write_ext_write_all_appended<R>(
    rt: &R,
    bytes: &[u8],
    out: &mut Vec<u8>,
) -> Result<io::Result<()>, AllocError>
where
    R: Wait + RandomSource + AllocGlobal,
    ensures { IfOk result (λ r. IfOk r (λ n. out.new.items ≡ out.old.items ++ bytes.now)) }
{
    future::wait_for(rt, &mut out.write_all(bytes))
}

pub fn block_on_get_mut_replaced<R>(rt: &R, bytes: &[u8]) -> usize
where
    R: Wait + RandomSource + AllocGlobal,
    ensures { result ≡ 2 }
{
    let mut reader = BlockOn::new(rt, bytes);
    *reader.get_mut() = b"hi";
    reader.get_ref().len()
}

pub fn block_on_get_ref_left<R>(rt: &R, bytes: &[u8]) -> usize
where
    R: Wait + RandomSource + AllocGlobal,
    ensures { result ≡ length bytes.now }
{
    let reader = BlockOn::new(rt, bytes);
    reader.get_ref().len()
}

pub fn block_on_into_inner_inner<R>(rt: &R, bytes: Vec<u8>) -> Vec<u8>
where
    R: Wait + RandomSource + AllocGlobal,
    ensures { result ≡ bytes }
{
    BlockOn::new(rt, bytes).into_inner()
}

pub fn buf_reader_buffer_buffered<R>(rt: &R, bytes: &[u8]) -> Result<usize, AllocError>
where
    R: AllocGlobal,
    ensures { IfOk result (λ n. n ≡ 0) }
{
    let Ok(reader) = BufReader::new(rt.alloc(), bytes) else {
        return Err(AllocError);
    };
    Ok(reader.buffer().len())
}

pub fn buf_reader_get_mut_replaced<R>(rt: &R, bytes: &[u8]) -> Result<usize, AllocError>
where
    R: AllocGlobal,
    ensures { IfOk result (λ n. n ≡ 2) }
{
    let Ok(mut reader) = BufReader::new(rt.alloc(), bytes) else {
        return Err(AllocError);
    };
    *reader.get_mut() = b"hi";
    Ok(reader.get_ref().len())
}

pub fn buf_reader_get_ref_left<R>(rt: &R, bytes: &[u8]) -> Result<usize, AllocError>
where
    R: AllocGlobal,
    ensures { IfOk result (λ n. n ≡ length bytes.now) }
{
    let Ok(reader) = BufReader::new(rt.alloc(), bytes) else {
        return Err(AllocError);
    };
    Ok(reader.get_ref().len())
}

pub fn buf_reader_into_inner_inner<R>(rt: &R, bytes: Vec<u8>) -> Result<Vec<u8>, AllocError>
where
    R: AllocGlobal,
    ensures { IfOk result (λ v. v ≡ bytes) }
{
    let Ok(reader) = BufReader::new(rt.alloc(), Cursor::new(bytes)) else {
        return Err(AllocError);
    };
    Ok(reader.into_inner().into_inner())
}

pub fn buf_reader_new_left<R>(rt: &R, bytes: &[u8]) -> Result<usize, AllocError>
where
    R: AllocGlobal,
    ensures { IfOk result (λ n. n ≡ length bytes.now) }
{
    let Ok(reader) = BufReader::new(rt.alloc(), bytes) else {
        return Err(AllocError);
    };
    Ok(reader.get_ref().len())
}

pub fn buf_reader_with_capacity_left<R>(rt: &R, bytes: &[u8]) -> Result<usize, AllocError>
where
    R: AllocGlobal,
    ensures { IfOk result (λ n. n ≡ length bytes.now) }
{
    let Ok(reader) = BufReader::with_capacity(rt.alloc(), 1024, bytes) else {
        return Err(AllocError);
    };
    Ok(reader.get_ref().len())
}

pub fn buf_writer_type_through<R>(
    rt: &R,
    bytes: &[u8],
    out: Vec<u8>,
) -> Result<io::Result<Vec<u8>>, AllocError>
where
    R: Wait + RandomSource + AllocGlobal,
    ensures { IfOk result (λ r. IfOk r (λ v. v.items ≡ out.items ++ bytes.now)) }
{
    let Ok(mut writer) = BufWriter::new(rt.alloc(), out) else {
        return Err(AllocError);
    };
    if let Err(e) = future::wait_for(rt, &mut writer.write_all(bytes))? {
        return Ok(Err(e));
    }
    if let Err(e) = future::wait_for(rt, &mut writer.flush())? {
        return Ok(Err(e));
    }
    Ok(Ok(writer.into_inner()))
}

pub fn buf_writer_buffer_buffered<R>(rt: &R, inner: Vec<u8>) -> Result<usize, AllocError>
where
    R: AllocGlobal,
    ensures { IfOk result (λ n. n ≡ 0) }
{
    let Ok(writer) = BufWriter::new(rt.alloc(), inner) else {
        return Err(AllocError);
    };
    Ok(writer.buffer().len())
}

pub fn buf_writer_get_mut_cleared<R>(rt: &R, inner: Vec<u8>) -> Result<usize, AllocError>
where
    R: AllocGlobal,
    ensures { IfOk result (λ n. n ≡ 0) }
{
    let Ok(mut writer) = BufWriter::new(rt.alloc(), inner) else {
        return Err(AllocError);
    };
    writer.get_mut().clear();
    Ok(writer.get_ref().len())
}

pub fn buf_writer_get_ref_kept<R>(rt: &R, inner: Vec<u8>) -> Result<usize, AllocError>
where
    R: AllocGlobal,
    ensures { IfOk result (λ n. n ≡ length inner.items) }
{
    let Ok(writer) = BufWriter::new(rt.alloc(), inner) else {
        return Err(AllocError);
    };
    Ok(writer.get_ref().len())
}

pub fn buf_writer_into_inner_flushed<R>(
    rt: &R,
    bytes: &[u8],
    inner: Vec<u8>,
) -> Result<io::Result<Vec<u8>>, AllocError>
where
    R: Wait + RandomSource + AllocGlobal,
    ensures { IfOk result (λ r. IfOk r (λ v. v.items ≡ inner.items ++ bytes.now)) }
{
    let Ok(mut writer) = BufWriter::new(rt.alloc(), inner) else {
        return Err(AllocError);
    };
    if let Err(e) = future::wait_for(rt, &mut writer.write_all(bytes))? {
        return Ok(Err(e));
    }
    if let Err(e) = future::wait_for(rt, &mut writer.flush())? {
        return Ok(Err(e));
    }
    Ok(Ok(writer.into_inner()))
}

pub fn buf_writer_new_kept<R>(rt: &R, inner: Vec<u8>) -> Result<usize, AllocError>
where
    R: AllocGlobal,
    ensures { IfOk result (λ n. n ≡ length inner.items) }
{
    let Ok(writer) = BufWriter::new(rt.alloc(), inner) else {
        return Err(AllocError);
    };
    Ok(writer.get_ref().len())
}

pub fn buf_writer_with_capacity_kept<R>(rt: &R, inner: Vec<u8>) -> Result<usize, AllocError>
where
    R: AllocGlobal,
    ensures { IfOk result (λ n. n ≡ length inner.items) }
{
    let Ok(writer) = BufWriter::with_capacity(rt.alloc(), 100, inner) else {
        return Err(AllocError);
    };
    Ok(writer.get_ref().len())
}

pub fn chain_get_mut_lengths(first: &[u8], second: &[u8]) -> (usize, usize)
    ensures { result ≡ (length first.now, length second.now) }
{
    let mut reader = AsyncReadExt::chain(first, second);
    let (first, second) = reader.get_mut();
    (first.len(), second.len())
}

pub fn chain_get_ref_left(first: &[u8], second: &[u8]) -> (usize, usize)
    ensures { result ≡ (length first.now, length second.now) }
{
    let reader = AsyncReadExt::chain(first, second);
    let (first, second) = reader.get_ref();
    (first.len(), second.len())
}

pub fn chain_into_inner_inner(first: Vec<u8>, second: Vec<u8>) -> (Vec<u8>, Vec<u8>)
    ensures { result ≡ (first, second) }
{
    let (first, second) = Cursor::new(first).chain(Cursor::new(second)).into_inner();
    (first.into_inner(), second.into_inner())
}

pub fn copy_copied<R>(rt: &R, bytes: &[u8]) -> Result<io::Result<u64>, AllocError>
where
    R: Wait + RandomSource + AllocGlobal,
    ensures { IfOk result (λ r. IfOk r (λ n. n ≡ length bytes.now)) }
{
    let to = Cursor::new(Vec::new(rt.alloc()));
    let Ok(mut copying) = bytes_io::copy(rt.alloc(), bytes, to) else {
        return Err(AllocError);
    };
    future::wait_for(rt, &mut copying)
}

pub fn cursor_get_mut_replaced(bytes: &[u8]) -> usize
    ensures { result ≡ 2 }
{
    let mut cursor = Cursor::new(bytes);
    *cursor.get_mut() = b"hi";
    cursor.get_ref().len()
}

pub fn cursor_get_ref_bytes_in(bytes: &[u8]) -> usize
    ensures { result ≡ length bytes.now }
{
    let cursor = Cursor::new(bytes);
    cursor.get_ref().len()
}

pub fn cursor_into_inner_inner(bytes: Vec<u8>) -> Vec<u8>
    ensures { result ≡ bytes }
{
    Cursor::new(bytes).into_inner()
}

pub fn cursor_new_start(bytes: Vec<u8>) -> u64
    ensures { result ≡ 0 }
{
    Cursor::new(bytes).position()
}

pub fn cursor_position_positions(bytes: &[u8]) -> (u64, u64)
    ensures { result ≡ (0, 2) }
{
    let mut cursor = Cursor::new(bytes);
    let first = cursor.position();
    cursor.set_position(2);
    (first, cursor.position())
}

pub fn cursor_set_position_positions(bytes: &[u8]) -> (u64, u64)
    ensures { result ≡ (0, 2) }
{
    let mut cursor = Cursor::new(bytes);
    let first = cursor.position();
    cursor.set_position(2);
    (first, cursor.position())
}

pub fn empty_nothing<R>(rt: &R, out: &mut Vec<u8>) -> Result<io::Result<usize>, AllocError>
where
    R: Wait + RandomSource + AllocGlobal,
    ensures { IfOk result (λ r. IfOk r (λ n. out.new.items ≡ out.old.items)) }
{
    future::wait_for(rt, &mut empty().read_to_end(out))
}

pub fn repeat_three<R>(rt: &R, byte: u8) -> Result<io::Result<[u8; 3]>, AllocError>
where
    R: Wait + RandomSource + AllocGlobal,
    ensures { IfOk result (λ r. IfOk r (λ v. v ≡ replicate 3 byte)) }
{
    let mut reader = bytes_io::repeat(byte);
    let mut buf = [0; 3];
    match future::wait_for(rt, &mut reader.read_exact(&mut buf))? {
        Ok(()) => Ok(Ok(buf)),
        Err(e) => Ok(Err(e)),
    }
}

pub fn sink_thrown_away<R>(rt: &R, bytes: &[u8]) -> Result<io::Result<()>, AllocError>
where
    R: Wait + RandomSource + AllocGlobal,
    ensures { IfOk result IsOk }
{
    future::wait_for(rt, &mut bytes_io::sink().write_all(bytes))
}

pub fn take_get_mut_replaced(bytes: &[u8]) -> usize
    ensures { result ≡ 2 }
{
    let mut reader = AsyncReadExt::take(bytes, 3);
    *reader.get_mut() = b"hi";
    reader.get_ref().len()
}

pub fn take_get_ref_left(bytes: &[u8]) -> usize
    ensures { result ≡ length bytes.now }
{
    let reader = AsyncReadExt::take(bytes, 3);
    reader.get_ref().len()
}

pub fn take_into_inner_inner(bytes: Vec<u8>) -> Vec<u8>
    ensures { result ≡ bytes }
{
    Cursor::new(bytes).take(3).into_inner().into_inner()
}

pub fn take_limit_limit(bytes: &[u8]) -> u64
    ensures { result ≡ 3 }
{
    AsyncReadExt::take(bytes, 3).limit()
}

pub fn take_set_limit_limits(bytes: &[u8]) -> (u64, u64)
    ensures { result ≡ (10, 3) }
{
    let mut reader = AsyncReadExt::take(bytes, 10);
    let first = reader.limit();
    reader.set_limit(3);
    (first, reader.limit())
}
