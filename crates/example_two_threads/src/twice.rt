//! What each thread does.
use futures_lite::future::block_on;
use futures_lite::{AsyncRead, AsyncReadExt, AsyncWrite, AsyncWriteExt};
use std::alloc::AllocGlobal;
use std::io;
use std::random::RandomSource;
use std::sync::Wait;

/// Two reads of two bytes.
pub(crate) fn read_twice<R, S>(rt: &R, reader: &mut S) -> io::Result<()>
where
    R: Wait + RandomSource + AllocGlobal,
    S: AsyncRead,
{
    let mut two = [0u8; 2];
    block_on(rt, reader.read(&mut two))??;
    block_on(rt, reader.read(&mut two))??;
    Ok(())
}

/// Two writes of one byte.
pub(crate) fn write_twice<R, S>(rt: &R, writer: &mut S) -> io::Result<()>
where
    R: Wait + RandomSource + AllocGlobal,
    S: AsyncWrite,
{
    block_on(rt, writer.write(b"y"))??;
    block_on(rt, writer.write(b"z"))??;
    Ok(())
}
