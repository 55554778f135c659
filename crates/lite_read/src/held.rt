//! Bytes that are read for a text. The text has room for them all, or is empty, so they are added to it
//! without allocating.
ghost use Rattle.std.specs.Prelude.{◌≡◌, ◌≤◌, ◌<◌, ◌++◌, [], ◌+◌, true, length, take, IfErr, IfOk, IsUtf8, MatchBool, OnErr, OnOk, string_bytes};
ghost use Rattle.std.specs.Prelude.{string_capacity, string_len, vec_capacity};
ghost use Rattle.lite_read.specs.Uses.{error_kind, OutOfMemory};
ghost use Rattle.lite_io_base.specs.Marks.{bytes as read_bytes};
ghost use Rattle.lite_read.specs.Holding.{CanTakeIn, HasRoomFor, room_for};
ghost use Rattle.lite_read.specs.Texts.{AppendsText, ValueOf};

use crate::room::add_zeros;
use lite_io_base::AsyncBufRead;
use simdutf8::basic::from_utf8;
use std::alloc::{AllocError, Allocator};
use std::io::ErrorKind;
use std::{io, mem, str};

/// Adds the first `amount` bytes of the buffer of `reader` to `bytes`, and consumes them. It returns `Err` if
/// memory is refused. Nothing but capacities changes then.
pub(crate) fn take_in<R: AsyncBufRead, A: Allocator + Copy>(
    reader: &mut R,
    amount: usize,
    text: &mut String<A>,
    bytes: &mut Vec<u8, A>,
) -> io::Result<()>
    requires has_room { HasRoomFor text.old bytes.old }
    requires within { amount ≤ length (R.buffer_of reader.old) }
    ensures has_room { HasRoomFor text.new bytes.new }
    ensures text { string_bytes text.new ≡ string_bytes text.old }
    ensures ok { IfOk result (λ u. bytes.new.items ≡ bytes.old.items ++ take amount (R.buffer_of reader.old)) }
    ensures taken { IfOk result (λ u. R.reads reader.old (read_bytes (take amount (R.buffer_of reader.old))) reader.new) }
    ensures refused { IfErr result (λ e. error_kind e ≡ OutOfMemory) }
    ensures full { IfErr result (λ e. room_for text.old bytes.old < length bytes.old.items + amount) }
    ensures room { room_for text.old bytes.old ≤ room_for text.new bytes.new }
    ensures unread { IfErr result (λ e. reader.new ≡ reader.old) }
    ensures unchanged { IfErr result (λ e. bytes.new.items ≡ bytes.old.items) }
{
    hold(text, bytes, &reader.buffer()[..amount])?;
    reader.consume(amount);
    Ok(())
}

/// Appends the first `amount` bytes of the buffer of `reader` to the text, and consumes them. It returns `Err`
/// if memory is refused. Nothing but the capacity of the text changes then.
pub(crate) fn take_text<R: AsyncBufRead, A: Allocator>(
    reader: &mut R,
    amount: usize,
    text: &mut String<A>,
) -> io::Result<()>
    requires within { amount ≤ length (R.buffer_of reader.old) }
    requires utf8 { IsUtf8 (take amount (R.buffer_of reader.old)) }
    ensures ok { IfOk result (λ u. string_bytes text.new ≡ string_bytes text.old ++ take amount (R.buffer_of reader.old)) }
    ensures taken { IfOk result (λ u. R.reads reader.old (read_bytes (take amount (R.buffer_of reader.old))) reader.new) }
    ensures refused { IfErr result (λ e. error_kind e ≡ OutOfMemory) }
    ensures full { IfErr result (λ e. string_capacity text.old < string_len text.old + amount) }
    ensures unread { IfErr result (λ e. reader.new ≡ reader.old) }
    ensures unchanged { IfErr result (λ e. string_bytes text.new ≡ string_bytes text.old) }
{
    append_text(text, &reader.buffer()[..amount])?;
    reader.consume(amount);
    Ok(())
}

/// Returns whether the first `amount` bytes of the buffer of `reader` are UTF-8. If `known` says that they
/// are, it does not check them.
pub(crate) fn lends_text<R: AsyncBufRead>(reader: &R, amount: usize, known: bool) -> bool
    requires within { amount ≤ length (R.buffer_of reader.now) }
    requires known { known ≡ true → IsUtf8 (take amount (R.buffer_of reader.now)) }
    ensures { result ≡ true → IsUtf8 (take amount (R.buffer_of reader.now)) }
{
    known || is_utf8(&reader.buffer()[..amount])
}

// Adds a piece. `Err` says that memory was refused; the bytes stay then.
fn hold<A: Allocator + Copy>(
    text: &mut String<A>,
    bytes: &mut Vec<u8, A>,
    piece: &[u8],
) -> Result<(), AllocError>
    requires { HasRoomFor text.old bytes.old }
    ensures has_room { HasRoomFor text.new bytes.new }
    ensures text { string_bytes text.new ≡ string_bytes text.old }
    ensures ok { OnOk result (bytes.new.items ≡ bytes.old.items ++ piece.now) }
    ensures err { OnErr result (bytes.new.items ≡ bytes.old.items) }
    ensures full { OnErr result (room_for text.old bytes.old < length bytes.old.items + length piece.now) }
    ensures room { room_for text.old bytes.old ≤ room_for text.new bytes.new }
{
    prepare(text, bytes, bytes.len() + piece.len())?;
    bytes.extend_from_slice(piece)
}

/// Extends `bytes` to the length `len`. It returns `Err` if memory is refused; the bytes are unchanged then.
pub(crate) fn make_room<A: Allocator + Copy>(
    text: &mut String<A>,
    bytes: &mut Vec<u8, A>,
    len: usize,
) -> Result<(), AllocError>
    requires has_room { HasRoomFor text.old bytes.old }
    requires more { length bytes.old.items ≤ len }
    ensures has_room { HasRoomFor text.new bytes.new }
    ensures text { string_bytes text.new ≡ string_bytes text.old }
    ensures front { take (length bytes.old.items) bytes.new.items ≡ bytes.old.items }
    ensures ok { OnOk result (length bytes.new.items ≡ len) }
    ensures err { OnErr result (bytes.new.items ≡ bytes.old.items) }
    ensures full { OnErr result (room_for text.old bytes.old < len) }
    ensures room { room_for text.old bytes.old ≤ room_for text.new bytes.new }
{
    prepare(text, bytes, len)?;
    add_zeros(bytes, len)
}

// Makes room for `len` bytes in the text. An empty text hands its memory to the bytes instead, and takes
// theirs over later.
fn prepare<A: Allocator + Copy>(
    text: &mut String<A>,
    bytes: &mut Vec<u8, A>,
    len: usize,
) -> Result<(), AllocError>
    requires { HasRoomFor text.old bytes.old }
    ensures has_room { HasRoomFor text.new bytes.new }
    ensures room { OnOk result (CanTakeIn text.new len) }
    ensures text { string_bytes text.new ≡ string_bytes text.old }
    ensures bytes { bytes.new.items ≡ bytes.old.items }
    ensures full { OnErr result (room_for text.old bytes.old < len) }
    ensures within { OnOk result (room_for text.old bytes.old ≤ vec_capacity bytes.new) }
    ensures grows { room_for text.old bytes.old ≤ room_for text.new bytes.new }
{
    if !text.is_empty() {
        return text.reserve(len);
    }
    take_memory(text, bytes);
    Ok(())
}

// An empty text gives its memory for the first bytes, if that is more than they have.
#[inline(always)]
fn take_memory<A: Allocator + Copy>(text: &mut String<A>, bytes: &mut Vec<u8, A>)
    requires { string_len text.old ≡ 0 }
    ensures text { string_len text.new ≡ 0 }
    ensures bytes { bytes.new.items ≡ bytes.old.items }
    ensures room { room_for text.old bytes.old ≤ vec_capacity bytes.new }
{
    if bytes.is_empty() && bytes.capacity() < text.capacity() {
        let alloc = *text.allocator();
        *bytes = mem::replace(text, String::new(alloc)).into_bytes();
    }
}

/// Returns the value of the future, given what reading returned. It moves the bytes to the text if they are
/// UTF-8, and drops them if not. If `known` says that they are UTF-8, it does not check them.
pub(crate) fn finish<A: Allocator + Copy>(
    text: &mut String<A>,
    bytes: &mut Vec<u8, A>,
    read: io::Result<usize>,
    known: bool,
) -> io::Result<usize>
    requires has_room { HasRoomFor text.old bytes.old }
    requires known { known ≡ true → IsUtf8 bytes.old.items }
    ensures has_room { HasRoomFor text.new bytes.new }
    ensures value { ValueOf bytes.old.items read result }
    ensures gains { AppendsText bytes.old.items (string_bytes text.old) (string_bytes text.new) }
    ensures empty { bytes.new.items ≡ [] }
{
    let added = add_text(text, bytes, known);
    bytes.clear();
    if added {
        return read;
    }
    match read {
        Ok(_) => Err(io::Error::new(ErrorKind::InvalidData, "stream did not contain valid UTF-8")),
        Err(e) => Err(e),
    }
}

// Adds the bytes to the text if they are UTF-8, and returns whether they are. An empty text takes over their
// memory.
fn add_text<A: Allocator + Copy>(text: &mut String<A>, bytes: &mut Vec<u8, A>, known: bool) -> bool
    requires has_room { HasRoomFor text.old bytes.old }
    requires known { known ≡ true → IsUtf8 bytes.old.items }
    ensures gains { AppendsText bytes.old.items (string_bytes text.old) (string_bytes text.new) }
    ensures value { MatchBool result (IsUtf8 bytes.old.items) (¬ IsUtf8 bytes.old.items) }
{
    if !known && !is_utf8(bytes) {
        return false;
    }
    if text.is_empty() {
        let alloc = *text.allocator();
        *text = unsafe { String::from_utf8_unchecked(mem::replace(bytes, Vec::new(alloc))) };
    } else {
        let appended = append_text(text, bytes);
        prove!(appended.is_ok());
    }
    true
}

// Adds bytes that are UTF-8. `Err` says that memory was refused; the text stays then.
fn append_text<A: Allocator>(text: &mut String<A>, bytes: &[u8]) -> Result<(), AllocError>
    requires { IsUtf8 bytes.now }
    ensures ok { OnOk result (string_bytes text.new ≡ string_bytes text.old ++ bytes.now) }
    ensures err { OnErr result (string_bytes text.new ≡ string_bytes text.old) }
    ensures full { OnErr result (string_capacity text.old < string_len text.old + length bytes.now) }
{
    text.push_str(unsafe { str::from_utf8_unchecked(bytes) })
}

fn is_utf8(bytes: &[u8]) -> bool
    ensures { MatchBool result (IsUtf8 bytes.now) (¬ IsUtf8 bytes.now) }
{
    from_utf8(bytes).is_ok()
}
