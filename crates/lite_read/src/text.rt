//! Bytes that become text.
ghost use Rattle.std.specs.Prelude.{◌≡◌, ◌≤◌, ◌<◌, ◌+◌, ◌++◌, [], true, length, vec_capacity, IfErr, IfOk, IsUtf8, OnErr, OnOk};
ghost use Rattle.lite_read.specs.Uses.{is_ascii, error_kind, list_all, OutOfMemory, without_return};
ghost use Rattle.lite_read.specs.Pieces.{AtEnd};
ghost use Rattle.lite_read.specs.Texts.{IsText};

use simdutf8::basic::from_utf8;
use std::alloc::{AllocError, Global};
use std::io::ErrorKind;
use std::{io, mem};

const RETURN: u8 = b'\r';

/// The bytes of a line so far, and whether they are all ASCII.
#[derive(Debug, Drop)]
pub(crate) struct LineBytes {
    bytes: Vec<u8>,
    ascii: bool,
    ghost known: { ascii ≡ list_all is_ascii bytes.items },
}

impl LineBytes {
    pub(crate) fn new(alloc: Global) -> LineBytes
        ensures { result.bytes.items ≡ [] }
    {
        LineBytes {
            bytes: Vec::new(alloc),
            ascii: true,
        }
    }

    // Makes room for just so many bytes.
    pub(crate) fn reserve_exact(&mut self, amount: usize) -> Result<(), AllocError>
        ensures items { self.new.bytes.items ≡ self.old.bytes.items }
        ensures ok { OnOk result (length self.old.bytes.items + amount ≤ vec_capacity self.new.bytes) }
        ensures full { OnErr result (vec_capacity self.old.bytes < length self.old.bytes.items + amount) }
        ensures room { vec_capacity self.old.bytes ≤ vec_capacity self.new.bytes }
    {
        self.bytes.reserve_exact(amount)
    }

    // Adds a piece, of which it is known whether it is ASCII.
    #[tactic(auto, using(crate::proofs::Texts::ascii_more))]
    pub(crate) fn append(&mut self, piece: &[u8], ascii: bool) -> Result<(), AllocError>
        requires { ascii ≡ list_all is_ascii piece.now }
        ensures ok { OnOk result (self.new.bytes.items ≡ self.old.bytes.items ++ piece.now) }
        ensures err { OnErr result (self.new.bytes.items ≡ self.old.bytes.items) }
        ensures full { OnErr result (vec_capacity self.old.bytes < length self.old.bytes.items + length piece.now) }
        ensures room { vec_capacity self.old.bytes ≤ vec_capacity self.new.bytes }
    {
        self.bytes.extend_from_slice(piece)?;
        self.ascii &= ascii;
        Ok(())
    }

    // The text of a line that ended at a newline. Nothing is held then.
    #[tactic(auto, using(crate::proofs::Texts::line_utf8))]
    pub(crate) fn whole(&mut self, alloc: Global) -> io::Result<String>
        ensures text { IsText (without_return self.old.bytes.items) result }
        ensures empty { self.new.bytes.items ≡ [] }
    {
        let LineBytes { mut bytes, ascii } = mem::replace(self, LineBytes::new(alloc));
        drop_return(&mut bytes);
        text_of(bytes, ascii)
    }

    // Returns the text of a last line without a newline, if there is one. Nothing is held then.
    #[tactic(auto, using(crate::proofs::Texts::all_utf8))]
    pub(crate) fn last(&mut self, alloc: Global) -> Option<io::Result<String>>
        ensures text { AtEnd IsText self.old.bytes.items result }
        ensures empty { self.new.bytes.items ≡ [] }
    {
        if self.bytes.is_empty() {
            return None;
        }
        let LineBytes { bytes, ascii } = mem::replace(self, LineBytes::new(alloc));
        Some(text_of(bytes, ascii))
    }
}

// Drops a return at the end.
fn drop_return(bytes: &mut Vec<u8>)
    ensures { bytes.new.items ≡ without_return bytes.old.items }
{
    let amount = bytes.len();
    if amount > 0 && bytes[amount - 1] == RETURN {
        bytes.truncate(amount - 1);
    }
}

// The text of some bytes. Those that are known as ASCII are not checked.
#[inline(always)]
fn text_of(bytes: Vec<u8>, ascii: bool) -> io::Result<String>
    requires { ascii ≡ true → IsUtf8 bytes.items }
    ensures { IsText bytes.items result }
{
    if !ascii {
        if let Err(_) = from_utf8(&bytes) {
            return Err(io::Error::new(
                ErrorKind::InvalidData,
                "stream did not contain valid UTF-8",
            ));
        }
    }
    Ok(unsafe { String::from_utf8_unchecked(bytes) })
}
