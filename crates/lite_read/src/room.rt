//! How much room is made for a read.
ghost use Rattle.std.specs.Prelude.{◌≡◌, ◌≤◌, ◌<◌, ◌*◌, length, max, take, vec_capacity, OnErr, OnOk};

use std::alloc::{AllocError, Allocator};

/// How many bytes the first read has room for.
pub(crate) const FIRST_ROOM: usize = 32;

/// Returns how much room is made next, after a read of `read` bytes: twice as many, if it filled its room and
/// if that is more than before.
pub(crate) fn next_room(room: usize, read: usize, is_full: bool) -> usize
    ensures least { room ≤ result }
    ensures most { result ≤ max room (2 * read) }
{
    if is_full {
        room.max(read.saturating_mul(2))
    } else {
        room
    }
}

/// Extends `bytes` with zeros to the length `len`. It returns `Err` if memory is refused; the bytes are
/// unchanged then.
#[inline(always)]
pub(crate) fn add_zeros<A: Allocator>(bytes: &mut Vec<u8, A>, len: usize) -> Result<(), AllocError>
    requires { length bytes.old.items ≤ len }
    ensures front { take (length bytes.old.items) bytes.new.items ≡ bytes.old.items }
    ensures ok { OnOk result (length bytes.new.items ≡ len) }
    ensures err { OnErr result (bytes.new.items ≡ bytes.old.items) }
    ensures full { OnErr result (vec_capacity bytes.old < len) }
    ensures room { vec_capacity bytes.old ≤ vec_capacity bytes.new }
{
    bytes.resize(len, 0)
}
