//! The first line of a request.
ghost use Rattle.std.specs.Prelude.{◌≡◌, ◌<◌, length, slice_index};
ghost use Rattle.example_redis.specs.Taking.{ReadsRequestFront};

use crate::error::RequestError;
use crate::limits::Limits;
use crate::number::{Number, read_number};

/// The first line of a request: how many words it has, and how many bytes the line has.
#[derive(Clone, Copy)]
pub struct Front {
    pub words: usize,
    pub size: usize,
}

/// Finds the first line of an array at the front of some bytes. `None` says that it is not whole.
pub fn read_front(bytes: &[u8], limits: Limits) -> Result<Option<Front>, RequestError>
    requires some { 0 < length bytes.now }
    requires array { slice_index bytes.now 0 ≡ 42 }
    ensures { ReadsRequestFront limits bytes.now result }
{
    match read_number(&bytes[1..], limits.words) {
        Number::Whole(number, size) => Ok(Some(Front {
            words: number as usize,
            size: size + 1,
        })),
        Number::Large => Err(RequestError::TooManyWords),
        Number::More => Ok(None),
        Number::Malformed => Err(RequestError::Malformed),
    }
}
