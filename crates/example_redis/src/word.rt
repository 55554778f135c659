//! A word of a request: a bulk string.
ghost use Rattle.std.specs.Prelude.{◌≡◌, ◌+◌, ◌<◌, ◌++◌, ◌∷◌, ◌^◌, drop, length};
ghost use Rattle.example_redis.specs.Bytes.{number_line};
ghost use Rattle.example_redis.specs.Reading.{EndsWord, ReadsWord};

use crate::error::RequestError;
use crate::limits::Limits;
use crate::number::{Number, read_number};

/// Where the bytes of a word are.
#[derive(Clone, Copy)]
pub struct Place {
    pub start: usize,
    pub len: usize,
}

/// Finds the word at the front of some bytes. `None` says that it is not whole.
pub fn read_word(bytes: &[u8], limits: Limits, room: usize) -> Result<Option<Place>, RequestError>
    ensures { ReadsWord limits room bytes.now result }
{
    if bytes.is_empty() {
        return Ok(None);
    }
    if bytes[0] != b'$' {
        return Err(RequestError::Malformed);
    }
    match read_number(&bytes[1..], limits.word) {
        Number::Whole(number, size) => {
            let place = Place {
                start: size + 1,
                len: number as usize,
            };
            if place.start + place.len + 2 > room {
                return Err(RequestError::LongRequest);
            }
            end_word(bytes, place)
        }
        Number::Large => Err(RequestError::LongWord),
        Number::More => Ok(None),
        Number::Malformed => Err(RequestError::Malformed),
    }
}

// Looks for the end of a line behind a word.
fn end_word(bytes: &[u8], place: Place) -> Result<Option<Place>, RequestError>
    requires line { bytes.now ≡ 36 ∷ (number_line place.len ++ drop place.start bytes.now) }
    requires start { place.start ≡ length (number_line place.len) + 1 }
    requires small { place.len < 2 ^ 32 }
    ensures { EndsWord place bytes.now result }
{
    let end = place.start + place.len;
    if bytes.len() <= end {
        return Ok(None);
    }
    if bytes[end] != b'\r' {
        return Err(RequestError::Malformed);
    }
    if bytes.len() == end + 1 {
        return Ok(None);
    }
    if bytes[end + 1] != b'\n' {
        return Err(RequestError::Malformed);
    }
    Ok(Some(place))
}
