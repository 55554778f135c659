//! The number that is the first line of an array or of a word.
ghost use Rattle.std.specs.Prelude.{◌≡◌, ◌≤◌, ◌<◌, ◌^◌, ℕ, decimal, length, slice_index, take};
ghost use Rattle.example_redis.specs.Reading.{ReadsNumber};

/// What stands at the front of some bytes.
#[derive(Clone, Copy)]
pub enum Number {
    /// A number, in a line of so many bytes.
    Whole(u32, usize),
    /// The digits of a number above the limit.
    Large,
    /// The beginning of a number.
    More,
    /// No number.
    Malformed,
}

/// Reads a number and the end of its line. A number has no leading zero.
pub fn read_number(bytes: &[u8], max: u32) -> Number
    ensures { ReadsNumber max bytes.now result }
{
    let mut number: u32 = 0;
    for (index, byte) in bytes.iter().enumerate() {
        if !byte.is_ascii_digit() {
            if *byte == b'\r' && index > 0 {
                return end_line(bytes, number, index, max);
            }
            return Number::Malformed;
        }
        if index > 0 && number == 0 {
            return Number::Malformed;
        }
        let longer = u64::from(number) * 10 + u64::from(*byte - b'0');
        if longer > u64::from(max) {
            return Number::Large;
        }
        number = longer as u32;
    }
    Number::More
}

// Goes on with a number at the carriage return behind its digits.
fn end_line(bytes: &[u8], number: u32, place: usize, max: u32) -> Number
    requires within { place < length bytes.now }
    requires low { number ≤ max }
    requires digits { take place bytes.now ≡ decimal number }
    requires behind { slice_index bytes.now place ≡ 13 }
    ensures { ReadsNumber max bytes.now result }
{
    if place + 1 == bytes.len() {
        return Number::More;
    }
    if bytes[place + 1] != b'\n' {
        return Number::Malformed;
    }
    Number::Whole(number, place + 2)
}
