ghost use Rattle.std.specs.Prelude.{◌≡◌, ◌≤◌, ◌+◌, length, string_bytes, string_capacity, string_len};
ghost use Rattle.std.specs.Char.{encode_utf8};
ghost use Rattle.std.specs.List.{flat_map};

use crate::gather::Gather;
use std::alloc::Allocator;

/// Characters go to the end.
impl<A: Allocator> Gather<char> for String<A> {
    type Alloc = A;

    ghost holds = { λ c l. string_bytes c ≡ flat_map encode_utf8 l };

    ghost has_room = { λ c item. string_len c + length (encode_utf8 item) ≤ string_capacity c };

    ghost unallocated = { λ c. string_capacity c ≡ 0 };

    fn empty(alloc: A) -> String<A> {
        // `String::new` doesn't tell the capacity. A capacity of 0 is never refused.
        String::with_capacity(alloc, 0).unwrap()
    }

    fn take_in(&mut self, item: char) -> Result<(), char> {
        match self.push(item) {
            Ok(()) => Ok(()),
            Err(_error) => Err(item),
        }
    }
}
