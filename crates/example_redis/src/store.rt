//! What the server holds.
ghost use Rattle.std.specs.Prelude.{◌≡◌, ◌<◌, ◌≤◌, ◌^◌, IfOk, MatchOption, OnErr, false, true};
ghost use Rattle.std.specs.Option.{is_some, option_map};
ghost use Rattle.example_redis.specs.Store.{fits, held, no_values, put, refusing, without};

use std::alloc::{AllocError, Global};
use std::collections::BTreeMap;

/// What an entry takes beside the bytes of its key and its value: two vectors, and what the allocator and the map add.
const ENTRY: usize = 96;

/// Values, each at its key.
#[derive(Drop)]
pub struct Store {
    alloc: Global,
    values: BTreeMap<Vec<u8>, Vec<u8>>,
    // How many bytes the entries count as, and how many they may.
    bytes: usize,
    limit: usize,
    // Whether a transaction is refused, up to its end.
    refuses: bool,
}

impl Store {
    /// Returns a store that holds no value. All keys and values may have `limit` bytes, each entry with 96 bytes more.
    pub fn new(alloc: Global, limit: usize) -> Store
        ensures { held result ≡ no_values limit }
    {
        Store {
            alloc,
            values: BTreeMap::new(alloc),
            bytes: 0,
            limit,
            refuses: false,
        }
    }

    /// Returns the allocator of the store.
    pub fn alloc(&self) -> Global {
        self.alloc
    }

    /// Returns how many values are held.
    pub fn len(&self) -> usize
        ensures size { result ≡ (held self.now).size }
        ensures small { result < 2 ^ 63 }
    {
        self.values.len()
    }

    /// Returns the value at a key.
    pub fn get(&self, key: &[u8]) -> Option<&[u8]>
        ensures { option_map (λ value. value.now) result ≡ (held self.now).at key.now }
    {
        self.values.get(key).map(|value| value.as_slice())
    }

    /// Returns whether a transaction is refused, up to its end.
    pub fn refuses(&self) -> bool
        ensures { result ≡ (held self.now).refuses }
    {
        self.refuses
    }

    /// Says whether a transaction is refused from now on.
    pub fn set_refusing(&mut self, refuses: bool)
        ensures { held self.new ≡ refusing (held self.old) refuses }
    {
        self.refuses = refuses;
    }

    /// Holds a value at a key, in place of the value that was there, if there is room. Returns whether there was.
    ///
    /// There is room if all keys and values then have no more bytes than the limit, each entry with 96 bytes more.
    ///
    /// # Errors
    ///
    /// An allocation failed; what is held stays as it was.
    pub fn set(&mut self, key: &[u8], value: &[u8]) -> Result<bool, AllocError>
        ensures room { IfOk result (λ room. room ≡ fits (put (held self.old) key.now value.now)) }
        ensures set { IfOk result (λ room. room ≡ true → held self.new ≡ put (held self.old) key.now value.now) }
        ensures full { IfOk result (λ room. room ≡ false → held self.new ≡ held self.old) }
        ensures err { OnErr result (held self.new ≡ held self.old) }
    {
        let Some(bytes) = self.bytes_with(key, value) else {
            return Ok(false);
        };
        let key = Vec::from_slice(self.alloc, key)?;
        let value = Vec::from_slice(self.alloc, value)?;
        self.values.insert(key, value)?;
        self.bytes = bytes;
        Ok(true)
    }

    // Returns how many bytes are held with a value at a key. `None` says that they are too many.
    fn bytes_with(&self, key: &[u8], value: &[u8]) -> Option<usize>
        ensures { MatchOption result (fits (put (held self.now) key.now value.now) ≡ false)
            (λ n. (n ≡ (put (held self.now) key.now value.now).bytes) × (fits (put (held self.now) key.now value.now) ≡ true)) }
    {
        let limit = self.limit;
        let bytes = self
            .bytes_without(key)
            .checked_add(ENTRY)?
            .checked_add(key.len())?
            .checked_add(value.len())?;
        if bytes > limit {
            return None;
        }
        Some(bytes)
    }

    // Returns how many bytes are held without a value at a key.
    fn bytes_without(&self, key: &[u8]) -> usize
        ensures { result ≡ (without (held self.now) key.now).bytes }
    {
        match self.get(key) {
            Some(value) => self
                .bytes
                .saturating_sub(ENTRY)
                .saturating_sub(key.len())
                .saturating_sub(value.len()),
            None => self.bytes,
        }
    }

    /// Drops the value at a key. Returns whether there was one.
    pub fn delete(&mut self, key: &[u8]) -> bool
        ensures was { result ≡ is_some ((held self.old).at key.now) }
        ensures gone { held self.new ≡ without (held self.old) key.now }
    {
        let bytes = self.bytes_without(key);
        let removed = self.values.remove(key);
        self.bytes = bytes;
        removed.is_some()
    }
}
