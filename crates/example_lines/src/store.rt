//! What the server keeps.
ghost use Rattle.std.specs.Prelude.{◌≡◌, ◌<◌, ◌^◌, OnErr, OnOk};
ghost use Rattle.std.specs.Option.{is_some, option_map};
ghost use Rattle.example_lines.specs.Store.{stored, no_keys, with_value, without_key};

mod service;

use std::alloc::{AllocError, Global};
use std::collections::BTreeMap;

/// Values, each at its key.
#[derive(Drop)]
pub struct Store {
    alloc: Global,
    values: BTreeMap<Vec<u8>, Vec<u8>>,
}

impl Store {
    /// Returns a store that holds no value.
    pub fn new(alloc: Global) -> Store
        ensures { stored result ≡ no_keys }
    {
        Store {
            alloc,
            values: BTreeMap::new(alloc),
        }
    }

    /// Returns how many values are held.
    pub fn len(&self) -> usize
        ensures size { result ≡ (stored self.now).count }
        ensures small { result < 2 ^ 63 }
    {
        self.values.len()
    }

    /// Returns the value at a key.
    pub fn get(&self, key: &[u8]) -> Option<&[u8]>
        ensures { option_map (λ value. value.now) result ≡ (stored self.now).at key.now }
    {
        self.values.get(key).map(|value| value.as_slice())
    }

    /// Holds a value at a key, in place of the value that was there.
    ///
    /// # Errors
    ///
    /// An allocation failed; what is kept stays as it was.
    pub fn set(&mut self, key: &[u8], value: &[u8]) -> Result<(), AllocError>
        ensures set { OnOk result (stored self.new ≡ with_value (stored self.old) key.now value.now) }
        ensures err { OnErr result (stored self.new ≡ stored self.old) }
    {
        let key = Vec::from_slice(self.alloc, key)?;
        let value = Vec::from_slice(self.alloc, value)?;
        self.values.insert(key, value)?;
        Ok(())
    }

    /// Drops the value at a key. Returns whether there was one.
    pub fn delete(&mut self, key: &[u8]) -> bool
        ensures was { result ≡ is_some ((stored self.old).at key.now) }
        ensures gone { stored self.new ≡ without_key (stored self.old) key.now }
    {
        self.values.remove(key).is_some()
    }
}
