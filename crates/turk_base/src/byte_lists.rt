//! The calls of Bytes.
ghost use Rattle.std.specs.Prelude.{◌≡◌, [], ◌∷◌, ◌++◌, length, IfOk, OnErr};

use crate::{Bytes, NoMemory};
use std::alloc::Global;

impl Bytes {
    /// The empty list.
    pub fn new(alloc: Global) -> Bytes
        ensures { result ≡ [] }
    {
        Bytes {
            items: Vec::new(alloc),
        }
    }

    /// The list of these items, without taking memory.
    pub fn from_vec(items: Vec<u8>) -> Bytes
        ensures { result ≡ items.items }
    {
        Bytes { items }
    }

    /// A list of the same items.
    pub fn from_slice(alloc: Global, items: &[u8]) -> Result<Bytes, NoMemory>
        ensures { IfOk result (λ made. made ≡ items.now) }
    {
        match Vec::from_slice(alloc, items) {
            Ok(items) => Ok(Bytes { items }),
            Err(_) => Err(NoMemory),
        }
    }

    /// The items, without taking memory.
    pub fn into_vec(self) -> Vec<u8>
        ensures { result.items ≡ self }
    {
        self.items
    }

    /// How many items.
    pub fn len(&self) -> usize
        ensures { result ≡ length self.now }
    {
        self.items.len()
    }

    /// The items.
    pub fn as_slice(&self) -> &[u8]
        ensures { result.now ≡ self.now }
    {
        self.items.as_slice()
    }

    /// Adds one byte at the end. After a refusal the list is as before.
    pub fn push(&mut self, item: u8) -> Result<(), NoMemory>
        ensures ok { IfOk result (λ _. self.new ≡ self.old ++ item ∷ []) }
        ensures err { OnErr result (self.new ≡ self.old) }
    {
        match self.items.push(item) {
            Ok(()) => Ok(()),
            Err(_) => Err(NoMemory),
        }
    }

    /// Adds items at the end. After a refusal the list is as before.
    pub fn push_slice(&mut self, items: &[u8]) -> Result<(), NoMemory>
        ensures ok { IfOk result (λ _. self.new ≡ self.old ++ items.now) }
        ensures err { OnErr result (self.new ≡ self.old) }
    {
        match self.items.extend_from_slice(items) {
            Ok(()) => Ok(()),
            Err(_) => Err(NoMemory),
        }
    }

    /// Adds another list at the end. After a refusal the list is as before.
    pub fn append(&mut self, other: &Bytes) -> Result<(), NoMemory>
        ensures ok { IfOk result (λ _. self.new ≡ self.old ++ other.now) }
        ensures err { OnErr result (self.new ≡ self.old) }
    {
        self.push_slice(other.as_slice())
    }

    /// An equal list.
    pub fn copy(&self, alloc: Global) -> Result<Bytes, NoMemory>
        ensures { IfOk result (λ copy. copy ≡ self.now) }
    {
        Bytes::from_slice(alloc, self.as_slice())
    }
}
