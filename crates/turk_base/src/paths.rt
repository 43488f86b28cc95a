//! The calls of Path.
ghost use Rattle.std.specs.Prelude.{◌≡◌, [], ◌∷◌, ◌++◌, length, IfOk, OnErr};
ghost use Rattle.turk_base.specs.Trace.{begins};

use crate::{NoMemory, Path};
use std::alloc::Global;

impl Path {
    /// The empty path.
    pub fn new(alloc: Global) -> Path
        ensures { result ≡ [] }
    {
        Path {
            items: Vec::new(alloc),
        }
    }

    /// The path of these items, without taking memory.
    pub fn from_vec(items: Vec<u32>) -> Path
        ensures { result ≡ items.items }
    {
        Path { items }
    }

    /// A path of the same items.
    pub fn from_slice(alloc: Global, items: &[u32]) -> Result<Path, NoMemory>
        ensures { IfOk result (λ made. made ≡ items.now) }
    {
        match Vec::from_slice(alloc, items) {
            Ok(items) => Ok(Path { items }),
            Err(_) => Err(NoMemory),
        }
    }

    /// The items, without taking memory.
    pub fn into_vec(self) -> Vec<u32>
        ensures { result.items ≡ self }
    {
        self.items
    }

    /// How many items.
    pub fn len(&self) -> usize
        ensures { result ≡ length self.now }
    {
        self.items.len()
    }

    /// The items.
    pub fn as_slice(&self) -> &[u32]
        ensures { result.now ≡ self.now }
    {
        self.items.as_slice()
    }

    /// Adds one index at the end. After a refusal the path is as before.
    pub fn push(&mut self, item: u32) -> Result<(), NoMemory>
        ensures ok { IfOk result (λ _. self.new ≡ self.old ++ item ∷ []) }
        ensures err { OnErr result (self.new ≡ self.old) }
    {
        match self.items.push(item) {
            Ok(()) => Ok(()),
            Err(_) => Err(NoMemory),
        }
    }

    /// Adds items at the end. After a refusal the path is as before.
    pub fn push_slice(&mut self, items: &[u32]) -> Result<(), NoMemory>
        ensures ok { IfOk result (λ _. self.new ≡ self.old ++ items.now) }
        ensures err { OnErr result (self.new ≡ self.old) }
    {
        match self.items.extend_from_slice(items) {
            Ok(()) => Ok(()),
            Err(_) => Err(NoMemory),
        }
    }

    /// Adds another path at the end. After a refusal the path is as before.
    pub fn append(&mut self, other: &Path) -> Result<(), NoMemory>
        ensures ok { IfOk result (λ _. self.new ≡ self.old ++ other.now) }
        ensures err { OnErr result (self.new ≡ self.old) }
    {
        self.push_slice(other.as_slice())
    }

    /// An equal path.
    pub fn copy(&self, alloc: Global) -> Result<Path, NoMemory>
        ensures { IfOk result (λ copy. copy ≡ self.now) }
    {
        Path::from_slice(alloc, self.as_slice())
    }

    /// The path with one index more at its end.
    pub fn child(&self, alloc: Global, index: u32) -> Result<Path, NoMemory>
        ensures { IfOk result (λ child. child ≡ self.now ++ index ∷ []) }
    {
        let mut child = self.copy(alloc)?;
        child.push(index)?;
        Ok(child)
    }

    /// Whether the other path begins with this one; each path begins with itself.
    pub fn begins(&self, other: &Path) -> bool
        ensures { result ≡ begins self.now other.now }
    {
        other.items.as_slice().starts_with(self.items.as_slice())
    }
}
