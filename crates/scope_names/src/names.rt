//! The names that a frame declares.
ghost use Rattle.std.specs.Prelude.{◌≡◌, [], length, IfOk};
ghost use Rattle.js_tree.specs.Calls.{has};
ghost use Rattle.scope_names.specs.Gathered.{with_name, gathered};

use crate::NoRoom;
use indexmap::IndexSet;
use std::alloc::Global;
use std::marker::Model;
use turk_base::Units;

/// Different names, in the order in which they were added. Contracts see the list of them.
#[derive(Drop)]
pub struct Names {
    set: IndexSet<Units>,
}

impl Model for Names {
    ghost use Rattle.std.specs.Prelude.{List, ℕ};

    ghost Value = { List (List ℕ) };

    ghost view = { λ n. n.set.keys };
}

impl Names {
    /// No names.
    pub fn new(alloc: Global) -> Names
        ensures { result ≡ [] }
    {
        Names {
            set: IndexSet::new(alloc),
        }
    }

    /// Whether a name is among them.
    pub fn has(&self, name: &Units) -> bool
        ensures { result ≡ has self.now name.now }
    {
        self.set.contains(name)
    }

    /// How many there are.
    pub fn len(&self) -> usize
        ensures { result ≡ length self.now }
    {
        self.set.len()
    }

    /// Adds a name, unless it is there.
    pub fn add(mut self, alloc: Global, name: &Units) -> Result<Names, NoRoom>
        ensures { IfOk result (λ made. made ≡ with_name self name.now) }
    {
        if self.has(name) {
            return Ok(self);
        }
        let copy = name.copy(alloc)?;
        self.set.insert(copy)?;
        Ok(self)
    }

    /// Adds names in order, each unless it is there.
    pub fn add_all(self, alloc: Global, names: &[Units]) -> Result<Names, NoRoom>
        ensures { IfOk result (λ made. made ≡ gathered self names.now) }
    {
        let mut all = self;
        for name in names {
            all = all.add(alloc, name)?;
        }
        Ok(all)
    }
}
