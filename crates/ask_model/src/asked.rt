//! The path that was asked last, in room that was made for it.
ghost use Rattle.std.specs.Prelude.{◌≡◌, ◌≤◌, Some, None, length, IfOk, vec_len, vec_capacity};
ghost use Rattle.std.specs.Option.{option_copied};

use std::alloc::Global;
use std::marker::Model;
use turk_base::{NoMemory, Path};

/// The most indexes that a path has.
const MOST_INDEXES: usize = 800;

/// The path asked last, or that nothing was asked, in room for 800 indexes.
#[derive(Drop)]
pub struct Asked {
    path: Vec<u32>,
    is_there: bool,
}

impl Model for Asked {
    ghost use Rattle.std.specs.Prelude.{List, ℕ, Option, ◌≤◌, vec_capacity};
    ghost use Rattle.ask_model.specs.Table.{asked_of};

    ghost Value = { Option (List ℕ) };

    ghost view = { λ a. asked_of a.is_there a.path.items };

    ghost invariant = { λ a. 800 ≤ vec_capacity a.path };
}

impl Asked {
    /// Nothing was asked.
    pub fn new(alloc: Global) -> Result<Asked, NoMemory>
        ensures { IfOk result (λ a. a ≡ None) }
    {
        match Vec::with_capacity(alloc, MOST_INDEXES) {
            Ok(path) => Ok(Asked {
                path,
                is_there: false,
            }),
            Err(_) => Err(NoMemory),
        }
    }

    /// Takes a path of at most 800 indexes, in the room that is there.
    pub fn set(&mut self, path: &Path)
        requires { length path.now ≤ 800 }
        ensures { self.new ≡ Some path.now }
    {
        fill(&mut self.path, path.as_slice());
        self.is_there = true;
    }

    /// The path.
    pub fn path(&self) -> Option<&[u32]>
        ensures { option_copied result ≡ self.now }
    {
        if self.is_there {
            Some(self.path.as_slice())
        } else {
            None
        }
    }
}

// Puts these indexes in the place of what was there, in the room that there is.
fn fill(room: &mut Vec<u32>, indexes: &[u32])
    requires { length indexes.now ≤ vec_capacity room.old }
    ensures items { room.new.items ≡ indexes.now }
    ensures capacity { vec_capacity room.old ≤ vec_capacity room.new }
{
    room.clear();
    for index in indexes {
        room.push_reserved(*index);
    }
}
