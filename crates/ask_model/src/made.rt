//! The records that a run has made, and which of their paths is the greatest.
ghost use Rattle.std.specs.Prelude.{◌≡◌, ◌<◌, [], ◌∷◌, ◌++◌, length, OnOk, if◌then◌else◌};
ghost use Rattle.std.specs.List.{slice_get};
ghost use Rattle.turk_base.specs.Trace.{at, below};
ghost use Rattle.ask_model.specs.Made.{comes_after_entry};

use std::alloc::Global;
use std::marker::Model;
use turk_base::{Entry, NoMemory};

/// Entries in the order in which they were made. A path that comes after each of theirs is told from
/// the others without a search.
#[derive(Drop)]
pub struct Made {
    entries: Vec<Entry>,
    /// Where the entry with the greatest path stands.
    greatest: usize,
}

impl Model for Made {
    ghost use Rattle.std.specs.Prelude.{◌-◌, refl, vec_len, vec_capacity};
    ghost use Rattle.std.specs.List.{slice_get};
    ghost use Rattle.std.specs.Coded.{code_by, coded×, coded_list, coded_ℕ};
    ghost use Rattle.turk_base.specs.contracts.Entry as entry;
    ghost use Rattle.ask_model.specs.Made as kept;

    ghost Value = { kept.Made };

    ghost coded = { code_by _ (coded× (coded_list entry.the_row.coded) coded_ℕ) (λ m. (m.items, m.room)) (λ p. record { items = p.0; room = p.1 }) (λ _. refl) };

    ghost view = { λ m. record { items = m.entries.items; room = vec_capacity m.entries - vec_len m.entries } };

    ghost invariant = { λ m. kept.IsGreatest (slice_get m.entries.items m.greatest) m.entries.items };
}

impl Made {
    /// No entries.
    pub fn new(alloc: Global) -> Made
        ensures { result.items ≡ [] }
    {
        Made {
            entries: Vec::new(alloc),
            greatest: 0,
        }
    }

    /// How many entries.
    pub fn len(&self) -> usize
        ensures { result ≡ length self.now.items }
    {
        self.entries.len()
    }

    /// Makes room for one entry more.
    pub fn make_room(&mut self) -> Result<(), NoMemory>
        ensures items { self.new.items ≡ self.old.items }
        ensures room { OnOk result (0 < self.new.room) }
    {
        match self.entries.reserve(1) {
            Ok(()) => Ok(()),
            Err(_) => Err(NoMemory),
        }
    }

    /// Adds an entry at the end, where there is room.
    pub fn push_reserved(&mut self, what: Entry)
        requires { 0 < self.old.room }
        ensures { self.new.items ≡ self.old.items ++ what ∷ [] }
    {
        let entries = self.entries.as_slice();
        self.greatest = greatest_with(what.path.as_slice(), entries, self.greatest);
        self.entries.push_reserved(what);
    }

    /// The entries among which those at a path and below it are to be sought: all, or none where the
    /// path comes after each of theirs.
    pub fn near(&self, path: &[u32]) -> &[Entry]
        ensures at { at result.now path.now ≡ at self.now.items path.now }
        ensures below { below result.now path.now ≡ below self.now.items path.now }
    {
        if is_after(path, self.entries.as_slice(), self.greatest) {
            return &[];
        }
        self.entries.as_slice()
    }
}

// Whether a path comes after that of the entry that stands there, or none stands there.
fn is_after(path: &[u32], entries: &[Entry], greatest: usize) -> bool
    ensures { result ≡ comes_after_entry path.now (slice_get entries.now greatest) }
{
    match entries.get(greatest) {
        Some(entry) => path > entry.path.as_slice(),
        None => true,
    }
}

// Where the greatest stands once an entry at this path is added.
fn greatest_with(path: &[u32], entries: &[Entry], greatest: usize) -> usize
    ensures { result ≡ if comes_after_entry path.now (slice_get entries.now greatest) then length entries.now else greatest }
{
    if is_after(path, entries, greatest) {
        entries.len()
    } else {
        greatest
    }
}
