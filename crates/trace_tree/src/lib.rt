//! Records by their paths, in the order in which they came.
#![tactic(auto)]

mod places;
mod spot;
#[cfg(test)]
mod tests;

ghost use Rattle.std.specs.Prelude.{◌≡◌, ◌≢◌, ◌↔◌, ◌++◌, [], ◌∷◌, ◌≤◌, ◌<◌, List, ℕ, length, take, false, Some, None, IfSome, IfNone, IfErr, IsNone, OnOk, OnErr, IsTrue, slice_get, not, ◌&&◌};
ghost use Rattle.std.specs.Option.{option_copied};
ghost use Rattle.turk_base.specs.Trace.{at, below, begins, same_list};
ghost use Rattle.trace_tree.specs.Traces.{IsTrace, Begins, StandsNone};

use crate::places::{child_of, front_of};
pub use spot::Spot;
use std::alloc::Global;
use std::marker::Model;
use turk_base::{Entry, NoMemory, Path, Record};

/// The most records that a trace holds.
pub const MOST_RECORDS: usize = 65_536;

/// Why an entry was not pushed; it carries the entry. Where several hold, the first is given.
#[derive(Drop)]
pub enum TraceStop {
    /// A record stands at its path already.
    Repeated(Entry),
    /// The trace holds 65,536 records.
    Full(Entry),
    /// Memory ran out.
    Memory(Entry),
}

/// Records with distinct paths, at most 65,536, in the order in which they were pushed.
#[derive(Drop)]
pub struct Trace {
    entries: Vec<Entry>,
}

impl Model for Trace {
    ghost use Rattle.trace_tree.specs.Traces.{Kept, IsTrace, room_in};
    ghost use Rattle.std.specs.Coded.{code_by, coded×, coded_list, coded_ℕ};
    ghost use Rattle.std.specs.Prelude.{refl};
    ghost use Rattle.turk_base.specs.contracts.Entry as entry;

    ghost Value = { Kept };

    ghost coded = { code_by _ (coded× (coded_list entry.the_row.coded) coded_ℕ) (λ k. (k.entries, k.room)) (λ p. record { entries = p.0; room = p.1 }) (λ _. refl) };

    ghost view = { λ t. record { entries = t.entries.items; room = room_in t.entries } };

    ghost invariant = { λ t. IsTrace t.entries.items };
}

impl Trace {
    ghost use Rattle.trace_tree.specs.Spots.{IsSpot, path_of, Refuses, StandsAt};

    /// The trace without records.
    pub fn new(alloc: Global) -> Trace
        ensures { result.entries ≡ [] }
    {
        Trace {
            entries: Vec::new(alloc),
        }
    }

    /// How many records there are.
    pub fn count(&self) -> usize
        ensures count { result ≡ length self.now.entries }
        ensures valid { IsTrace self.now.entries }
    {
        self.entries.len()
    }

    /// The record pushed as number `i`, counted from 0, with its path; None exactly past the last.
    pub fn get(&self, i: usize) -> Option<&Entry>
        ensures { option_copied result ≡ slice_get self.now.entries i }
    {
        self.entries.get(i)
    }

    /// The record at the path; None exactly where there is none. It takes no memory.
    pub fn find(&self, path: &Path) -> Option<&Record>
        ensures { option_copied result ≡ at self.now.entries path.now }
    {
        record_at(&self.entries, path.as_slice())
    }

    /// Whether a record stands at a longer path that begins with this one. It takes no memory.
    pub fn below(&self, path: &Path) -> bool
        ensures { result ≡ below self.now.entries path.now }
    {
        is_below(&self.entries, path)
    }

    /// The Spot of the empty path.
    pub fn root(&self) -> Spot
        ensures { StandsAt self.now.entries result [] }
    {
        Spot {
            number: 0,
            depth: 0,
        }
    }

    /// The Spot of the path with one index more; None exactly where no record stands there or below.
    /// It takes no memory.
    pub fn child(&self, spot: Spot, index: u32) -> Option<Spot>
        requires { IsSpot self.now.entries spot }
        ensures spot { IfSome result (λ s. StandsAt self.now.entries s (path_of self.now.entries spot ++ index ∷ [])) }
        ensures none { IsNone result ↔ StandsNone self.now.entries (path_of self.now.entries spot ++ index ∷ []) }
    {
        child_of(&self.entries, spot, index)
    }

    /// The record at the Spot's path; None exactly where there is none. It takes no memory.
    pub fn what(&self, spot: Spot) -> Option<&Record>
        requires { IsSpot self.now.entries spot }
        ensures { option_copied result ≡ at self.now.entries (path_of self.now.entries spot) }
    {
        record_at(&self.entries, front_of(&self.entries, spot))
    }

    /// Makes room for an entry whose path has `depth` indexes.
    pub fn reserve(&mut self, depth: usize) -> Result<(), NoMemory>
        ensures room { OnOk result (depth < self.new.room) }
        ensures same { self.new.entries ≡ self.old.entries }
    {
        match self.entries.reserve(1) {
            Ok(()) => Ok(()),
            Err(_) => Err(NoMemory),
        }
    }

    /// Adds the entry at the end. A refusal hands it back and leaves the trace as it was. Memory isn't
    /// answered after `reserve` for the path's length.
    pub fn push(&mut self, entry: Entry) -> Result<(), TraceStop>
        ensures added { OnOk result (self.new.entries ≡ self.old.entries ++ entry ∷ []) }
        ensures was_new { OnOk result ((at self.old.entries entry.path ≡ None) × (length self.old.entries < 65536)) }
        ensures why { IfErr result (Refuses self.old entry) }
        ensures unmade { OnErr result (self.new ≡ self.old) }
        ensures spots { (s : _) (p : List ℕ) → StandsAt self.old.entries s p → StandsAt self.new.entries s p }
    {
        if record_at(&self.entries, entry.path.as_slice()).is_some() {
            return Err(TraceStop::Repeated(entry));
        }
        if self.entries.len() >= MOST_RECORDS {
            return Err(TraceStop::Full(entry));
        }
        if self.entries.reserve(1).is_err() {
            return Err(TraceStop::Memory(entry));
        }
        self.entries.push_reserved(entry);
        Ok(())
    }

    /// The Spot of a path, reached by `child` from the root; None exactly for a path that isn't empty
    /// where no record stands at it or below. It takes no memory.
    pub fn follow(&self, path: &Path) -> Option<Spot>
        ensures spot { IfSome result (λ s. StandsAt self.now.entries s path.now) }
        ensures none { IsNone result ↔ ((path.now ≢ []) × StandsNone self.now.entries path.now) }
    {
        let mut here = self.root();
        for index in path.as_slice() {
            match self.child(here, *index) {
                Some(next) => here = next,
                None => return None,
            }
        }
        Some(here)
    }
}

// The record at a path.
fn record_at<'a>(entries: &'a [Entry], path: &[u32]) -> Option<&'a Record>
    ensures { option_copied result ≡ at entries.now path.now }
{
    for entry in entries {
        if entry.path.as_slice() == path {
            return Some(&entry.what);
        }
    }
    None
}

fn is_below(entries: &[Entry], path: &Path) -> bool
    ensures { result ≡ below entries.now path.now }
{
    for entry in entries {
        if is_longer(&entry.path, path) {
            return true;
        }
    }
    false
}

// Whether a path begins with this front and is another.
fn is_longer(path: &Path, front: &Path) -> bool
    ensures { result ≡ (begins front.now path.now && not (same_list front.now path.now)) }
{
    front.begins(path) && front != path
}

// Whether a path begins with this front and then has the index.
fn goes_on(path: &[u32], front: &[u32], index: u32) -> bool
    ensures { IsTrue result ↔ Begins (front.now ++ index ∷ []) path.now }
{
    if !path.starts_with(front) {
        return false;
    }
    if path.len() <= front.len() {
        return false;
    }
    path[front.len()] == index
}
