//! The copies of records, entries, slots and verdicts.
ghost use Rattle.std.specs.Prelude.{◌≡◌, IfOk};

use crate::{Entry, NoMemory, Record, SlotKey, SlotName, Verdict};
use std::alloc::Global;

impl Record {
    /// An equal record.
    pub fn copy(&self, alloc: Global) -> Result<Record, NoMemory>
        ensures { IfOk result (λ copy. copy ≡ self.now) }
    {
        Ok(match self {
            Record::Post(text) => Record::Post(text.copy(alloc)?),
            Record::Reply(token, text) => Record::Reply(token.copy(alloc)?, text.copy(alloc)?),
            Record::Draw(bound, value) => Record::Draw(*bound, *value),
            Record::Once(data) => Record::Once(data.copy(alloc)?),
        })
    }
}

impl Entry {
    /// An equal entry.
    pub fn copy(&self, alloc: Global) -> Result<Entry, NoMemory>
        ensures { IfOk result (λ copy. copy ≡ self.now) }
    {
        Ok(Entry {
            path: self.path.copy(alloc)?,
            what: self.what.copy(alloc)?,
        })
    }
}

impl SlotKey {
    /// An equal key.
    pub fn copy(&self, alloc: Global) -> Result<SlotKey, NoMemory>
        ensures { IfOk result (λ copy. copy ≡ self.now) }
    {
        Ok(match self {
            SlotKey::Shape => SlotKey::Shape,
            SlotKey::Key(key) => SlotKey::Key(key.copy(alloc)?),
        })
    }
}

impl SlotName {
    /// An equal name of a slot.
    pub fn copy(&self, alloc: Global) -> Result<SlotName, NoMemory>
        ensures { IfOk result (λ copy. copy ≡ self.now) }
    {
        Ok(SlotName {
            scope: self.scope.copy(alloc)?,
            number: self.number,
            key: self.key.copy(alloc)?,
        })
    }
}

impl Verdict {
    /// An equal verdict.
    pub fn copy(&self, alloc: Global) -> Result<Verdict, NoMemory>
        ensures { IfOk result (λ copy. copy ≡ self.now) }
    {
        Ok(match self {
            Verdict::Independent => Verdict::Independent,
            Verdict::TouchedOpen(slot) => Verdict::TouchedOpen(slot.copy(alloc)?),
            Verdict::OnceWhileOpen(slot) => Verdict::OnceWhileOpen(slot.copy(alloc)?),
            Verdict::BranchThrew(path) => Verdict::BranchThrew(path.copy(alloc)?),
        })
    }
}
