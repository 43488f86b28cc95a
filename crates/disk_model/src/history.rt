//! The bytes of a disk in memory, with what was done to them, so that each image of a crash is a function of its data.
ghost use Rattle.std.specs.Prelude.{◌≡◌, ◌≤◌, ◌<◌, ◌+◌, ◌-◌, [], ◌∷◌, ◌++◌, List, ℕ, length, take, drop, IfOk, OnOk, OnErr, IsOk, vec_len, vec_capacity};
ghost use Rattle.disk_model.specs.Disk.{Goes, Torn, Holds};
ghost use Rattle.disk_model.specs.Images.{overwritten, kept, read_of, state, start, AreInPlace, AreWrites, EndWithin, redone, event_size, LeaveNoGap-prop, AreWrites-prop, EndWithin-prop};

use crate::event::{Event, Write};
use std::alloc::{AllocError, Global};

/// The bytes at the beginning, what was done to them since, and the bytes now.
#[derive(Drop)]
pub struct History {
    first: Vec<u8>,
    content: Vec<u8>,
    events: Vec<Event>,
    durable: usize,
    pub ghost reads: { content.items ≡ read_of (state (start first.items) events.items) },
    pub ghost in_place: { AreInPlace (state (start first.items) events.items) } by { LeaveNoGap-prop (state (start first.items) events.items).synced (state (start first.items) events.items).pending },
    pub ghost settled: { (state (start first.items) (take durable events.items)).pending ≡ [] },
    pub ghost unsynced: { AreWrites (drop durable events.items) } by { AreWrites-prop (drop durable events.items) },
    pub ghost in_reach: { EndWithin (vec_capacity first) events.items } by { EndWithin-prop (vec_capacity first) events.items },
    pub ghost within: { durable ≤ length events.items },
    pub ghost room: { durable < length events.items → vec_len events < vec_capacity events },
}

// Writes bytes at a place, or behind the end where the place is past it. It takes no memory that isn't needed.
fn put_at(content: &mut Vec<u8>, at: usize, bytes: &[u8]) -> Result<(), AllocError>
    ensures ok { OnOk result (content.new.items ≡ overwritten at bytes.now content.old.items) }
    ensures err { OnErr result (content.new.items ≡ content.old.items) }
    ensures capacity { vec_capacity content.old ≤ vec_capacity content.new }
    ensures succeeds { at + length bytes.now ≤ vec_capacity content.old → IsOk result }
{
    let start = at.min(content.len());
    let over = bytes.len().min(content.len() - start);
    content.extend_from_slice(&bytes[over..])?;
    content[start..start + over].copy_from_slice(&bytes[..over]);
    Ok(())
}

// Does a write again, or its first `most` bytes, and says how many of `most` are left.
fn redo_one(content: &mut Vec<u8>, event: &Event, most: usize) -> usize
    requires reach { EndWithin (vec_capacity content.old) (event.now ∷ []) }
    ensures done { content.new.items ≡ redone event.now most content.old.items }
    ensures left { result ≡ most - event_size event.now }
    ensures capacity { vec_capacity content.old ≤ vec_capacity content.new }
{
    match event {
        Event::Wrote(write) => {
            let size = most.min(write.bytes.len());
            let _done = put_at(content, write.at, &write.bytes[..size]);
            most - size
        }
        Event::Synced => most,
    }
}

fn size_of(event: &Event) -> usize
    ensures { result ≡ event_size event.now }
{
    match event {
        Event::Wrote(write) => write.bytes.len(),
        Event::Synced => 0,
    }
}

// Does all writes again.
fn redo(content: &mut Vec<u8>, events: &[Event])
    requires reach { EndWithin (vec_capacity content.old) events.now }
    ensures done { content.new.items ≡ read_of (state (start content.old.items) events.now) }
    ensures capacity { vec_capacity content.old ≤ vec_capacity content.new }
{
    for event in events {
        let size = size_of(event);
        let _left = redo_one(content, event, size);
    }
}

// Does the first `keep` bytes of these writes.
fn redo_part(content: &mut Vec<u8>, events: &[Event], keep: usize)
    requires reach { EndWithin (vec_capacity content.old) events.now }
    requires writes { AreWrites events.now }
    ensures part { content.new.items ≡ kept content.old.items (state (start content.old.items) events.now).pending keep }
    ensures capacity { vec_capacity content.old ≤ vec_capacity content.new }
{
    let mut left = keep;
    for event in events {
        left = redo_one(content, event, left);
    }
}

impl History {
    ghost use Rattle.disk_model.specs.Memory.{content_of, moment_of, left_since_of, cut_at, IsSynced};

    pub fn new(alloc: Global, bytes: &[u8]) -> Result<History, AllocError>
        ensures bytes { IfOk result (λ h. content_of h ≡ bytes.now) }
        ensures synced { IfOk result IsSynced }
    {
        Ok(History {
            first: bytes.to_vec(alloc)?,
            content: bytes.to_vec(alloc)?,
            events: Vec::new(alloc),
            durable: 0,
        })
    }

    pub fn content(&self) -> &[u8]
        ensures { result.now ≡ content_of self.now }
    {
        &self.content
    }

    /// Writes bytes, and makes the room that the sync or the reboot after it takes.
    pub fn write(&mut self, alloc: Global, at: usize, bytes: &[u8]) -> Result<(), AllocError>
        requires { at ≤ length (content_of self.old) }
        ensures ok { OnOk result (Holds at bytes.now (content_of self.old) (content_of self.new)) }
        ensures err { OnErr result (content_of self.new ≡ content_of self.old) }
        ensures crash { OnOk result (Goes moment_of left_since_of (Torn at (length bytes.now)) self.old self.new) }
        ensures crash_err { OnErr result (Goes moment_of left_since_of (◌≡◌ {A = List ℕ}) self.old self.new) }
    {
        let kept = bytes.to_vec(alloc)?;
        self.events.reserve(2)?;
        let end = at + bytes.len();
        self.first.reserve(end)?;
        put_at(&mut self.content, at, bytes)?;
        self.events
            .push_reserved(Event::Wrote(Write { at, bytes: kept }));
        Ok(())
    }

    /// From now on a crash leaves what is read.
    pub fn sync(&mut self)
        ensures bytes { content_of self.new ≡ content_of self.old }
        ensures synced { IsSynced self.new }
        ensures crash { Goes moment_of left_since_of (◌≡◌ {A = List ℕ}) self.old self.new }
    {
        if self.durable < self.events.len() {
            self.events.push_reserved(Event::Synced);
            self.durable = self.events.len();
        }
    }

    /// Leaves the first `keep` of the bytes that were written since the last sync, and begins a new history with them.
    pub fn reboot(&mut self, keep: usize)
        ensures cut { content_of self.new ≡ cut_at self.old keep }
        ensures image { left_since_of self.old (moment_of self.old) (content_of self.new) }
        ensures synced { IsSynced self.new }
    {
        redo(&mut self.first, &self.events[..self.durable]);
        redo_part(&mut self.first, &self.events[self.durable..], keep);
        self.events.clear();
        self.durable = 0;
        self.content.clear();
        let _done = self.content.extend_from_slice(&self.first);
    }
}
