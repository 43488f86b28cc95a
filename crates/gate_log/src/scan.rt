//! The blocks of a file.
ghost use Rattle.std.specs.Prelude.{◌≡◌, ◌⊎◌, ◌<◌, ◌+◌, ◌++◌, [], ◌∷◌, ℕ, length, drop, slice_index, IfOk, OnOk, IfErr};
ghost use Rattle.gate_log.specs.Log.{blocks, IsGated, IsBroken, NoBlock, Begins};
ghost use Rattle.gate_log.specs.Entries.{entries};

use crate::LogStop;
use crate::block::{Block, block_at};
use std::alloc::Global;

/// The blocks of a log, and the place of the closed gate behind them.
#[derive(Drop)]
pub struct Found {
    pub blocks: Vec<Block>,
    pub gate: usize,
}

// The block behind the open gate at a place.
fn next(alloc: Global, bytes: &[u8], at: usize) -> Result<Block, LogStop>
    requires { at < length bytes.now }
    ensures ok { IfOk result (λ b. Begins b.bytes.items (drop (at + 1) bytes.now)) }
    ensures err { IfErr result (λ e. (e ≡ LogStop.Memory) ⊎ ((e ≡ LogStop.Broken at) × NoBlock (drop (at + 1) bytes.now))) }
{
    match block_at(alloc, &bytes[at + 1..]) {
        Ok(Some(block)) => Ok(block),
        Ok(None) => Err(LogStop::Broken(at as u64)),
        Err(_) => Err(LogStop::Memory),
    }
}

fn keep(found: &mut Vec<Block>, block: Block) -> Result<(), LogStop>
    ensures ok { OnOk result (found.new.items ≡ found.old.items ++ block ∷ []) }
    ensures err { IfErr result (λ e. e ≡ LogStop.Memory) }
{
    match found.push(block) {
        Ok(()) => Ok(()),
        Err(_) => Err(LogStop::Memory),
    }
}

// All blocks of a file that has more than one byte.
pub fn scan(alloc: Global, bytes: &[u8]) -> Result<Found, LogStop>
    requires { 1 < length bytes.now }
    ensures log { IfOk result (λ f. IsGated bytes.now (entries f.blocks.items)) }
    ensures gate { IfOk result (λ f. f.gate ≡ length (blocks (entries f.blocks.items))) }
    ensures inside { IfOk result (λ f. f.gate < length bytes.now) }
    ensures err { IfErr result (λ e. (e ≡ LogStop.Memory) ⊎ ((place : ℕ) × (e ≡ LogStop.Broken place) × IsBroken bytes.now place)) }
{
    let mut found = Vec::new(alloc);
    let mut at = 0;
    while bytes[at] == 165 {
        let block = match next(alloc, bytes, at) {
            Ok(block) => block,
            Err(stop) => return Err(stop),
        };
        at += block.bytes.len();
        keep(&mut found, block)?;
    }
    Ok(Found {
        blocks: found,
        gate: at,
    })
}
