//! A board in memory.

ghost use Rattle.std.specs.Prelude.{◌≡◌, ◌↔◌, [], List, ℕ, None, Some, Contains, IfOk, IsErrOf, IsTrue, MatchResult};
ghost use Rattle.std.specs.Option.{option_copied};
ghost use Rattle.turk_base.specs.Trace.{answer};

use crate::{Board, BoardStop, Posted};
use std::alloc::Global;
use std::marker::Model;
use turk_base::{NoMemory, Units};

/// A board in memory. It fails exactly at the posts that it was made with, counted from 1, and adds nothing there.
#[derive(Drop)]
pub struct MemoryBoard {
    alloc: Global,
    tasks: Vec<(Units, Units)>,
    fails: Vec<u32>,
    calls: u64,
    faults: u64,
}

impl Model for MemoryBoard {
    ghost use Rattle.board_model.specs.Kept.{Kept, HasDistinctTokens};

    ghost Value = { Kept };

    ghost view = { λ b. record { tasks = b.tasks.items; fails = b.fails.items; calls = b.calls; faults = b.faults } };

    ghost invariant = { λ b. HasDistinctTokens b.tasks.items };
}

impl MemoryBoard {
    /// A board without tasks, which fails at the listed posts, counted from 1.
    pub fn new(alloc: Global, fails: &[u32]) -> Result<MemoryBoard, NoMemory>
        ensures empty { IfOk result (λ b. b.tasks ≡ []) }
        ensures listed { IfOk result (λ b. b.fails ≡ fails.now) }
        ensures unused { IfOk result (λ b. b.calls ≡ 0) }
        ensures sound { IfOk result (λ b. b.faults ≡ 0) }
    {
        match Vec::from_slice(alloc, fails) {
            Ok(fails) => Ok(MemoryBoard {
                alloc,
                tasks: Vec::new(alloc),
                fails,
                calls: 0,
                faults: 0,
            }),
            Err(_) => Err(NoMemory),
        }
    }

    /// The tasks in the order in which they were added.
    pub fn tasks(&self) -> &[(Units, Units)]
        ensures { result.now ≡ self.now.tasks }
    {
        &self.tasks
    }
}

impl Board for MemoryBoard {
    ghost use Rattle.std.specs.Prelude.{⊤, length, ◌≤◌};
    ghost use Rattle.board_model.specs.Board.{HasCause, IsHonest};
    ghost use Rattle.board_model.specs.Tokens.{HasDistinctTokens};
    ghost use Rattle.board_model.specs.Kept.{one_more};

    ghost tells = { ⊤ };

    ghost tasks = { λ b. b.tasks };

    ghost faults = { λ b. b.faults };

    /// Posts a task. It fails exactly where the number of this post is listed, and then adds nothing.
    #[tactic(auto, using(crate::proofs::Added::tasks_push))]
    fn post(&mut self, token: &Units, text: &Units) -> Result<Posted, BoardStop>
        ensures distinct { HasDistinctTokens self.new.tasks }
        ensures honest { IsHonest token.now text.now self.old.tasks self.new.tasks result }
        ensures cause { HasCause self.old.faults self.new.faults result }
        ensures called { self.new.calls ≡ one_more self.old.calls }
        ensures listed { self.new.fails ≡ self.old.fails }
        ensures failed { IsErrOf result BoardStop.Failed ↔ Contains self.old.fails self.new.calls }
        ensures untouched { IsErrOf result BoardStop.Failed → self.new.tasks ≡ self.old.tasks }
        ensures counted { IsErrOf result BoardStop.Failed → self.new.faults ≡ one_more self.old.faults }
        ensures sound { (IsErrOf result BoardStop.Failed → ⊥) → self.new.faults ≡ self.old.faults }
    {
        self.calls = self.calls.saturating_add(1);
        if is_listed(&self.fails, self.calls) {
            self.faults = self.faults.saturating_add(1);
            return Err(BoardStop::Failed);
        }
        match kept_in(&self.tasks, token) {
            Some(kept) => match kept.copy(self.alloc) {
                Ok(kept) => Ok(Posted::Held(kept)),
                Err(_) => Err(BoardStop::Memory),
            },
            None => {
                let task = copies(self.alloc, token, text)?;
                if self.tasks.reserve(1).is_err() {
                    return Err(BoardStop::Memory);
                }
                self.tasks.push_reserved(task);
                Ok(Posted::New)
            }
        }
    }
}

// That a post of this number is to fail.
fn is_listed(fails: &[u32], call: u64) -> bool
    ensures { IsTrue result ↔ Contains fails.now call }
{
    match u32::try_from(call) {
        Ok(call) => fails.contains(&call),
        Err(_) => false,
    }
}

fn copies(alloc: Global, token: &Units, text: &Units) -> Result<(Units, Units), BoardStop>
    ensures { MatchResult result (λ task. task ≡ (token.now, text.now)) (λ stop. stop ≡ BoardStop.Memory) }
{
    let Ok(token) = token.copy(alloc) else {
        return Err(BoardStop::Memory);
    };
    match text.copy(alloc) {
        Ok(text) => Ok((token, text)),
        Err(_) => Err(BoardStop::Memory),
    }
}

// The text that is kept for a token.
fn kept_in<'a>(tasks: &'a [(Units, Units)], token: &Units) -> Option<&'a Units>
    ensures { option_copied result ≡ answer tasks.now token.now }
{
    for task in tasks {
        if task.0 == *token {
            return Some(&task.1);
        }
    }
    None
}
