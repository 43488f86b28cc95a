//! Boards: where tasks go, each token held once.
#![tactic(auto)]

mod memory;
#[cfg(test)]
mod tests;

ghost use Rattle.std.specs.Prelude.{List, ℕ, length, ◌≤◌};

pub use memory::MemoryBoard;
use turk_base::Units;

/// What a board answers to a post.
#[derive(Drop)]
pub enum Posted {
    /// The token was missing, and the task is held now.
    New,
    /// The token was there, with this text.
    Held(Units),
}

/// Why a post wasn't answered.
#[derive(Clone, Copy, Debug, Drop, PartialEq, Eq)]
pub enum BoardStop {
    /// The board failed; its count of faults rose.
    Failed,
    /// Memory ran out.
    Memory,
}

/// A board of tasks. How often it failed is always known; its tasks are told by an honest board alone.
pub trait Board {
    ghost use Rattle.board_model.specs.Tokens.{Tasks, HasDistinctTokens};
    ghost use Rattle.board_model.specs.Board.{HasCause, IsHonest};

    /// That it is honest and tells its tasks.
    ghost tells: { Type 0 };

    /// Its tasks, in the order in which they were added.
    ghost tasks: { Self → Tasks };

    /// How often it has failed. It stands still at the end of a `u64`.
    ghost faults: { Self → ℕ };

    /// Posts a task, a token and a text of at most 1,048,576 units each.
    fn post(&mut self, token: &Units, text: &Units) -> Result<Posted, BoardStop>
        requires token { length token.now ≤ 1048576 }
        requires text { length text.now ≤ 1048576 }
        ensures distinct { tells → HasDistinctTokens (tasks self.new) }
        ensures honest { tells → IsHonest token.now text.now (tasks self.old) (tasks self.new) result }
        ensures cause { HasCause (faults self.old) (faults self.new) result };
}
