//! An asker in memory.
ghost use Rattle.std.specs.Prelude.{◌≡◌, ◌≤◌, ◌+◌, [], None, length, IfOk};
ghost use Rattle.ask_model.specs.declared.Refused.TheVariants.{Never};
ghost use Rattle.ask_model.specs.Asker.{IsTrace, AreReplies};
ghost use Rattle.ask_model.specs.Table.{table};

use crate::adds::{add_draw, add_once, add_post, add_reply};
use crate::asked::Asked;
use crate::made::Made;
use crate::scans::{known_in, record_in};
use crate::{AskStop, Asker, Known, Refused};
use outside::Draws;
use std::alloc::Global;
use turk_base::{Data, Entry, NoMemory, Path, Record, Replies, Units, Whole};

/// An asker over a trace, a snapshot of replies, and words for new draws. Nothing is kept beyond it.
#[derive(Drop)]
pub struct TableAsker<'a, W: Draws> {
    alloc: Global,
    trace: Vec<Entry>,
    made: Made,
    asked: Asked,
    replies: &'a Replies,
    draws: &'a mut W,
    refused: Refused,
}

impl<'a, W: Draws> TableAsker<'a, W> {
    ghost use Rattle.ask_model.specs.Asker.{KnowsWithin};

    /// An asker that has made no record. The trace has at most 65,536 records at distinct paths; records
    /// and replies are within their limits. It takes memory for the path asked last, and for nothing else.
    pub fn new(
        alloc: Global,
        trace: Vec<Entry>,
        replies: &'a Replies,
        draws: &'a mut W,
    ) -> Result<TableAsker<'a, W>, NoMemory>
        requires trace { IsTrace trace.items }
        requires replies { AreReplies replies.now }
        ensures seen { IfOk result (λ t. table t.trace.items t.replies.now t.made.items t.asked t.refused ≡ table trace.items replies.now [] None Never) }
        ensures sound { IfOk result (λ t. KnowsWithin (table t.trace.items t.replies.now t.made.items t.asked t.refused)) }
        ensures draws { IfOk result (λ t. t.draws.now ≡ draws.old) }
        ensures same { IfOk result (λ t. t.draws.ghost_name ≡ draws.entry.ghost_name) }
    {
        match Asked::new(alloc) {
            Ok(asked) => Ok(TableAsker {
                alloc,
                trace,
                made: Made::new(alloc),
                asked,
                replies,
                draws,
                refused: Refused::Never,
            }),
            Err(stop) => Err(stop),
        }
    }
}

/// It answers TraceFull and Memory alone. A draw is the next word modulo the bound.
impl<'a, W: Draws> Asker for TableAsker<'a, W> {
    ghost use Rattle.std.specs.Prelude.{true};
    ghost use Rattle.ask_model.specs.Asker.{KnowsWithin};
    ghost use Rattle.ask_model.specs.Table.{Keeps, IsFullOrLost};
    ghost use Rattle.ask_model.specs.Laws.{keeps_refl, keeps_trans};

    ghost seen = { λ t. table t.trace.items t.replies.now t.made.items t.asked t.refused };

    ghost fits = { λ t e. true };

    ghost words = { λ t. W.rest t.draws.now };

    ghost is_sound = { λ t. KnowsWithin (table t.trace.items t.replies.now t.made.items t.asked t.refused) };

    ghost refuses = { IsFullOrLost };

    ghost tells_tasks = { ⊥ };

    ghost tells_traces = { ⊥ };

    ghost moment = { λ t. 0 };

    ghost left_since = { λ t m l. ⊥ };

    ghost keeps = { λ old new. Keeps W.rest old.draws new.draws old.made.items new.made.items };

    ghost within = { λ s h. h };

    ghost known_left = { λ s told sound going. told };

    ghost now_is = { λ s l told sound going left. absurd told };

    ghost counts_now = { λ s m l told le left. left };

    ghost keeps_refl = { λ s. keeps_refl W.rest s.draws s.made.items };

    ghost keeps_trans = { λ a b c h k. keeps_trans W.rest a.draws b.draws c.draws a.made.items b.made.items c.made.items h k };

    fn known(&mut self, path: &Path) -> Known {
        self.asked.set(path);
        known_in(self.trace.as_slice(), self.made.near(path.as_slice()), path)
    }

    fn kept(&self) -> Option<&Record> {
        match self.asked.path() {
            Some(path) => record_in(self.trace.as_slice(), self.made.near(path), path),
            None => None,
        }
    }

    fn post(&mut self, path: &Path, _token: &Units, text: &Units) -> Result<(), AskStop> {
        let result = add_post(self.alloc, self.trace.len(), &mut self.made, path, text);
        self.refused = self.refused.after(result.is_err());
        result
    }

    fn reply(&mut self, path: &Path, token: &Units) -> Result<Option<Units>, AskStop> {
        let Some(text) = self.replies.find(token) else {
            self.refused = self.refused.after(false);
            return Ok(None);
        };
        let result = add_reply(
            self.alloc,
            self.trace.len(),
            &mut self.made,
            path,
            token,
            text,
        );
        self.refused = self.refused.after(result.is_err());
        match result {
            Ok(text) => Ok(Some(text)),
            Err(stop) => Err(stop),
        }
    }

    fn draw(&mut self, path: &Path, bound: Whole) -> Result<Whole, AskStop> {
        let result = add_draw(
            self.alloc,
            self.trace.len(),
            &mut self.made,
            self.draws,
            path,
            bound,
        );
        self.refused = self.refused.after(result.is_err());
        result
    }

    fn once_done(&mut self, path: &Path, value: &Data) -> Result<(), AskStop> {
        let result = add_once(self.alloc, self.trace.len(), &mut self.made, path, value);
        self.refused = self.refused.after(result.is_err());
        result
    }
}
