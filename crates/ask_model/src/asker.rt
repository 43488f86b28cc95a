//! The trait of what answers a run.
ghost use Rattle.std.specs.Prelude.{◌≡◌, ◌≤◌, ◌+◌, ℕ, Bool, List, pos, int_rem, ◌≤ℤ◌, Some, None, false, length, IfOk, IfErr, OnOk};
ghost use Rattle.std.specs.Option.{option_copied};
ghost use Rattle.turk_base.specs.declared.Entry.{Entry};
ghost use Rattle.turk_base.specs.declared.Record.TheVariants.{Post, Once};
ghost use Rattle.turk_base.specs.Trace.{at, below, answer};
ghost use Rattle.record_bytes.specs.Limits.{IsTextWithin, IsWithin};
ghost use Rattle.ask_model.specs.declared.AskStop.{AskStop};
ghost use Rattle.ask_model.specs.Asker.{Seen, known_to, entry, IsCallPath, KnowsWithin, known_at, asked_at, record_in, stop_of, Adds, NoBoard, Leaves, Perhaps, IsHeld, Posts, Replies, WithReply, Drawn};

use crate::{AskStop, Known};
use turk_base::{Data, Path, Record, Units, Whole};

/// Who knows the records of earlier runs and one snapshot of the replies, and keeps the records that
/// this run makes.
///
/// Four calls add a record: `post`, `reply`, `draw`, `once_done`. They are called at a path of 1 to 800
/// indexes at which `known` would answer Nothing (`once_done`: not Here), and no more after one of them
/// answered Fault(Disk). After each refusal the records made are as before.
pub trait Asker {
    /// The trace at its start, the replies, the records made, the path asked last, which calls were
    /// refused, the counts of faults, the tasks.
    ghost seen: { Self → Seen };

    /// That an entry fits after those that it has.
    ghost fits: { Self → Entry → Bool };

    /// That it is in order: what its maker has seen to, and each call keeps.
    ghost is_sound: { Self → Type 0 };

    /// The words of its source that are still to be drawn.
    ghost words: { Self → ℕ → ℕ };

    /// Which refusals it may answer.
    ghost refuses: { AskStop → Type 0 };

    /// That it tells the board's tasks.
    ghost tells_tasks: { Type 0 };

    /// That it tells the traces that a stop may leave.
    ghost tells_traces: { Type 0 };

    /// The moment, a number that never falls.
    ghost moment: { Self → ℕ };

    /// The traces that a stop at some moment from that one on might have left.
    ghost left_since: { Self → ℕ → List Entry → Type 0 };

    /// What holds between an earlier and a later state.
    ghost keeps: { Self → Self → Type 0 };

    /// Whether a record of the trace, or one that was made, stands at a path of at most 800 indexes, or
    /// below it. It takes no memory, and changes nothing but the path asked last.
    fn known(&mut self, path: &Path) -> Known
        requires sound { is_sound self.old }
        requires short { length path.now ≤ 800 }
        ensures known { result ≡ known_at (known_to (seen self.old)) path.now }
        ensures asked { seen self.new ≡ asked_at (seen self.old) path.now }
        ensures fits { (e : Entry) → fits self.new e ≡ fits self.old e }
        ensures words { (k : ℕ) → words self.new k ≡ words self.old k }
        ensures moment { tells_traces → moment self.new ≡ moment self.old }
        ensures traces { tells_traces → (m : ℕ) (t : List Entry) → left_since self.new m t → left_since self.old m t }
        ensures sound { is_sound self.new }
        ensures keeps { keeps self.old self.new };

    /// The record at the path asked last; None exactly where there is none, or nothing was asked. It
    /// takes no memory.
    fn kept(&self) -> Option<&Record>
        ensures { option_copied result ≡ record_in (known_to (seen self.now)) (seen self.now).asked };

    /// Posts a task and adds its record. Diverged comes where the board holds another text for the token.
    fn post(&mut self, path: &Path, token: &Units, text: &Units) -> Result<(), AskStop>
        requires sound { is_sound self.old }
        requires open { (seen self.old).closed ≡ false }
        requires new { at (known_to (seen self.old)) path.now ≡ None }
        requires none_below { below (known_to (seen self.old)) path.now ≡ false }
        requires within { IsWithin (entry path.now (Post text.now)) }
        requires token { IsTextWithin token.now }
        ensures adds { Adds (fits self.old) (fits self.new) (entry path.now (Post text.now)) (seen self.old) (seen self.new) (stop_of result) }
        ensures held { IsHeld path.now text.now (stop_of result) }
        ensures words { (k : ℕ) → words self.new k ≡ words self.old k }
        ensures tasks { tells_tasks → Posts token.now text.now (seen self.old).tasks (seen self.new).tasks (stop_of result) }
        ensures traces { tells_traces → Leaves moment left_since self.old self.new (Perhaps (stop_of result) (seen self.old) (entry path.now (Post text.now))) }
        ensures refusal { IfErr result (λ why. refuses why) }
        ensures sound { is_sound self.new }
        ensures keeps { keeps self.old self.new };

    /// The text that the snapshot has for the token, and its record is added; None exactly where the
    /// snapshot lacks the token, and then nothing is added.
    fn reply(&mut self, path: &Path, token: &Units) -> Result<Option<Units>, AskStop>
        requires sound { is_sound self.old }
        requires open { (seen self.old).closed ≡ false }
        requires new { at (known_to (seen self.old)) path.now ≡ None }
        requires none_below { below (known_to (seen self.old)) path.now ≡ false }
        requires path { IsCallPath path.now }
        requires token { IsTextWithin token.now }
        ensures replies { Replies (fits self.old) (fits self.new) path.now token.now (seen self.old) (seen self.new) result (answer (seen self.old).replies token.now) }
        ensures no_board { NoBoard (stop_of result) }
        ensures words { (k : ℕ) → words self.new k ≡ words self.old k }
        ensures tasks { tells_tasks → (seen self.new).tasks ≡ (seen self.old).tasks }
        ensures traces { tells_traces → Leaves moment left_since self.old self.new (WithReply (stop_of result) (seen self.old) path.now token.now (answer (seen self.old).replies token.now)) }
        ensures refusal { IfErr result (λ why. refuses why) }
        ensures sound { is_sound self.new }
        ensures keeps { keeps self.old self.new };

    /// A number from 0 to below the bound, which is at least 1: the next word modulo the bound. Its record is added.
    fn draw(&mut self, path: &Path, bound: Whole) -> Result<Whole, AskStop>
        requires sound { is_sound self.old }
        requires open { (seen self.old).closed ≡ false }
        requires new { at (known_to (seen self.old)) path.now ≡ None }
        requires none_below { below (known_to (seen self.old)) path.now ≡ false }
        requires path { IsCallPath path.now }
        requires bound { pos 1 ≤ℤ bound }
        ensures drawn { Drawn seen fits tells_traces moment left_since path.now bound self.old self.new result }
        ensures word { IfOk result (λ n. n ≡ int_rem (pos (words self.old 0)) bound) }
        ensures words { OnOk result ((k : ℕ) → words self.new k ≡ words self.old (1 + k)) }
        ensures no_board { NoBoard (stop_of result) }
        ensures tasks { tells_tasks → (seen self.new).tasks ≡ (seen self.old).tasks }
        ensures refusal { IfErr result (λ why. refuses why) }
        ensures sound { is_sound self.new }
        ensures keeps { keeps self.old self.new };

    /// Adds the record of a once call with this value.
    fn once_done(&mut self, path: &Path, value: &Data) -> Result<(), AskStop>
        requires sound { is_sound self.old }
        requires open { (seen self.old).closed ≡ false }
        requires new { at (known_to (seen self.old)) path.now ≡ None }
        requires within { IsWithin (entry path.now (Once value.now)) }
        ensures adds { Adds (fits self.old) (fits self.new) (entry path.now (Once value.now)) (seen self.old) (seen self.new) (stop_of result) }
        ensures no_board { NoBoard (stop_of result) }
        ensures words { (k : ℕ) → words self.new k ≡ words self.old k }
        ensures tasks { tells_tasks → (seen self.new).tasks ≡ (seen self.old).tasks }
        ensures traces { tells_traces → Leaves moment left_since self.old self.new (Perhaps (stop_of result) (seen self.old) (entry path.now (Once value.now))) }
        ensures refusal { IfErr result (λ why. refuses why) }
        ensures sound { is_sound self.new }
        ensures keeps { keeps self.old self.new };

    /// What an asker in order knows is within the limits.
    ghost within: { (s : Self) → is_sound s → KnowsWithin (seen s) };

    /// A stop now may leave the trace that is known.
    ghost known_left: { (s : Self) → tells_traces → is_sound s → (seen s).closed ≡ false → left_since s (moment s) (known_to (seen s)) };

    /// It leaves no other.
    ghost now_is: { (s : Self) (t : List Entry) → tells_traces → is_sound s → (seen s).closed ≡ false → left_since s (moment s) t → t ≡ known_to (seen s) };

    /// This moment is one of those since an earlier one.
    ghost counts_now: { (s : Self) (m : ℕ) (t : List Entry) → tells_traces → m ≤ moment s → left_since s (moment s) t → left_since s m t };

    ghost keeps_refl: { (s : Self) → keeps s s };

    ghost keeps_trans: { (a b c : Self) → keeps a b → keeps b c → keeps a c };
}
