//! What no clause says: each call answers with ample memory, over a table and over a recorder.
ghost use Rattle.std.specs.Prelude.{◌≡◌, ◌≤◌, ◌++◌, ◌∷◌, [], false, pos, length, IfOk, OnOk};
ghost use Rattle.turk_base.specs.declared.Record.TheVariants.{Draw, Once};
ghost use Rattle.record_bytes.specs.Limits.{IsRecordWithin};
ghost use Rattle.ask_model.specs.Asker.{entry, IsTrace, AreReplies};

use crate::asks::{draw_at, known_at, once_at, post_at, reply_at};
use crate::recorder::{Desk, Recorder, Shelf};
use crate::{AskStop, Asker, Known, TableAsker, Which};
use outside::{Draws, PcgDraws};
use std::alloc::Global;
use std::test::Fail;
use turk_base::{Data, Entry, NoMemory, Node, Path, Record, Replies, Units, Whole};

fn text_of(alloc: Global, text: &str) -> Result<Units, AskStop> {
    match Units::from_bytes(alloc, text.as_bytes()) {
        Ok(text) => Ok(text),
        Err(_) => Err(AskStop::Memory),
    }
}

fn path_of(alloc: Global, indexes: &[u32]) -> Result<Path, AskStop> {
    match Path::from_slice(alloc, indexes) {
        Ok(path) => Ok(path),
        Err(_) => Err(AskStop::Memory),
    }
}

// The one reply `red` to `s/0`.
fn one_reply(alloc: Global) -> Result<Replies, NoMemory>
    ensures { IfOk result (λ r. AreReplies r) }
{
    let token = Units::from_bytes(alloc, b"s/0")?;
    let text = Units::from_bytes(alloc, b"red")?;
    let mut replies = Replies::new(alloc);
    replies.add(token, text)?;
    Ok(replies)
}

fn push_draw(alloc: Global, entries: &mut Vec<Entry>, index: u32) -> Result<(), NoMemory>
    ensures { OnOk result (entries.new.items ≡ entries.old.items ++ entry (index ∷ []) (Draw (pos 2) (pos 1)) ∷ []) }
{
    let path = Path::from_slice(alloc, &[index])?;
    let what = Record::Draw(Whole::from_u32(2), Whole::from_u32(1));
    match entries.push(Entry { path, what }) {
        Ok(()) => Ok(()),
        Err(_) => Err(NoMemory),
    }
}

// So many draws, at paths of one index.
fn draws_made(alloc: Global, count: u32) -> Result<Vec<Entry>, NoMemory>
    requires { count ≤ 65536 }
    ensures { IfOk result (λ es. IsTrace es.items) }
{
    let mut entries = Vec::new(alloc);
    for i in 0..count {
        push_draw(alloc, &mut entries, i)?;
    }
    Ok(entries)
}

fn is_post(record: Option<&Record>, text: &Units) -> bool {
    match record {
        Some(Record::Post(kept)) => kept == text,
        _ => false,
    }
}

// Whether a post is known at its path, and round it.
fn knows_a_post<A: Asker>(alloc: Global, asker: &mut A) -> Result<bool, AskStop>
    requires sound { A.is_sound asker.old }
    requires open { (A.seen asker.old).closed ≡ false }
    ensures sound { A.is_sound asker.new }
    ensures open { OnOk result ((A.seen asker.new).closed ≡ false) }
{
    let text = text_of(alloc, "hi")?;
    let path = path_of(alloc, &[2, 0])?;
    let posted = post_at(asker, &path, &text, &text)?;
    let kept = is_post(asker.kept(), &text);
    let below = known_at(asker, alloc, &[2]) == Some(Known::Below);
    let none = asker.kept().is_none();
    let longer = known_at(asker, alloc, &[2, 0, 0]) == Some(Known::Nothing);
    let here = known_at(asker, alloc, &[2, 0]) == Some(Known::Here);
    Ok(posted && kept && below && none && longer && here)
}

// Whether the reply to `s/0` is given and kept, and none to `s/1`.
fn gives_the_reply<A: Asker>(alloc: Global, asker: &mut A) -> Result<bool, AskStop>
    requires sound { A.is_sound asker.old }
    requires open { (A.seen asker.old).closed ≡ false }
    ensures sound { A.is_sound asker.new }
    ensures open { OnOk result ((A.seen asker.new).closed ≡ false) }
{
    let red = text_of(alloc, "red")?;
    let missing = reply_at(asker, &path_of(alloc, &[3])?, &text_of(alloc, "s/1")?)?;
    let nothing = known_at(asker, alloc, &[3]) == Some(Known::Nothing);
    let reply = reply_at(asker, &path_of(alloc, &[3])?, &text_of(alloc, "s/0")?)?;
    let here = known_at(asker, alloc, &[3]) == Some(Known::Here);
    let red = match reply {
        Some(text) => text == red,
        None => false,
    };
    Ok(missing.is_none() && nothing && red && here)
}

// Whether a draw is the next word modulo the bound, and a once call's value is kept.
fn draws_and_keeps<A: Asker, W: Draws>(
    alloc: Global,
    asker: &mut A,
    words: &mut W,
    value: &Data,
) -> Result<bool, AskStop>
    requires sound { A.is_sound asker.old }
    requires open { (A.seen asker.old).closed ≡ false }
    requires within { IsRecordWithin (Once value.now) }
{
    let six = draw_at(asker, &path_of(alloc, &[4])?, Whole::from_u32(6))?;
    let ten = draw_at(asker, &path_of(alloc, &[5])?, Whole::from_u32(10))?;
    let kept = once_at(asker, &path_of(alloc, &[6])?, value)?;
    let first = (words.word() % 6) as i64;
    let second = (words.word() % 10) as i64;
    match (six, ten) {
        (Some(six), Some(ten)) => Ok(kept && six.get() == first && ten.get() == second),
        _ => Ok(false),
    }
}

#[tactic(auto, unfolding(turk_base::specs::Data::nesting, record_bytes::specs::Limits::IsDataWithin))]
fn null() -> Data
    ensures { IsRecordWithin (Once result) }
{
    Data::make(Node::Null)
}

#[test]
fn a_table_answers(rt: HostRuntime) -> Result<(), Fail> {
    let alloc = rt.alloc();
    let replies = one_reply(alloc)?;
    let mut draws = PcgDraws::new();
    let mut asker = TableAsker::new(alloc, Vec::new(alloc), &replies, &mut draws)?;
    assert!(rt; matches!(knows_a_post(alloc, &mut asker), Ok(true)));
    assert!(rt; matches!(gives_the_reply(alloc, &mut asker), Ok(true)));
    let asked = draws_and_keeps(alloc, &mut asker, &mut PcgDraws::new(), &null());
    assert!(rt; matches!(asked, Ok(true)));
    Ok(())
}

// Whether what is drawn at paths in increasing and then in decreasing order is found, and nothing else.
fn finds_in_any_order<A: Asker>(alloc: Global, asker: &mut A) -> Result<bool, AskStop>
    requires sound { A.is_sound asker.old }
    requires open { (A.seen asker.old).closed ≡ false }
{
    let first = draw_at(asker, &path_of(alloc, &[8, 1])?, Whole::from_u32(2))?;
    let greatest = draw_at(asker, &path_of(alloc, &[9, 1])?, Whole::from_u32(2))?;
    let less = draw_at(asker, &path_of(alloc, &[9, 0])?, Whole::from_u32(2))?;
    let least = draw_at(asker, &path_of(alloc, &[8, 0])?, Whole::from_u32(2))?;
    let made = first.is_some() && greatest.is_some() && less.is_some() && least.is_some();
    let low = known_at(asker, alloc, &[8, 0]) == Some(Known::Here);
    let high = known_at(asker, alloc, &[9, 1]) == Some(Known::Here);
    let below = known_at(asker, alloc, &[9]) == Some(Known::Below);
    let between = known_at(asker, alloc, &[8, 2]) == Some(Known::Nothing);
    let longer = known_at(asker, alloc, &[9, 1, 0]) == Some(Known::Nothing);
    Ok(made && low && high && below && between && longer)
}

#[test]
fn a_table_finds_paths_in_any_order(rt: HostRuntime) -> Result<(), Fail> {
    let alloc = rt.alloc();
    let replies = one_reply(alloc)?;
    let mut draws = PcgDraws::new();
    let mut asker = TableAsker::new(alloc, Vec::new(alloc), &replies, &mut draws)?;
    assert!(rt; matches!(finds_in_any_order(alloc, &mut asker), Ok(true)));
    Ok(())
}

// Whether one draw is made, and then a reply is refused but not asked where there is none.
fn fills_up<A: Asker>(alloc: Global, asker: &mut A) -> Result<bool, AskStop>
    requires sound { A.is_sound asker.old }
    requires open { (A.seen asker.old).closed ≡ false }
{
    let last = draw_at(asker, &path_of(alloc, &[70_000])?, Whole::from_u32(1))?;
    let missing = reply_at(asker, &path_of(alloc, &[70_001])?, &text_of(alloc, "s/1")?)?;
    let full = reply_at(asker, &path_of(alloc, &[70_001])?, &text_of(alloc, "s/0")?);
    let is_full = matches!(full, Err(AskStop::TraceFull));
    Ok(last.is_some() && missing.is_none() && is_full)
}

#[test]
fn a_table_holds_65536_records(rt: HostRuntime) -> Result<(), Fail> {
    let alloc = rt.alloc();
    let replies = one_reply(alloc)?;
    let mut draws = PcgDraws::new();
    let trace = draws_made(alloc, 65_535)?;
    let mut asker = TableAsker::new(alloc, trace, &replies, &mut draws)?;
    assert!(rt; matches!(fills_up(alloc, &mut asker), Ok(true)));
    Ok(())
}

fn desk(alloc: Global) -> Desk {
    Desk {
        tasks: Replies::new(alloc),
        is_down: false,
        faults: 0,
    }
}

fn is_fault(answer: Result<bool, AskStop>, device: Which) -> bool {
    match answer {
        Err(AskStop::Fault(which)) => which == device,
        _ => false,
    }
}

#[test]
fn a_recorder_fails_as_its_list_does(rt: HostRuntime) -> Result<(), Fail> {
    let alloc = rt.alloc();
    let replies = one_reply(alloc)?;
    let mut draws = PcgDraws::new();
    let mut shelf = Shelf::new(Vec::new(alloc), 9, 1)?;
    let mut desk = desk(alloc);
    let mut asker = Recorder::new(alloc, &mut shelf, &mut desk, &mut draws, &replies)?;
    assert!(rt; matches!(knows_a_post(alloc, &mut asker), Ok(true)));
    assert!(rt; is_fault(gives_the_reply(alloc, &mut asker), Which::Disk));
    Ok(())
}
