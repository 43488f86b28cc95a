//! What no clause says: with ample memory each answer comes.
ghost use Rattle.std.specs.Prelude.{◌≡◌, IfOk};
ghost use Rattle.ask_model.specs.Asker.{AreReplies};

use crate::{Report, Stop, plain};
use machine_host::Wait;
use outside::PcgDraws;
use run_host::Refusal;
use script_front::ScriptStop;
use script_run::End;
use std::alloc::Global;
use std::test::Fail;
use turk_base::{Name, Replies, Settings, Units, Verdict};

/// How a run is to end.
enum Wanted {
    Finished,
    /// By a thrown value of which this text is told.
    Uncaught(&'static [u8]),
    Refused(Refusal),
    /// It waits for the reply to this token alone.
    WaitsFor(&'static [u8]),
    /// It crashed once, in the scope of the script.
    Crashed,
    Spent,
}

/// A script, whether `s/0` has the reply `red`, the fuel, and what is to be told.
struct Row {
    script: &'static [u8],
    replied: bool,
    fuel: u64,
    end: Wanted,
    out: &'static [u8],
    forks: u64,
    made: u32,
}

const SUM: &[u8] = b"print(1 + 2);";

const ASKS: &[u8] = b"print(prompt(\"colour?\"));";

const ROWS: [Row; 12] = [
    Row {
        script: SUM,
        replied: false,
        fuel: 5_000_000,
        end: Wanted::Finished,
        out: b"3\n",
        forks: 0,
        made: 0,
    },
    Row {
        script: SUM,
        replied: false,
        fuel: 9,
        end: Wanted::Finished,
        out: b"3\n",
        forks: 0,
        made: 0,
    },
    Row {
        script: SUM,
        replied: false,
        fuel: 8,
        end: Wanted::Spent,
        out: b"",
        forks: 0,
        made: 0,
    },
    Row {
        script: ASKS,
        replied: false,
        fuel: 5_000_000,
        end: Wanted::WaitsFor(b"s/0"),
        out: b"",
        forks: 0,
        made: 1,
    },
    Row {
        script: ASKS,
        replied: true,
        fuel: 5_000_000,
        end: Wanted::Finished,
        out: b"red\n",
        forks: 0,
        made: 2,
    },
    Row {
        script: b"print(1); nope();",
        replied: false,
        fuel: 5_000_000,
        end: Wanted::Uncaught(b"ReferenceError: nope is not defined"),
        out: b"1\n",
        forks: 0,
        made: 0,
    },
    Row {
        script: b"print(2); print(9007199254740992 + 1);",
        replied: false,
        fuel: 5_000_000,
        end: Wanted::Refused(Refusal::NotWhole),
        out: b"2\n",
        forks: 0,
        made: 0,
    },
    Row {
        script: b"print(1); crash();",
        replied: false,
        fuel: 5_000_000,
        end: Wanted::Crashed,
        out: b"1\n",
        forks: 0,
        made: 0,
    },
    Row {
        script: b"while (true) {}",
        replied: false,
        fuel: 1000,
        end: Wanted::Spent,
        out: b"",
        forks: 0,
        made: 0,
    },
    Row {
        script: b"print(\"\\uD800\");",
        replied: false,
        fuel: 5_000_000,
        end: Wanted::Finished,
        out: b"\xEF\xBF\xBD\n",
        forks: 0,
        made: 0,
    },
    Row {
        script: b"var r = random(6); print(r == random(1) + r, r < 6, r >= 0);",
        replied: false,
        fuel: 5_000_000,
        end: Wanted::Finished,
        out: b"true true true\n",
        forks: 0,
        made: 2,
    },
    Row {
        script: b"fork(function () { post(\"a\"); }); print(once(function () { return 8; }));",
        replied: false,
        fuel: 5_000_000,
        end: Wanted::Finished,
        out: b"8\n",
        forks: 1,
        made: 2,
    },
];

/// The one reply `red` to `s/0`, or none.
fn replies_of(alloc: Global, replied: bool) -> Result<Replies, Fail>
    ensures { IfOk result (λ r. AreReplies r) }
{
    let mut replies = Replies::new(alloc);
    if replied {
        let token = Units::from_bytes(alloc, b"s/0")?;
        let text = Units::from_bytes(alloc, b"red")?;
        replies.add(token, text)?;
    }
    Ok(replies)
}

fn run_of(
    alloc: Global,
    script: &[u8],
    replied: bool,
    fuel: u64,
) -> Result<Result<Report, Stop>, Fail> {
    let replies = replies_of(alloc, replied)?;
    let settings = Settings {
        name: Name::read(alloc, "s")?,
        fuel: fuel.min(20_000_000),
        dice: 1,
    };
    let mut draws = PcgDraws::new();
    Ok(plain(alloc, script, &replies, &settings, &mut draws))
}

fn waits_so(waits: &[Wait], token: Option<&Units>) -> bool {
    match (waits, token) {
        ([Wait::Task(asked)], Some(token)) => *asked == *token,
        ([Wait::Crashed(path)], None) => path.len() == 0,
        _ => false,
    }
}

fn ends_so(alloc: Global, end: &End, wanted: &Wanted) -> Result<bool, Fail> {
    Ok(match (end, wanted) {
        (End::Finished, Wanted::Finished) => true,
        (End::Uncaught(text), Wanted::Uncaught(told)) => *text == Units::from_bytes(alloc, told)?,
        (End::Refused(why), Wanted::Refused(told)) => *why == *told,
        (End::Waiting(waits), Wanted::WaitsFor(token)) => {
            waits_so(waits.as_slice(), Some(&Units::from_bytes(alloc, token)?))
        }
        (End::Waiting(waits), Wanted::Crashed) => waits_so(waits.as_slice(), None),
        (End::Spent, Wanted::Spent) => true,
        _ => false,
    })
}

#[test]
fn reports(rt: HostRuntime) -> Result<(), Fail> {
    for row in &ROWS {
        match run_of(rt.alloc(), row.script, row.replied, row.fuel)? {
            Ok(report) => {
                assert!(rt; ends_so(rt.alloc(), &report.end, &row.end)?);
                assert!(rt; report.output.as_slice() == row.out);
                assert!(rt; report.forks == row.forks);
                assert!(rt; report.made == row.made);
                assert!(rt; report.posted == 0);
                assert!(rt; matches!(report.verdict, Verdict::Independent));
            }
            Err(_) => panic!(rt; "no report"),
        }
    }
    Ok(())
}

/// Scripts that are none, and why.
const FAULTS: [(&[u8], ScriptStop); 3] = [
    (b"var = 1;", ScriptStop::Syntax(4)),
    (b"print(1.5);", ScriptStop::NumberForm(6)),
    (b"p\xFF", ScriptStop::NotUtf8(1)),
];

#[test]
fn tells_why_bytes_are_no_script(rt: HostRuntime) -> Result<(), Fail> {
    for (script, fault) in &FAULTS {
        match run_of(rt.alloc(), script, false, 5_000_000)? {
            Err(Stop::Script(why)) => assert_eq!(rt; why, *fault),
            _ => panic!(rt; "no fault"),
        }
    }
    Ok(())
}

/// Whether the verdict is that the first branch of the script threw.
fn is_first_branch(verdict: &Verdict) -> bool {
    match verdict {
        Verdict::BranchThrew(path) => path.as_slice() == [0].as_slice(),
        _ => false,
    }
}

/// A branch that throws, and what is printed of it.
const THROWS: &[u8] =
    b"try { fork(function () { throw new Error(\"x\"); }); } catch (e) { print(e.message); } print(join().length);";

#[test]
fn tells_of_a_branch_that_threw(rt: HostRuntime) -> Result<(), Fail> {
    match run_of(rt.alloc(), THROWS, false, 5_000_000)? {
        Ok(report) => {
            assert!(rt; report.output.as_slice() == b"x\n0\n".as_slice());
            assert!(rt; report.forks == 1);
            assert!(rt; is_first_branch(&report.verdict));
        }
        Err(_) => panic!(rt; "no report"),
    }
    Ok(())
}
