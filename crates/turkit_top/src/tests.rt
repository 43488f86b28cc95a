//! What no clause says: with ample memory each answer comes, with its output and its notes, worked by hand.

use super::*;
use board_model::MemoryBoard;
use disk_model::MemoryDisk;
use outside::{MemorySink, MemorySource, PcgDraws};
use std::alloc::Global;
use std::test::Fail;
use turk_base::Bytes;

/// The words of a command, its two files, the calls at which the sources and the sinks fail, and what is to come.
#[derive(Drop)]
struct Row {
    words: &'static [&'static str],
    script: &'static [u8],
    events: &'static [u8],
    fails: [&'static [u32]; 4],
    status: Status,
    out: &'static [u8],
    notes: &'static [u8],
}

/// A script alone.
const PLAIN: &[&str] = &["plain", "a.js"];

/// A script and its replies.
const REPLIED: &[&str] = &["plain", "a.js", "a.replies"];

const SUM: &[u8] = b"print(1 + 2);";

const ASK: &[u8] = b"print(prompt(\"colour?\"));";

const RED: &[u8] = b"[\"s/0\",\"red\"]\n";

const NO_FAILS: [&[u32]; 4] = [&[], &[], &[], &[]];

/// How words that are no command are answered.
const USAGE: &[u8] =
    b"usage: turkit plain SCRIPT [REPLIES] [OPTIONS]\n       turkit run SCRIPT REPLIES JOURNAL TASKS [OPTIONS]\n       turkit play SCRIPT EVENTS [OPTIONS]\n       turkit show SCRIPT REPLIES JOURNAL\n       turkit make N\noptions: --fuel N  --name X  --dice N\n";

/// A script that ends and has no notes.
fn prints(script: &'static [u8], out: &'static [u8]) -> Row {
    Row {
        words: PLAIN,
        script,
        events: b"",
        fails: NO_FAILS,
        status: Status::Finished,
        out,
        notes: b"",
    }
}

/// A script that comes to a status with an output and notes.
fn comes_to(
    script: &'static [u8],
    status: Status,
    out: &'static [u8],
    notes: &'static [u8],
) -> Row {
    Row {
        words: PLAIN,
        script,
        events: b"",
        fails: NO_FAILS,
        status,
        out,
        notes,
    }
}

/// Words over a script and replies that come to a status with an output and notes.
fn command(
    words: &'static [&'static str],
    script: &'static [u8],
    events: &'static [u8],
    status: Status,
    out: &'static [u8],
    notes: &'static [u8],
) -> Row {
    Row {
        words,
        script,
        events,
        fails: NO_FAILS,
        status,
        out,
        notes,
    }
}

/// A row whose sources and sinks fail at these calls.
fn failing(fails: [&'static [u32]; 4], row: Row) -> Row {
    Row {
        words: row.words,
        script: row.script,
        events: row.events,
        fails,
        status: row.status,
        out: row.out,
        notes: row.notes,
    }
}

/// Runs a row, and says whether what was to come came.
fn is_met(alloc: Global, row: &Row) -> Result<bool, Fail> {
    let mut script = MemorySource::new(alloc, row.script, row.fails[0])?;
    let mut events = MemorySource::new(alloc, row.events, row.fails[1])?;
    let mut disk = MemoryDisk::new(alloc, b"")?;
    let mut board = MemoryBoard::new(alloc, &[])?;
    let mut draws = PcgDraws::new();
    let mut out = MemorySink::new(alloc, row.fails[2])?;
    let mut notes = MemorySink::new(alloc, row.fails[3])?;
    let status = turkit(
        alloc,
        row.words,
        &mut script,
        &mut events,
        &mut disk,
        &mut board,
        &mut draws,
        &mut out,
        &mut notes,
    );
    Ok(status == row.status && out.bytes() == row.out && notes.bytes() == row.notes)
}

#[test]
fn each_row_comes_to_its_answer(rt: HostRuntime) -> Result<(), Fail> {
    let table = [
        prints(SUM, b"3\n"),
        prints(b"", b""),
        prints(b"var a = 1\nvar b = a\n++b\nprint(a, b)", b"1 2\n"),
        prints(b"print(-7 % 3, 1 << 33, -1 >>> 0);", b"-1 2 4294967295\n"),
        prints(
            b"function f() { try { return 1; } finally { return 2; } } print(f());",
            b"2\n",
        ),
        prints(b"print(\"\\uD800\");", b"\xEF\xBF\xBD\n"),
        prints(
            b"var o = {b: 1, a: 2}; delete o.b; o.b = 3; var s = \"\"; for (var k in o) s += k + o[k]; print(s, [3, 4, 5].slice(-2).join(\"+\"), \"a,b\".split(\",\").length, String.fromCharCode(72, 105));",
            b"a2b3 4+5 2 Hi\n",
        ),
        prints(
            b"fork(function () { fork(function () { print(2); }); print(1); }); print(0);",
            b"2\n1\n0\n",
        ),
        comes_to(
            b"print(1); print(9007199254740992 + 1);",
            Status::Ended,
            b"1\n",
            b"refused NotWhole\n",
        ),
        comes_to(
            b"once(function () { return function () {}; });",
            Status::Ended,
            b"",
            b"refused NotData\n",
        ),
        comes_to(
            b"nope();",
            Status::Ended,
            b"",
            b"uncaught \"ReferenceError: nope is not defined\"\n",
        ),
        comes_to(
            b"try { prompt(\"q\"); } finally { print(\"f\"); }",
            Status::Waiting,
            b"",
            b"waiting s/0\n",
        ),
        comes_to(
            b"fork(function () { print(\"in\"); crash(); }); print(\"out\");",
            Status::Waiting,
            b"",
            b"waiting crash 0\n",
        ),
        comes_to(
            b"try { fork(function () { throw new Error(\"x\"); }); } catch (e) { print(e.name + \" \" + e.message); } print(join().length);",
            Status::Finished,
            b"Error x\n0\n",
            b"dependent BranchThrew 0\n",
        ),
        comes_to(
            b"var o = {}; fork(function () { o.k = 1; }); print(o.k);",
            Status::Finished,
            b"1\n",
            b"dependent TouchedOpen -:8 \"k\"\n",
        ),
        comes_to(
            b"var = 1;",
            Status::Syntax,
            b"",
            b"syntax error at byte 4\n",
        ),
        comes_to(
            b"with (a) {}",
            Status::Syntax,
            b"",
            b"left out at byte 0: With\n",
        ),
        comes_to(b"p\xFF", Status::Syntax, b"", b"not UTF-8 at byte 1\n"),
        comes_to(b"'a", Status::Syntax, b"", b"bad token at byte 0\n"),
        comes_to(
            b"var x = 017;",
            Status::Syntax,
            b"",
            b"number form at byte 8\n",
        ),
        command(
            &["plain", "a.js", "--fuel", "9"],
            SUM,
            b"",
            Status::Finished,
            b"3\n",
            b"",
        ),
        command(
            &["plain", "a.js", "--fuel=8"],
            SUM,
            b"",
            Status::Spent,
            b"",
            b"spent\n",
        ),
        command(
            &["plain", "a.js", "--name", "t", "--dice", "0"],
            ASK,
            b"",
            Status::Waiting,
            b"",
            b"waiting t/0\n",
        ),
        command(REPLIED, ASK, RED, Status::Finished, b"red\n", b""),
        command(
            REPLIED,
            ASK,
            b"[\"s/0\",\"red\"]\n{\"x\":1}",
            Status::BadLine,
            b"",
            b"line 2 unreadable\n",
        ),
        command(&[], SUM, b"", Status::Usage, b"", USAGE),
        command(
            &["run", "a.js", "b", "c", "d"],
            SUM,
            b"",
            Status::NotBuilt,
            b"",
            b"not built\n",
        ),
        failing(
            [&[1], &[], &[], &[]],
            comes_to(SUM, Status::ReadFault, b"", b"read fault\n"),
        ),
        failing(
            [&[], &[1], &[], &[]],
            command(REPLIED, ASK, RED, Status::ReadFault, b"", b"read fault\n"),
        ),
        failing([&[], &[1], &[], &[]], prints(SUM, b"3\n")),
        failing(
            [&[], &[], &[1], &[]],
            comes_to(SUM, Status::WriteFault, b"", b""),
        ),
        failing(
            [&[], &[], &[], &[1]],
            comes_to(b"print(1); nope();", Status::WriteFault, b"1\n", b""),
        ),
    ];
    for row in &table {
        assert!(rt; is_met(rt.alloc(), row)?);
    }
    Ok(())
}

#[test]
fn a_run_makes_so_many_records_and_no_more(rt: HostRuntime) -> Result<(), Fail> {
    let table = [
        prints(
            b"for (var i = 0; i < 65536; i++) random(2); print(i);",
            b"65536\n",
        ),
        comes_to(
            b"for (var i = 0; i < 65537; i++) random(2); print(i);",
            Status::Full,
            b"",
            b"trace full\n",
        ),
    ];
    for row in &table {
        assert!(rt; is_met(rt.alloc(), row)?);
    }
    Ok(())
}

/// A script that repeats a text, what follows it, and the note that is to come.
#[derive(Drop)]
struct Long {
    part: &'static [u8],
    times: usize,
    last: &'static [u8],
    status: Status,
    notes: &'static [u8],
}

const LONG: [Long; 3] = [
    Long {
        part: b"- ",
        times: 201,
        last: b"1",
        status: Status::Syntax,
        notes: b"nesting over 200\n",
    },
    Long {
        part: b"function f(a,b,c,d,e,g,h,i){}",
        times: 8192,
        last: b"",
        status: Status::Syntax,
        notes: b"too many names\n",
    },
    Long {
        part: b"        ",
        times: 131_072,
        last: b" ",
        status: Status::TooLarge,
        notes: b"script too large\n",
    },
];

/// Runs a long script, and says whether what was to come came.
fn is_long_met(alloc: Global, row: &Long) -> Result<bool, Fail> {
    let mut text = Bytes::new(alloc);
    for _ in 0..row.times {
        text.push_slice(row.part)?;
    }
    text.push_slice(row.last)?;
    let mut script = MemorySource::new(alloc, text.as_slice(), &[])?;
    let mut events = MemorySource::new(alloc, b"", &[])?;
    let mut disk = MemoryDisk::new(alloc, b"")?;
    let mut board = MemoryBoard::new(alloc, &[])?;
    let mut draws = PcgDraws::new();
    let mut out = MemorySink::new(alloc, &[])?;
    let mut notes = MemorySink::new(alloc, &[])?;
    let status = turkit(
        alloc,
        PLAIN,
        &mut script,
        &mut events,
        &mut disk,
        &mut board,
        &mut draws,
        &mut out,
        &mut notes,
    );
    Ok(status == row.status && out.bytes() == b"".as_slice() && notes.bytes() == row.notes)
}

#[test]
fn long_scripts_have_their_limits(rt: HostRuntime) -> Result<(), Fail> {
    for row in &LONG {
        assert!(rt; is_long_met(rt.alloc(), row)?);
    }
    Ok(())
}
