//! What no clause says: that the definitions give these texts, worked by hand from the rules, and
//! that each call succeeds with ample memory.
use crate::{
    push_crashed, push_dependent, push_number, push_path, push_quoted, push_uncaught, push_waiting,
};
use std::alloc::Global;
use std::test::Fail;
use turk_base::{Bytes, NoMemory, Path, SlotKey, SlotName, Units, Verdict};

// what is added to a text
#[derive(Clone, Copy)]
enum Part<'a> {
    Number(u64),
    Place(&'a [u32]),
    Quoted(&'a [u16]),
    Independent,
    Touched(&'a [u32], u32),
    Once(&'a [u32], u32, &'a [u16]),
    Threw(&'a [u32]),
    Waiting(&'a [u16]),
    Crashed(&'a [u32]),
    Uncaught(&'a [u16]),
}

fn slot(scope: Path, number: u32, key: SlotKey) -> SlotName {
    SlotName { scope, number, key }
}

fn add(alloc: Global, text: &mut Units, part: Part<'_>) -> Result<(), NoMemory> {
    match part {
        Part::Number(number) => push_number(text, number),
        Part::Place(path) => push_path(text, &Path::from_slice(alloc, path)?),
        Part::Quoted(units) => push_quoted(text, &Units::from_slice(alloc, units)?),
        Part::Independent => push_dependent(text, &Verdict::Independent),
        Part::Touched(scope, number) => {
            let scope = Path::from_slice(alloc, scope)?;
            let slot = slot(scope, number, SlotKey::Shape);
            push_dependent(text, &Verdict::TouchedOpen(slot))
        }
        Part::Once(scope, number, key) => {
            let scope = Path::from_slice(alloc, scope)?;
            let key = Units::from_slice(alloc, key)?;
            let slot = slot(scope, number, SlotKey::Key(key));
            push_dependent(text, &Verdict::OnceWhileOpen(slot))
        }
        Part::Threw(path) => {
            let path = Path::from_slice(alloc, path)?;
            push_dependent(text, &Verdict::BranchThrew(path))
        }
        Part::Waiting(token) => push_waiting(text, &Units::from_slice(alloc, token)?),
        Part::Crashed(scope) => push_crashed(text, &Path::from_slice(alloc, scope)?),
        Part::Uncaught(thrown) => push_uncaught(text, &Units::from_slice(alloc, thrown)?),
    }
}

// a text that begins with `>` and the part, in UTF-8
fn added(alloc: Global, part: Part<'_>) -> Result<Bytes, NoMemory> {
    let mut text = Units::from_bytes(alloc, b">")?;
    add(alloc, &mut text, part)?;
    text.to_utf8(alloc)
}

#[test]
fn parts_are_added(rt: HostRuntime) -> Result<(), Fail> {
    let table: [(Part<'_>, &[u8]); 23] = [
        (Part::Number(0), b">0"),
        (
            Part::Number(18_446_744_073_709_551_615),
            b">18446744073709551615",
        ),
        (Part::Place(&[]), b">-"),
        (Part::Place(&[0]), b">0"),
        (Part::Place(&[3, 0, 4_294_967_295]), b">3.0.4294967295"),
        (Part::Quoted(&[]), b">\"\""),
        (Part::Quoted(&[97, 34, 92, 98]), b">\"a\\\"\\\\b\""),
        (Part::Quoted(&[10, 0, 31]), b">\"\\u000a\\u0000\\u001f\""),
        (Part::Quoted(&[32, 127, 233]), b">\" \x7F\xC3\xA9\""),
        (Part::Quoted(&[0xD83D, 0xDE00]), b">\"\xF0\x9F\x98\x80\""),
        (
            Part::Quoted(&[0xDBFF, 0xDFFF, 97]),
            b">\"\xF4\x8F\xBF\xBFa\"",
        ),
        (Part::Quoted(&[97, 0xD83D]), b">\"a\\ud83d\""),
        (Part::Quoted(&[97, 0xDE00]), b">\"a\\ude00\""),
        (
            Part::Quoted(&[0xDFFF, 0xDBFF, 0xE000]),
            b">\"\\udfff\\udbff\xEE\x80\x80\"",
        ),
        (
            Part::Quoted(&[0xD800, 0xD83D, 0xDE00]),
            b">\"\\ud800\xF0\x9F\x98\x80\"",
        ),
        (Part::Independent, b">"),
        (Part::Touched(&[], 7), b">dependent TouchedOpen -:7 shape\n"),
        (
            Part::Once(&[1, 2], 0, &[97, 10]),
            b">dependent OnceWhileOpen 1.2:0 \"a\\u000a\"\n",
        ),
        (Part::Threw(&[0, 1]), b">dependent BranchThrew 0.1\n"),
        (Part::Waiting(&[115, 47, 48, 46, 49]), b">waiting s/0.1\n"),
        (Part::Crashed(&[]), b">waiting crash -\n"),
        (Part::Crashed(&[2, 5]), b">waiting crash 2.5\n"),
        (Part::Uncaught(&[110, 111]), b">uncaught \"no\"\n"),
    ];
    for (i, (part, wanted)) in table.into_iter().enumerate() {
        assert_eq!(rt; added(rt.alloc(), part)?.as_slice(), wanted, "at {i}");
    }
    Ok(())
}
