// What no clause says: that the definitions give these values, worked by hand, and that each call that takes memory succeeds with ample memory.
ghost use Rattle.std.specs.Prelude.{◌<◌, ◌^◌, length};

use crate::{
    Bytes, Data, Entry, Name, NameStop, NoMemory, Node, Path, Record, Replies, SlotKey, SlotName,
    TextStop, Units, Verdict, Whole, token,
};
use std::alloc::Global;

fn units(alloc: Global, bytes: &[u8]) -> Units {
    match Units::from_bytes(alloc, bytes) {
        Ok(units) => units,
        Err(_) => Units::new(alloc),
    }
}

fn path(alloc: Global, items: &[u32]) -> Path {
    match Path::from_slice(alloc, items) {
        Ok(path) => path,
        Err(_) => Path::new(alloc),
    }
}

fn token_is(alloc: Global, items: &[u32], wanted: &[u8]) -> bool {
    match Name::read(alloc, "s") {
        Ok(name) => match token(alloc, &name, &path(alloc, items)) {
            Ok(found) => found == units(alloc, wanted),
            Err(_) => false,
        },
        Err(_) => false,
    }
}

fn decodes(alloc: Global, bytes: &[u8], wanted: &[u16]) -> bool
    requires { length bytes.now < 2 ^ 32 }
{
    match Units::from_utf8(alloc, bytes) {
        Ok(found) => found.as_slice() == wanted,
        Err(_) => false,
    }
}

fn refused(alloc: Global, bytes: &[u8], place: u32) -> bool
    requires { length bytes.now < 2 ^ 32 }
{
    match Units::from_utf8(alloc, bytes) {
        Ok(_) => false,
        Err(stop) => stop == TextStop::NotUtf8(place),
    }
}

fn encodes(alloc: Global, items: &[u16], wanted: &[u8]) -> bool {
    match Units::from_slice(alloc, items) {
        Ok(text) => match text.to_utf8(alloc) {
            Ok(bytes) => bytes.as_slice() == wanted,
            Err(_) => false,
        },
        Err(_) => false,
    }
}

fn is_name(alloc: Global, text: &str) -> bool {
    match Name::read(alloc, text) {
        Ok(name) => match name.copy(alloc) {
            Ok(copy) => copy.as_slice() == text.as_bytes(),
            Err(_) => false,
        },
        Err(stop) => stop != NameStop::Bad,
    }
}

fn is_units(answer: Result<Units, NoMemory>, wanted: &[u16]) -> bool {
    match answer {
        Ok(found) => found.as_slice() == wanted,
        Err(_) => false,
    }
}

fn is_bytes(answer: Result<Bytes, NoMemory>, wanted: &[u8]) -> bool {
    match answer {
        Ok(found) => found.as_slice() == wanted,
        Err(_) => false,
    }
}

fn is_path(answer: Result<Path, NoMemory>, wanted: &[u32]) -> bool {
    match answer {
        Ok(found) => found.as_slice() == wanted,
        Err(_) => false,
    }
}

fn is_number(data: &Data, wanted: i64) -> bool {
    match data.node() {
        Node::Number(number) => number.get() == wanted,
        _ => false,
    }
}

fn is_once(what: &Record, wanted: i64) -> bool {
    match what {
        Record::Once(data) => is_number(data, wanted),
        _ => false,
    }
}

fn is_slot(slot: &SlotName, number: u32) -> bool {
    slot.number == number && slot.scope.as_slice() == [3].as_slice() && is_key(&slot.key)
}

fn is_key(key: &SlotKey) -> bool {
    match key {
        SlotKey::Shape => false,
        SlotKey::Key(units) => units.as_slice() == [107].as_slice(),
    }
}

fn is_open(verdict: &Verdict, number: u32) -> bool {
    match verdict {
        Verdict::TouchedOpen(slot) => is_slot(slot, number),
        _ => false,
    }
}

#[test]
fn bytes_and_units(rt: HostRuntime) {
    let alloc = rt.alloc();
    assert!(rt;
        decodes(
            alloc,
            &[97, 0xC3, 0xA9, 0xF0, 0x9F, 0x98, 0x80],
            &[97, 0xE9, 0xD83D, 0xDE00]
        )
    );
    assert!(rt; refused(alloc, &[0x70, 0xFF], 1));
    assert!(rt; refused(alloc, &[97, 0xC0, 0x80], 1));
    assert!(rt; refused(alloc, &[0xED, 0xA0, 0x80], 0));
    assert!(rt; refused(alloc, &[97, 98, 0xE2, 0x82], 2));
    assert!(rt; encodes(alloc, &[0xD800], &[0xEF, 0xBF, 0xBD]));
    assert!(rt; encodes(alloc, &[0xD83D, 0xDE00], &[0xF0, 0x9F, 0x98, 0x80]));
}

#[test]
fn tokens_and_names(rt: HostRuntime) {
    let alloc = rt.alloc();
    assert!(rt; token_is(alloc, &[], b"s/"));
    assert!(rt; token_is(alloc, &[4, 0, 12], b"s/4.0.12"));
    assert!(rt; is_name(alloc, "a-Z_09"));
    assert!(rt; !is_name(alloc, ""));
    assert!(rt; !is_name(alloc, "a b"));
    assert!(rt; !is_name(alloc, "123456789012345678901234567890123"));
    assert!(rt; path(alloc, &[1]).begins(&path(alloc, &[1, 2])));
    assert!(rt; !path(alloc, &[1, 2]).begins(&path(alloc, &[1])));
}

#[test]
fn lists_are_made(rt: HostRuntime) {
    let alloc = rt.alloc();
    assert!(rt; is_units(Units::from_slice(alloc, &[1, 700]), &[1, 700]));
    assert!(rt; is_units(Units::from_bytes(alloc, b"ab"), &[97, 98]));
    assert!(rt; is_bytes(Bytes::from_slice(alloc, &[7, 8]), &[7, 8]));
    assert!(rt; is_path(Path::from_slice(alloc, &[4, 0]), &[4, 0]));
    assert!(rt; is_units(units(alloc, b"ab").copy(alloc), &[97, 98]));
    assert!(rt; is_path(path(alloc, &[4, 0]).copy(alloc), &[4, 0]));
    assert!(rt; is_path(path(alloc, &[4]).child(alloc, 2), &[4, 2]));
}

#[test]
fn bytes_grow(rt: HostRuntime) {
    let alloc = rt.alloc();
    let mut bytes = Bytes::new(alloc);
    assert!(rt; bytes.push(7).is_ok());
    assert!(rt; bytes.push_slice(&[8, 9]).is_ok());
    let more = Bytes::from_vec(Vec::new(alloc));
    assert!(rt; bytes.append(&more).is_ok());
    assert!(rt; is_bytes(bytes.copy(alloc), &[7, 8, 9]));
}

#[test]
fn texts_grow(rt: HostRuntime) {
    let alloc = rt.alloc();
    let mut text = units(alloc, b"a");
    assert!(rt; text.push(98).is_ok());
    assert!(rt; text.push_slice(&[99]).is_ok());
    assert!(rt; text.push_bytes(b"d").is_ok());
    assert!(rt; text.append(&units(alloc, b"e")).is_ok());
    assert!(rt; text == units(alloc, b"abcde"));
}

#[test]
fn paths_grow(rt: HostRuntime) {
    let alloc = rt.alloc();
    let mut place = path(alloc, &[1]);
    assert!(rt; place.push(2).is_ok());
    assert!(rt; place.push_slice(&[3]).is_ok());
    assert!(rt; place.append(&path(alloc, &[4])).is_ok());
    assert!(rt; place.as_slice() == [1, 2, 3, 4].as_slice());
}

#[test]
fn the_first_reply_counts(rt: HostRuntime) {
    let alloc = rt.alloc();
    let mut replies = Replies::new(alloc);
    assert!(rt; replies.add(units(alloc, b"t"), units(alloc, b"x")).is_ok());
    assert!(rt; replies.add(units(alloc, b"t"), units(alloc, b"y")).is_ok());
    assert!(rt;
        replies
            .find(&units(alloc, b"t"))
            .is_some_and(|found| *found == units(alloc, b"x"))
    );
    assert!(rt; replies.find(&units(alloc, b"u")).is_none());
}

fn number_copies(alloc: Global, number: u32) -> bool {
    match Data::make(Node::Number(Whole::from_u32(number))).copy(alloc) {
        Ok(copy) => is_number(&copy, number as i64),
        Err(_) => false,
    }
}

fn entry_copies(alloc: Global) -> bool {
    let entry = Entry {
        path: path(alloc, &[3]),
        what: Record::Once(Data::make(Node::Number(Whole::from_u32(7)))),
    };
    match entry.copy(alloc) {
        Ok(copy) => copy.path == entry.path && is_once(&copy.what, 7),
        Err(_) => false,
    }
}

fn record_copies(alloc: Global) -> bool {
    match Record::Once(Data::make(Node::Number(Whole::from_u32(9)))).copy(alloc) {
        Ok(copy) => is_once(&copy, 9),
        Err(_) => false,
    }
}

fn slot(alloc: Global) -> SlotName {
    SlotName {
        scope: path(alloc, &[3]),
        number: 8,
        key: SlotKey::Key(units(alloc, b"k")),
    }
}

fn key_copies(alloc: Global) -> bool {
    match SlotKey::Key(units(alloc, b"k")).copy(alloc) {
        Ok(copy) => is_key(&copy),
        Err(_) => false,
    }
}

fn slot_copies(alloc: Global) -> bool {
    match slot(alloc).copy(alloc) {
        Ok(copy) => is_slot(&copy, 8),
        Err(_) => false,
    }
}

fn verdict_copies(alloc: Global) -> bool {
    match Verdict::TouchedOpen(slot(alloc)).copy(alloc) {
        Ok(copy) => is_open(&copy, 8),
        Err(_) => false,
    }
}

#[test]
fn trees_are_copied(rt: HostRuntime) {
    let alloc = rt.alloc();
    assert!(rt; number_copies(alloc, 7));
    assert!(rt; record_copies(alloc));
    assert!(rt; entry_copies(alloc));
    assert!(rt; key_copies(alloc));
    assert!(rt; slot_copies(alloc));
    assert!(rt; verdict_copies(alloc));
}
