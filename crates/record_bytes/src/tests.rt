//! Worked spellings, bytes that spell nothing, and that each call that takes memory succeeds with ample memory.
ghost use Rattle.std.specs.Prelude.{IfSome};
ghost use Rattle.record_bytes.specs.Limits.{IsHeadWithin};

use crate::{Head, decode, decode_head, decode_task, encode, encode_head, encode_task};
use std::alloc::Global;
use std::test::Fail;
use turk_base::{Bytes, Data, Name, NoMemory, Node, Record};

const POST: [u8; 15] = [0x01, 0, 1, 0, 0, 0, 0, 0, 0, 0, 2, 0, 0x68, 0, 0x69];

const ONCE: [u8; 32] = [
    0x04, 0, 2, 0, 0, 0, 2, 0, 0, 0, 0, 6, 0, 0, 0, 2, 4, 0, 0, 0, 0, 0, 0, 0, 1, 5, 0, 0, 0, 1, 0,
    0x61,
];

// Whether the record that the bytes spell is Post("hi") at path 0.
fn is_post(alloc: Global, bytes: &[u8]) -> bool {
    match decode(alloc, bytes) {
        Ok(Some(entry)) => match &entry.what {
            Record::Post(text) => {
                entry.path.as_slice() == [0_u32].as_slice()
                    && text.as_slice() == [0x68_u16, 0x69].as_slice()
            }
            _ => false,
        },
        _ => false,
    }
}

// Whether the data is the list 1, "a".
fn is_list(data: &Data) -> bool {
    match data.node() {
        Node::List(items) => {
            items.len() == 2 && is_number(&items[0], 1) && is_text(&items[1], &[0x61])
        }
        _ => false,
    }
}

fn is_number(data: &Data, wanted: i64) -> bool {
    match data.node() {
        Node::Number(number) => number.get() == wanted,
        _ => false,
    }
}

fn is_text(data: &Data, wanted: &[u16]) -> bool {
    match data.node() {
        Node::Text(text) => text.as_slice() == wanted,
        _ => false,
    }
}

// Whether the record that the bytes spell is Once of the list 1, "a" at path 2.0.
fn is_once(alloc: Global, bytes: &[u8]) -> bool {
    match decode(alloc, bytes) {
        Ok(Some(entry)) => match &entry.what {
            Record::Once(data) => {
                entry.path.as_slice() == [2_u32, 0].as_slice() && is_list(data)
            }
            _ => false,
        },
        _ => false,
    }
}

// Whether the bytes spell a record, and that record is spelled so again; None for want of memory.
fn reads(alloc: Global, bytes: &[u8]) -> Option<bool> {
    match decode(alloc, bytes) {
        Ok(Some(entry)) => match encode(alloc, &entry) {
            Ok(again) => Some(again.as_slice() == bytes),
            Err(_) => None,
        },
        Ok(None) => Some(false),
        Err(_) => None,
    }
}

#[test]
fn records(rt: HostRuntime) -> Result<(), Fail> {
    assert!(rt; is_post(rt.alloc(), &POST));
    assert!(rt; is_once(rt.alloc(), &ONCE));
    let table: [(&[u8], bool); 8] = [
        (&POST, true),
        (&ONCE, true),
        (b"", false),
        (b"\x01\0\x01\0\0\0\0\0\0\0\x02\0\x68\0\x69\0", false),
        (b"\x05\0\x01\0\0\0\0", false),
        (b"\x01\0\0\0\0\0\0", false),
        (
            b"\x04\0\x01\0\0\0\0\x07\0\0\0\x02\0\0\0\0\0\0\0\0\0\0",
            false,
        ),
        (b"\x04\0\x01\0\0\0\0\x04\0\x20\0\0\0\0\0\x01", false),
    ];
    for (i, (bytes, wanted)) in table.into_iter().enumerate() {
        assert_eq!(rt; reads(rt.alloc(), bytes), Some(wanted), "at {i}");
    }
    Ok(())
}

const HEAD: [u8; 20] = [
    0x48, 1, 1, 0x73, 0, 0, 0, 0, 0, 0x4C, 0x4B, 0x40, 0x70, 0x72, 0x69, 0x6E, 0x74, 0x28, 0x31,
    0x29,
];

fn head(alloc: Global) -> Option<Head>
    ensures { IfSome result (λ h. IsHeadWithin h) }
{
    match Name::read(alloc, "s") {
        Ok(name) => match Bytes::from_slice(alloc, b"print(1)") {
            Ok(script) => Some(Head {
                name,
                fuel: 5_000_000,
                script,
            }),
            Err(_) => None,
        },
        Err(_) => None,
    }
}

// The fuel of the head that the bytes spell, or 0.
fn fuel_of(alloc: Global, bytes: &[u8]) -> Option<u64> {
    match decode_head(alloc, bytes) {
        Ok(Some(head)) => Some(head.fuel),
        Ok(None) => Some(0),
        Err(_) => None,
    }
}

#[test]
fn heads(rt: HostRuntime) -> Result<(), Fail> {
    let spelled = match head(rt.alloc()) {
        Some(head) => match encode_head(rt.alloc(), &head) {
            Ok(bytes) => bytes.as_slice() == HEAD.as_slice(),
            Err(_) => false,
        },
        None => false,
    };
    assert!(rt; spelled);
    let table: [(&[u8], u64); 5] = [
        (&HEAD, 5_000_000),
        (b"\x48\x01\x01s\0\0\0\0\x01\x31\x2D\0", 20_000_000),
        (b"\x48\x01\x01s\0\0\0\0\x01\x31\x2D\x01", 0),
        (b"\x48\x01\x01s\0\0\0\0\0\0\0\0", 0),
        (b"\x48\x01\0\0\0\0\0\0\0\0\x01", 0),
    ];
    for (i, (bytes, wanted)) in table.into_iter().enumerate() {
        assert_eq!(rt; fuel_of(rt.alloc(), bytes), Some(wanted), "at {i}");
    }
    Ok(())
}

// Whether the bytes spell the task of "s/0" and "q", and it is spelled so again.
fn task_reads(alloc: Global, bytes: &[u8]) -> Result<bool, NoMemory> {
    match decode_task(alloc, bytes)? {
        Some(task) => {
            let again = encode_task(alloc, &task.0, &task.1)?;
            let token = task.0.as_slice() == [0x73_u16, 0x2F, 0x30].as_slice();
            let text = task.1.as_slice() == [0x71_u16].as_slice();
            Ok(again.as_slice() == bytes && token && text)
        }
        None => Ok(false),
    }
}

#[test]
fn tasks(rt: HostRuntime) -> Result<(), Fail> {
    assert_eq!(rt;
        task_reads(rt.alloc(), b"\0\0\0\x03\0s\0/\00\0\0\0\x01\0q"),
        Ok(true)
    );
    Ok(())
}
