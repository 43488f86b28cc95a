//! What no clause says: the answers at some files, with ample memory, worked by hand.
use super::*;
use std::alloc::Global;
use turk_base::Replies;

// The replies of a file of fewer bytes than the limit.
fn read(alloc: Global, bytes: &[u8]) -> Result<Replies, LineStop> {
    if bytes.len() > 67_108_864 {
        return Err(LineStop::Memory);
    }
    replies(alloc, bytes)
}

fn stop_of(alloc: Global, bytes: &[u8]) -> Option<LineStop> {
    match read(alloc, bytes) {
        Ok(_) => None,
        Err(stop) => Some(stop),
    }
}

// Whether a file gives one reply, with this token and this text.
fn gives(alloc: Global, bytes: &[u8], token: &[u16], answer: &[u16]) -> bool {
    match read(alloc, bytes) {
        Ok(found) => {
            let pairs = found.as_slice();
            pairs.len() == 1 && pairs[0].0.as_slice() == token && pairs[0].1.as_slice() == answer
        }
        Err(_) => false,
    }
}

// A line whose text has so many letters, and what follows it.
fn long_line(alloc: Global, letters: usize, after: &[u8]) -> Option<Vec<u8>> {
    let mut line = Vec::from_slice(alloc, b"[\"a\",\"").ok()?;
    for _ in 0..letters {
        line.push(120).ok()?;
    }
    line.extend_from_slice(b"\"]\n").ok()?;
    line.extend_from_slice(after).ok()?;
    Some(line)
}

fn long_stop(alloc: Global, letters: usize, after: &[u8]) -> Option<LineStop> {
    match long_line(alloc, letters, after) {
        Some(line) => stop_of(alloc, line.as_slice()),
        None => Some(LineStop::Memory),
    }
}

const TOKEN: [u16; 3] = [115, 47, 48];

#[test]
fn lines_of_the_form(rt: HostRuntime) {
    let alloc = rt.alloc();
    let red = [114, 101, 100];
    assert!(rt; gives(alloc, b"[\"s/0\",\"red\"]", &TOKEN, &red));
    assert!(rt; gives(alloc, b"[\"s/0\",\"red\"]\n", &TOKEN, &red));
    assert!(rt;
        gives(
            alloc,
            b"\n \t\r\n [ \"s\\/0\" , \"r\\u0065d\" ] \r\n",
            &TOKEN,
            &red
        )
    );
    assert!(rt;
        gives(
            alloc,
            b"[\"s/0\",\"\\ud83d\\ude00\"]",
            &TOKEN,
            &[0xD83D, 0xDE00]
        )
    );
    assert!(rt; gives(alloc, b"[\"s/0\",\"\xC3\xA9\"]", &TOKEN, &[0xE9]));
    assert!(rt; stop_of(alloc, b"").is_none());
}

#[test]
fn lines_that_are_not(rt: HostRuntime) {
    let alloc = rt.alloc();
    let first = Some(LineStop::BadLine(1));
    assert!(rt; stop_of(alloc, b"[\"s/0\",\"red\"]\n{\"x\":1}") == Some(LineStop::BadLine(2)));
    assert!(rt; stop_of(alloc, b" \n\n[\"a\",\"b\"]\n[\"a\"]") == Some(LineStop::BadLine(4)));
    assert!(rt; stop_of(alloc, b"[\"a\",\"\\ud83d\"]") == first);
    assert!(rt; stop_of(alloc, b"[\"a\",\"b\",]") == first);
    assert!(rt; stop_of(alloc, b"[\"a\",\"b\",\"c\"]") == first);
    assert!(rt; stop_of(alloc, b"[\"a\",1]") == first);
    assert!(rt; stop_of(alloc, b"[\"a\",\"b\"] 1") == first);
}

#[test]
fn long_texts(rt: HostRuntime) {
    let alloc = rt.alloc();
    assert!(rt; long_stop(alloc, 65_536, b"").is_none());
    assert!(rt; long_stop(alloc, 65_537, b"") == Some(LineStop::TooLong(1)));
    assert!(rt; long_stop(alloc, 65_537, b"[]") == Some(LineStop::TooLong(1)));
    assert!(rt; long_stop(alloc, 65_536, b"[]") == Some(LineStop::BadLine(2)));
    assert!(rt; long_stop(alloc, 1_048_577, b"") == Some(LineStop::BadLine(1)));
}
