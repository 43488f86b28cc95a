// What no clause says: that the definitions give these values, worked by hand, and that a text comes with ample memory.
use crate::{Prim, Reading, less, loose, reading, strict, text, truth};
use std::alloc::Global;
use turk_base::{Units, Whole};

const NAN: i64 = -1_000_001;

const OUTSIDE: i64 = -1_000_002;

fn spelled(alloc: Global, bytes: &[u8]) -> Prim {
    match Units::from_bytes(alloc, bytes) {
        Ok(units) => Prim::Text(units),
        Err(_) => Prim::Undefined,
    }
}

fn number(n: u32) -> Prim {
    Prim::Number(Whole::from_u32(n))
}

fn read(v: &Prim) -> i64 {
    match reading(v) {
        Reading::Whole(whole) => whole.get(),
        Reading::Nan => NAN,
        Reading::Outside => OUTSIDE,
    }
}

fn prints(alloc: Global, v: &Prim, wanted: &[u8]) -> bool {
    match (text(alloc, v), Units::from_bytes(alloc, wanted)) {
        (Ok(found), Ok(units)) => found == units,
        _ => false,
    }
}

#[test]
fn texts_read_as_numbers(rt: HostRuntime) {
    let alloc = rt.alloc();
    assert_eq!(rt; read(&spelled(alloc, b" 0x10 ")), 16);
    assert_eq!(rt; read(&spelled(alloc, b"-0x1")), NAN);
    assert_eq!(rt; read(&spelled(alloc, b"1e3")), OUTSIDE);
    assert_eq!(rt; read(&spelled(alloc, b"9007199254740993")), OUTSIDE);
    assert_eq!(rt;
        read(&spelled(alloc, b"-9007199254740992\n")),
        -9_007_199_254_740_992
    );
    assert_eq!(rt; read(&spelled(alloc, b"12a")), NAN);
    assert_eq!(rt; read(&spelled(alloc, b"")), 0);
    assert_eq!(rt; read(&spelled(alloc, b"+7")), 7);
    assert_eq!(rt; read(&spelled(alloc, b".5")), OUTSIDE);
    assert_eq!(rt; read(&spelled(alloc, b".")), NAN);
    assert_eq!(rt; read(&spelled(alloc, b"-Infinity")), OUTSIDE);
    assert_eq!(rt; read(&Prim::Undefined), NAN);
    assert_eq!(rt; read(&Prim::Truth(true)), 1);
}

#[test]
fn values_compare(rt: HostRuntime) {
    let alloc = rt.alloc();
    assert!(rt; loose(&Prim::Null, &number(0)) == Some(false));
    assert!(rt; loose(&Prim::Null, &Prim::Undefined) == Some(true));
    assert!(rt; loose(&spelled(alloc, b"1.0"), &number(1)) == None);
    assert!(rt; loose(&Prim::Truth(true), &spelled(alloc, b"1")) == Some(true));
    assert!(rt; less(&Prim::Undefined, &number(1)) == Some(None));
    assert!(rt; less(&spelled(alloc, b"b"), &spelled(alloc, b"ab")) == Some(Some(false)));
    assert!(rt; less(&spelled(alloc, b"a"), &spelled(alloc, b"ab")) == Some(Some(true)));
    assert!(rt; less(&number(2), &spelled(alloc, b"10")) == Some(Some(true)));
    assert!(rt; !strict(&Prim::Truth(true), &number(1)));
    assert!(rt; !truth(&spelled(alloc, b"")));
}

#[test]
fn values_have_texts(rt: HostRuntime) {
    let alloc = rt.alloc();
    assert!(rt; prints(alloc, &Prim::Undefined, b"undefined"));
    assert!(rt; prints(alloc, &Prim::Null, b"null"));
    assert!(rt; prints(alloc, &Prim::Truth(false), b"false"));
    assert!(rt; prints(alloc, &Prim::Number(Whole::from_u32(10).negated()), b"-10"));
    assert!(rt; prints(alloc, &spelled(alloc, b"x"), b"x"));
}
