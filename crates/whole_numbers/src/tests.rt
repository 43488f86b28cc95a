// What no clause says: that the definitions give these values, worked by hand.
use crate::{add, and, div, mul, neg, not, or, rem, shl, shr, sub, ushr, xor};
use turk_base::Whole;

fn whole(number: i64) -> Whole {
    Whole::new(number).unwrap_or(Whole::from_u32(77))
}

fn number(answer: Option<Whole>) -> i64 {
    match answer {
        Some(whole) => whole.get(),
        None => -77,
    }
}

#[test]
fn arithmetic_is_exact(rt: HostRuntime) {
    let greatest = whole(9_007_199_254_740_992);
    assert!(rt; Whole::new(9_007_199_254_740_993).is_none());
    assert!(rt; Whole::new(-9_007_199_254_740_993).is_none());
    assert_eq!(rt;
        number(add(whole(9_007_199_254_740_991), whole(1))),
        9_007_199_254_740_992
    );
    assert!(rt; add(greatest, whole(1)).is_none());
    assert!(rt; sub(neg(greatest), whole(1)).is_none());
    assert_eq!(rt;
        number(mul(whole(94_906_265), whole(94_906_265))),
        9_007_199_136_250_225
    );
    assert!(rt; mul(whole(94_906_266), whole(94_906_266)).is_none());
    assert!(rt; mul(greatest, greatest).is_none());
    assert_eq!(rt; number(rem(whole(-7), whole(7))), 0);
    assert_eq!(rt; number(rem(whole(-7), whole(3))), -1);
    assert_eq!(rt; number(rem(whole(7), whole(-3))), 1);
    assert_eq!(rt; number(div(whole(-7), whole(7))), -1);
    assert!(rt; div(whole(7), whole(2)).is_none());
    assert!(rt; div(whole(1), whole(0)).is_none());
    assert!(rt; rem(whole(1), whole(0)).is_none());
    assert_eq!(rt; neg(whole(0)).get(), 0);
}

#[test]
fn bits_are_those_of_32(rt: HostRuntime) {
    assert_eq!(rt; shl(whole(1), whole(31)).get(), -2_147_483_648);
    assert_eq!(rt; shl(whole(1), whole(33)).get(), 2);
    assert_eq!(rt; shl(whole(9_007_199_254_740_992), whole(0)).get(), 0);
    assert_eq!(rt; not(whole(4_294_967_295)).get(), 0);
    assert_eq!(rt; not(whole(0)).get(), -1);
    assert_eq!(rt; ushr(whole(-1), whole(0)).get(), 4_294_967_295);
    assert_eq!(rt; shr(whole(-5), whole(1)).get(), -3);
    assert_eq!(rt; shr(whole(4_294_967_295), whole(32)).get(), -1);
    assert_eq!(rt; and(whole(-1), whole(255)).get(), 255);
    assert_eq!(rt; or(whole(-2_147_483_648), whole(1)).get(), -2_147_483_647);
    assert_eq!(rt; xor(whole(-1), whole(1)).get(), -2);
}
