//! The operations on 32 bits (ECMA-262 3rd ed. 9.5, 9.6, 11.4.8, 11.7, 11.10).
ghost use Rattle.std.specs.Prelude.{◌≡◌, ◌%◌, ◌<◌};
ghost use Rattle.turk_base.specs.Conversions.{unsigned_32, signed_32};
ghost use Rattle.turk_base.specs.Operators.{halved as halved_by, shift_count, shift_left, shift_right, shift_right_unsigned, bits_and, bits_or, bits_xor, bits_not};

use turk_base::Whole;

const MODULUS: i64 = 4_294_967_296;

// ToUint32
fn low_bits(a: Whole) -> u32
    ensures { result ≡ unsigned_32 a }
{
    a.get().rem_euclid(MODULUS) as u32
}

// 32 bits as a signed number
fn signed(bits: u32) -> Whole
    ensures { result ≡ signed_32 bits }
{
    if bits < 2_147_483_648 {
        Whole::from_u32(bits)
    } else {
        Whole::make(bits as i64 - MODULUS)
    }
}

// what a shift is by
fn count(a: Whole) -> u32
    ensures value { result ≡ shift_count a }
    ensures small { result < 32 }
{
    low_bits(a) % 32
}

// A signed number of 32 bits over a power of 2, rounded down.
fn halved(a: Whole, count: u32) -> Whole
    requires { count < 32 }
    ensures { result ≡ halved_by a count }
{
    let number = a.get();
    let power = 1i64 << count;
    Whole::make(number.div_euclid(power))
}

/// `a << b` of `a` modulo `2^32`, by the last five bits of `b`, as a signed number.
pub fn shl(a: Whole, b: Whole) -> Whole
    ensures { result ≡ shift_left a b }
{
    let wide = (low_bits(a) as u64) << count(b);
    signed((wide % 4_294_967_296) as u32)
}

/// `a >> b` of `a` modulo `2^32` as a signed number, by the last five bits of `b`, rounded down.
pub fn shr(a: Whole, b: Whole) -> Whole
    ensures { result ≡ shift_right a b }
{
    halved(signed(low_bits(a)), count(b))
}

/// `a >>> b` of `a` modulo `2^32`, by the last five bits of `b`, never negative.
pub fn ushr(a: Whole, b: Whole) -> Whole
    ensures { result ≡ shift_right_unsigned a b }
{
    Whole::from_u32(low_bits(a) >> count(b))
}

/// The bits that both have, of 32, as a signed number.
pub fn and(a: Whole, b: Whole) -> Whole
    ensures { result ≡ bits_and a b }
{
    signed(low_bits(a) & low_bits(b))
}

/// The bits that one has, of 32, as a signed number.
pub fn or(a: Whole, b: Whole) -> Whole
    ensures { result ≡ bits_or a b }
{
    signed(low_bits(a) | low_bits(b))
}

/// The bits that just one has, of 32, as a signed number.
pub fn xor(a: Whole, b: Whole) -> Whole
    ensures { result ≡ bits_xor a b }
{
    signed(low_bits(a) ^ low_bits(b))
}

/// The 32 bits turned, as a signed number.
pub fn not(a: Whole) -> Whole
    ensures { result ≡ bits_not a }
{
    signed(u32::MAX - low_bits(a))
}
