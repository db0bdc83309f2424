// What is read off one number, and what is made of it: std's functions, where a NaN needs no care of the caller's and they are as fast.
// proofs/Std.antt has it that the definitions of specs/ say what std's clauses say.
#![tactic(auto, using(crate::proofs::Std::finite_is, crate::proofs::Std::next_up_is), unfolding(crate::specs::Convert::widen, crate::specs::Key::key))]

pub mod root;

ghost use Rattle.std.specs.Prelude.{◌≡◌, ◌+◌, ◌^◌, ◌<◌, ◌≤◌, Bool, if◌then◌else◌, from_bits, to_bits};
ghost use Rattle.std.specs.Float.{binary32, binary64};
ghost use Rattle.std.specs.Float.Ieee.Nearest.{closest};
ghost use Rattle.bits.specs.Finite.{finite};
ghost use Rattle.bits.specs.NextUp.{next_up};
ghost use Rattle.bits.specs.Convert as Convert;
ghost use Rattle.bits.specs.Key as Key;

use std::num;

// The value of a bit pattern, and the pattern of a value, where every NaN is one and is written by one pattern.
#[tactic(auto, using(crate::proofs::Tests::no_nan))]
pub fn f32_from_bits(b: u32) -> f32
    ensures { result ≡ from_bits binary32 b }
{
    num::f32_from_bits_with_nan(b)
}

pub fn f32_to_bits(x: f32) -> u32
    ensures { result ≡ to_bits binary32 x }
{
    num::f32_to_bits_with_nan(x)
}

#[tactic(auto, using(crate::proofs::Tests::no_nan))]
pub fn f64_from_bits(b: u64) -> f64
    ensures { result ≡ from_bits binary64 b }
{
    num::f64_from_bits_with_nan(b)
}

pub fn f64_to_bits(x: f64) -> u64
    ensures { result ≡ to_bits binary64 x }
{
    num::f64_to_bits_with_nan(x)
}

// Neither a NaN nor an infinity.
pub fn is_finite(x: f32) -> bool
    ensures { result ≡ finite x }
{
    x.is_finite()
}

// The least f32 above x. A NaN and infinity stay.
pub fn next_up(x: f32) -> f32
    ensures { result ≡ next_up x }
{
    x.next_up()
}

// f32 to f64, a NaN to a NaN.
pub fn widen(x: f32) -> f64
    ensures { result ≡ Convert.widen x }
{
    num::f32_to_f64_with_nan(x)
}

// m by a unit, to the nearest whole number, a tie to the even one.
fn rounded(m: u64, unit: u64) -> u64
    requires { (0 < unit) × (m < 2 ^ 63) × (unit < 2 ^ 63) }
    ensures { result ≡ closest m unit }
{
    let whole = m / unit;
    let twice = m % unit * 2;
    if twice < unit {
        whole
    } else if unit < twice {
        whole + 1
    } else {
        whole + whole % 2
    }
}

// From the bits of an f64 without its sign to those of the f32 nearest to it. One of 2 ^ 128 or more is infinite. From 2 ^ -126 on
// 24 digits are kept, and below that the multiples of 2 ^ -149; a carry out of the digits adds one to the exponent's field by itself.
fn narrow_magnitude(a: u64) -> u32
    requires { a ≤ 9218868437227405312 }
    ensures { (result ≤ 2139095040) × ((s : Bool) → from_bits binary32 ((if s then 2147483648 else 0) + result) ≡ Convert.narrow (from_bits binary64 ((if s then 9223372036854775808 else 0) + a))) }
{
    let field = (a / 0x10_0000_0000_0000) as u32;
    let digits = 0x10_0000_0000_0000 + a % 0x10_0000_0000_0000;
    if 1151 <= field {
        0x7f80_0000
    } else if 897 <= field {
        (field - 897) * 0x80_0000 + rounded(digits, 0x2000_0000) as u32
    } else if 872 < field {
        rounded(digits, 1 << (926 - field)) as u32
    } else {
        0
    }
}

// f64 to f32, rounded once; a NaN to a NaN. By the bits: with std's own, which goes through numbers of 128 bits, a point in a frame
// takes 1.6 times as long.
pub fn narrow(x: f64) -> f32
    ensures { result ≡ Convert.narrow x }
{
    if x != x {
        return 0.0f32 / 0.0f32;
    }
    let b = f64::to_bits(x);
    if b < 0x8000_0000_0000_0000 {
        f32::from_bits(narrow_magnitude(b))
    } else {
        f32::from_bits(0x8000_0000 + narrow_magnitude(b - 0x8000_0000_0000_0000))
    }
}

// `total_cmp` as a number. std's asks that there is no NaN.
pub fn key(x: f32) -> u32
    ensures { result ≡ Key.key x }
{
    let b = f32_to_bits(x);
    if b < 0x8000_0000 {
        0x8000_0000 + b
    } else {
        0xffff_ffff - b
    }
}
