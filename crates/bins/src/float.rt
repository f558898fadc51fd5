// The tolerance code by float operations that are exact, or whose rounding cannot be seen, at the bins j from 24 (53) on. What is promised is
// whole numbers, as at the lower bins. Which side of T a pattern is on is told by ordinals, so that no infinity and no not-a-number is ever
// computed with. No branch depends on a value: a compiler does several values side by side.
// The proofs are of round to nearest. A caller who rounds another way, or has subnormals taken for zero, is meant to get the same codes and patterns: all forms
// but one give them whichever way the machine rounds (from these bins on E and half of it are normal floats, and a subnormal is nearest to no bin), and that one,
// `even32`, is left where the machine does not round to nearest (`to_nearest`). No proof says that; tests/c/rounding.c tries it.
ghost use Rattle.std.specs.Prelude.{◌≡◌, ◌-◌, ◌*◌, ◌^◌, ◌<◌, ◌≤◌, true, if◌then◌else◌, from_bits, nat_lt};
ghost use Rattle.std.specs.Float.{binary32, binary64};
ghost use Rattle.std.specs.Float.Ieee.{mul};
ghost use Rattle.bins.specs.Tolerance.{last_bin, near, magnitude, ordinal_of, threshold_ordinal, restored_ordinal, tolerance_code};

use crate::halves;
use std::num;

// Whether the machine rounds to nearest, as the proofs take for granted: the sums with a quarter and with three quarters of a unit fall apart then, and by no
// other way of rounding. j is there so that no compiler knows the answer beforehand.
pub(crate) fn to_nearest(j: u32) -> bool
    requires { j ≤ last_bin 32 23 }
    ensures { result ≡ true }
{
    let whole = f32::from_bits(0x4B00_0000 + j);
    whole + 0.25 < whole + 0.75
}

// |v| / E of an ordinal below that of T: exact, or so small that it is nearest to 0. One for each float: a trait over f32 and f64 would be no plainer.
fn quotient32(j: u32, o: u32) -> f32
    requires { (o < threshold_ordinal 23 j) × (24 ≤ j) × (j ≤ last_bin 32 23) }
    ensures { result ≡ mul binary32 (from_bits binary32 o) (from_bits binary32 ((276 - j) * 2 ^ 23)) }
{
    f32::from_bits(o) * f32::from_bits((276 - j) * 0x0080_0000)
}

fn quotient64(j: u64, o: u64) -> f64
    requires { (o < threshold_ordinal 52 j) × (53 ≤ j) × (j ≤ last_bin 64 52) }
    ensures { result ≡ mul binary64 (from_bits binary64 o) (from_bits binary64 ((2097 - j) * 2 ^ 52)) }
{
    f64::from_bits(o) * f64::from_bits((2097 - j) * 0x0010_0000_0000_0000)
}

// The bins nearest to an ordinal below that of T, a half away from zero. The sum r of the quotient q with 2^23 - 1/2 is one of two neighbours, whichever way the
// machine rounds. t, what r has grown by, is exact, so that q < t tells which one it is.
fn away32(j: u32, o: u32) -> u32
    requires { (o < threshold_ordinal 23 j) × (24 ≤ j) × (j ≤ last_bin 32 23) }
    ensures { result ≡ near 0 j (magnitude 23 o) }
{
    let q = quotient32(j, o);
    let r = q + 8388607.5;
    let t = r - 8388607.5;
    let next = f32::to_bits(r) - 0x4AFF_FFFF;
    if q < t { next - 1 } else { next }
}

// The same, a half to even: that is what a sum with 2^23 does by itself, where the machine rounds to nearest.
fn even32(j: u32, o: u32) -> u32
    requires { (o < threshold_ordinal 23 j) × (24 ≤ j) × (j ≤ last_bin 32 23) }
    ensures { result ≡ near 1 j (magnitude 23 o) }
{
    let q = quotient32(j, o);
    f32::to_bits(q + 8388608.0) - 0x4B00_0000
}

fn near32(halves: u32, j: u32, o: u32) -> u32
    requires { (o < threshold_ordinal 23 j) × (24 ≤ j) × (j ≤ last_bin 32 23) }
    ensures { result ≡ near halves j (magnitude 23 o) }
{
    if halves == 1 {
        return even32(j, o);
    }
    away32(j, o)
}

// At width 64 one form does both, whichever way the machine rounds (a loop over values that asked for the way would be too long for its place). q = t is the half. Where that is to go down
// from an odd `next`, q is compared with the float behind t: no other q lies between the two. (`next` is odd where the pattern of r is even, which is the shorter
// way to tell.)
fn near64(halves: u32, j: u64, o: u64) -> u64
    requires { (o < threshold_ordinal 52 j) × (53 ≤ j) × (j ≤ last_bin 64 52) }
    ensures { result ≡ near halves j (magnitude 52 o) }
{
    let q = quotient64(j, o);
    let r = q + 4503599627370495.5;
    let t = r - 4503599627370495.5;
    let next = f64::to_bits(r) - 0x432F_FFFF_FFFF_FFFF;
    if q < f64::from_bits(f64::to_bits(t) + halves::odd(halves, f64::to_bits(r) + 1)) {
        next - 1
    } else {
        next
    }
}

// o where it is below t, and else nothing.
fn below32(o: u32, t: u32) -> u32
    ensures { result ≡ (if nat_lt o t then o else 0) }
{
    if o < t { o } else { 0 }
}

// x where o is not below t, and else nothing.
fn from32(o: u32, t: u32, x: u32) -> u32
    ensures { result ≡ (if nat_lt o t then 0 else x) }
{
    if o < t { 0 } else { x }
}

// The code of a pattern, both sides of T at once: from T on `rest` is the ordinal's place above the bins, and 0 is left to round. (Below T the difference
// wraps around, and is not used.)
pub(crate) fn code32(halves: u32, j: u32, p: u32) -> u32
    requires { (24 ≤ j) × (j ≤ last_bin 32 23) }
    ensures { result ≡ tolerance_code 32 23 halves j p }
{
    let o = p % 0x8000_0000;
    let t = (j + 1) * 0x0080_0000;
    let rest = from32(o, t, num::wrapping_sub_u32(o, j * 0x0080_0000));
    2 * (near32(halves, j, below32(o, t)) + rest) + p / 0x8000_0000
}

// At width 64 plain x86-64 compares no lanes: `all` has every bit from T on and none below.
pub(crate) fn code64(halves: u32, j: u64, p: u64) -> u64
    requires { (53 ≤ j) × (j ≤ last_bin 64 52) }
    ensures { result ≡ tolerance_code 64 52 halves j p }
{
    let o = p % 0x8000_0000_0000_0000;
    let room = 0x8000_0000_0000_0000 - (j + 1) * 0x0010_0000_0000_0000;
    let all = (o + room) / 0x8000_0000_0000_0000 * 0xFFFF_FFFF_FFFF_FFFF;
    let rest = num::wrapping_sub_u64(o, j * 0x0010_0000_0000_0000) & all;
    2 * (near64(halves, j, o - (o & all)) + rest) + p / 0x8000_0000_0000_0000
}

// u bins as an ordinal, by one product, which is exact: E is a normal float and u has fewer digits than a float keeps.
fn product32(j: u32, u: u32) -> u32
    requires { (u < 2 ^ 23) × (24 ≤ j) × (j ≤ last_bin 32 23) }
    ensures { result ≡ ordinal_of 23 (u * 2 ^ j) }
{
    f32::to_bits((u as f32) * f32::from_bits((j - 22) * 0x0080_0000))
}

// Plain x86-64 casts no 64-bit lanes: u goes in as the last digits of 2^52 + u, and 2^52 is taken off again. A caller who rounds downward
// gets -0 of u = 0 there; its sign is cut off with the 64th bit, where the pattern's own sign is put.
fn product64(j: u64, u: u64) -> u64
    requires { (u < 2 ^ 52) × (53 ≤ j) × (j ≤ last_bin 64 52) }
    ensures { result ≡ ordinal_of 52 (u * 2 ^ j) }
{
    let whole = f64::from_bits(0x4330_0000_0000_0000 + u) - 4503599627370496.0;
    f64::to_bits(whole * f64::from_bits((j - 51) * 0x0010_0000_0000_0000))
}

// The ordinal that u restores: both sides of 2^23 are computed, and one is chosen.
pub(crate) fn ordinal32(j: u32, u: u32) -> u32
    requires { (u < 2 ^ 31) × (24 ≤ j) × (j ≤ last_bin 32 23) }
    ensures { result ≡ restored_ordinal 23 j u }
{
    let near = product32(j, u % 0x0080_0000);
    let far = u + j * 0x0080_0000;
    if u < 0x0080_0000 { near } else { far }
}

// Here `all` has every bit from u = 2^52 on, and none below.
pub(crate) fn ordinal64(j: u64, u: u64) -> u64
    requires { (u < 2 ^ 63) × (53 ≤ j) × (j ≤ last_bin 64 52) }
    ensures { result ≡ restored_ordinal 52 j u }
{
    let all = (u / 0x0010_0000_0000_0000 + 2047) / 2048 * 0xFFFF_FFFF_FFFF_FFFF;
    let far = u & all;
    let place = (j * 0x0010_0000_0000_0000) & all;
    product64(j, u - far) + far + place
}
