// The tolerance code in whole numbers, for the bins j below 24 (53), where E or half of it is no normal float. It would serve at every bin.
ghost use Rattle.std.specs.Prelude.{◌≡◌, ◌+◌, ◌-◌, ◌^◌, ◌<◌, ◌≤◌};
ghost use Rattle.bins.specs.Tolerance.{last_bin, near, magnitude, magnitude_code, threshold_ordinal, restored_ordinal, tolerance_code};

use crate::halves;
use words::Word;

// How far a goes past b.
fn past<T: Word>(a: T, b: T) -> T
    ensures { T.value result ≡ T.value a - T.value b }
{
    if a < b { T::of(0) } else { a - b }
}

// q / 2^s to the nearest whole number, for few places s: `upper` of two that are as near, less what it is above the even one if it is to be that.
fn rounded<T: Word>(halves: u32, s: T, q: T) -> T
    requires { (T.value q < 2 ^ (T.fraction + 1)) × (T.value s ≤ T.fraction + 2) × (T.value s + 1 < T.width) }
    ensures { T.value result ≡ near halves (T.value s) (T.value q) }
{
    let sum = T::of(2) * q + (T::of(1) << s);
    let upper = sum >> (s + T::of(1));
    if sum == upper << (s + T::of(1)) {
        upper - halves::odd(halves, upper)
    } else {
        upper
    }
}

// Past 24 places q is less than a half. The shift is cut short there rather than left out, since a branch would be mispredicted on noise.
fn rounded32(halves: u32, s: u32, q: u32) -> u32
    requires { q < 2 ^ 24 }
    ensures { result ≡ near halves s q }
{
    rounded(halves, 25 - past(25, s), q)
}

// At width 64 the branches are the faster form: plain x86-64 compares no 64-bit lanes.
fn rounded64(halves: u32, s: u64, q: u64) -> u64
    requires { q < 2 ^ 53 }
    ensures { result ≡ near halves s q }
{
    if 53 < s {
        return 0;
    }
    rounded(halves, s, q)
}

// The magnitude code of an ordinal, on both sides of T at once. `some` is 1 unless the exponent is zero, and x the exponent, which counts
// as 1 where it is zero. Below T the significand moves down to the bin's place, and from T on the exponent goes past the bin's.
fn magnitude_code32(halves: u32, j: u32, o: u32) -> u32
    requires { (j ≤ last_bin 32 23) × (o < 2 ^ 31) }
    ensures { result ≡ magnitude_code 23 halves j o }
{
    let e = o / 0x0080_0000;
    let some = (e + 255) / 256;
    let q = some * 0x0080_0000 + o % 0x0080_0000;
    let x = e + 1 - some;
    rounded32(halves, past(j + 1, x), q) + past(x, j + 1) * 0x0080_0000
}

// The bins nearest to the magnitude of an ordinal below that of T: its significand, moved down to the bin's place.
fn nearest64(halves: u32, j: u64, o: u64) -> u64
    requires { (j ≤ last_bin 64 52) × (o < threshold_ordinal 52 j) }
    ensures { result ≡ near halves j (magnitude 52 o) }
{
    let e = o / 0x0010_0000_0000_0000;
    let f = o % 0x0010_0000_0000_0000;
    if e == 0 {
        return rounded64(halves, j, f);
    }
    rounded64(halves, j + 1 - e, 0x0010_0000_0000_0000 + f)
}

pub(crate) fn code32(halves: u32, j: u32, p: u32) -> u32
    requires { j ≤ last_bin 32 23 }
    ensures { result ≡ tolerance_code 32 23 halves j p }
{
    2 * magnitude_code32(halves, j, p % 0x8000_0000) + p / 0x8000_0000
}

// The ordinal of T is (j + 1) * 2^52, so the test goes by ordinals.
pub(crate) fn code64(halves: u32, j: u64, p: u64) -> u64
    requires { j ≤ last_bin 64 52 }
    ensures { result ≡ tolerance_code 64 52 halves j p }
{
    let o = p % 0x8000_0000_0000_0000;
    let sign = p / 0x8000_0000_0000_0000;
    if o < (j + 1) * 0x0010_0000_0000_0000 {
        return 2 * nearest64(halves, j, o) + sign;
    }
    2 * (o - j * 0x0010_0000_0000_0000) + sign
}

// The ordinal that u restores, on both sides of 2^23 (2^52) at once: u moves up by j places as far as the significand has room, and the rest goes
// to the exponent. From 2^23 on there is no room. `some` is 1 unless u is zero.
pub(crate) fn ordinal<T: Word>(j: T, u: T) -> T
    requires { (T.value u < 2 ^ (T.width - 1)) × (T.value j ≤ last_bin T.width T.fraction) }
    ensures { T.value result ≡ restored_ordinal T.fraction (T.value j) (T.value u) }
{
    let some = (u + (T::HIGHEST - T::of(1))) / T::HIGHEST;
    let room = past(u.leading_zeros(), T::UNIT.leading_zeros());
    let rest = past(j, T::of_u32(room));
    some * rest * T::UNIT + (u << (j - rest))
}
