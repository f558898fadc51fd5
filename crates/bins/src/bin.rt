// The tolerance code (mode 1) at a bin. The bin E is 2^j of the smallest units, j = k + 150 (k + 1075): `bin` turns k into j, where it is allowed.
// The functions at a bin stand in loops over values, where an answer that has to be taken apart at each would cost more than the rule itself. So they
// are total: a j past the last counts as the last, and an ordinal is cut to its bits. `numbers` refuses such a k or code first, and `stream` has no other
// j and u than allowed ones.
// What is promised is whole numbers; `float` computes them at all but the lowest bins, `whole` at those.
ghost use Rattle.std.specs.Prelude.{◌≡◌, ◌-◌, ◌^◌, ◌<◌, min};
ghost use Rattle.bins.specs.Tolerance.{last_bin, restored_ordinal, tolerance_code, tolerance_restored, largest_u};
ghost use Rattle.bins.specs.Answers.{bin_answer};

use crate::kernel::Kernel;
use crate::whole;

// The bin of an allowed k.
pub fn bin<T: Kernel>(k: i32) -> Option<u32>
    ensures { result ≡ bin_answer T.width T.fraction k }
{
    if k < T::LEAST {
        return None;
    }
    if T::MOST < k {
        return None;
    }
    Some((k - T::LEAST) as u32)
}

// A bin past the last counts as the last.
pub fn clipped<T: Kernel>(bin: u32) -> u32
    ensures { result ≡ min bin (last_bin T.width T.fraction) }
{
    bin.min(T::LAST)
}

// The tolerance code of a pattern at a bin, by the rule for halves: 1 is to even, and any other number away from zero. Which way it is computed is told by the
// bin, the rule and the machine alone, so that a loop over values can do these tests once: whole numbers at the lowest bins, and where floats would need a machine
// that rounds to nearest and it does not.
pub fn code_at_bin<T: Kernel>(halves: u32, bin: u32, p: T) -> T
    ensures { T.value result ≡ tolerance_code T.width T.fraction halves (min bin (last_bin T.width T.fraction)) (T.value p) }
{
    let j = T::of_u32(clipped::<T>(bin));
    if T::by_whole(halves, bin) {
        return T::whole_code(halves, j, p.bounded());
    }
    T::float_code(halves, j, p.bounded())
}

// The ordinal that u restores at a bin.
fn ordinal_at_bin<T: Kernel>(bin: u32, u: T) -> T
    requires { T.value u < 2 ^ (T.width - 1) }
    ensures { T.value result ≡ restored_ordinal T.fraction (min bin (last_bin T.width T.fraction)) (T.value u) }
{
    let j = T::of_u32(clipped::<T>(bin));
    if bin < T::FIRST {
        return whole::ordinal(j, u);
    }
    T::float_ordinal(j, u)
}

// The pattern of a tolerance code at a bin. Above the largest u the ordinal is cut to its bits.
pub fn restored_at_bin<T: Kernel>(bin: u32, c: T) -> T
    ensures { T.value result ≡ tolerance_restored T.width T.fraction (min bin (last_bin T.width T.fraction)) (T.value c) }
{
    ordinal_at_bin(bin, c.bounded() / T::of(2)) % T::HIGHEST + c % T::of(2) * T::HIGHEST
}

// The largest u that a code may have at a bin.
pub fn largest_u<T: Kernel>(bin: u32) -> T
    ensures { T.value result ≡ largest_u T.width T.fraction (min bin (last_bin T.width T.fraction)) }
{
    T::HIGHEST - T::of(1) - T::of_u32(clipped::<T>(bin)) * T::UNIT
}
