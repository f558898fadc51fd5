// What the tolerance code knows of a width: the limits of document 01, and the leaves that are computed in another form at each width. The two forms stay for
// speed (`float`, `whole`): at width 32 lanes of floats and no branches, at width 64 masks and branches, since plain x86-64 compares no 64-bit lanes.
ghost use Rattle.std.specs.Prelude.{◌≡◌, ℕ, ◌+◌, ◌-◌, ◌^◌, ◌<◌, ◌≤◌, ℤ, pos, negsuc, suc, false, refl};
ghost use Rattle.std.proofs.Common.{lit≤, lit<};
ghost use Rattle.bins.specs.Limits.{offset32, offset64, last32, last64, lift32, lift64};
ghost use Rattle.bins.specs.Tolerance.{k_offset, last_bin, tolerance_code, restored_ordinal};

use crate::{float, whole};
use words::Word;

pub trait Kernel: Word {
    // The smallest and the largest allowed k.
    const LEAST: i32;

    ghost LEAST: { ℤ };

    const MOST: i32;

    ghost MOST: { ℤ };

    // The same as numbers: -(least + 1) and most.
    ghost least: { ℕ };

    ghost most: { ℕ };

    // The last bin, that of the largest k.
    const LAST: u32;

    ghost LAST: { ℕ };

    // How many bins its smallest one is above that of width 64.
    const LIFT: u32;

    ghost LIFT: { ℕ };

    // The first bin whose half is a normal float, so that floats serve from there on.
    const FIRST: u32;

    ghost FIRST: { ℕ };

    // Whether the code at a bin by a rule is to be computed in whole numbers.
    fn by_whole(halves: u32, bin: u32) -> bool
        ensures { result ≡ false → FIRST ≤ bin };

    fn whole_code(halves: u32, j: Self, p: Self) -> Self
        requires { (Self.value j ≤ last_bin Self.width Self.fraction) × (Self.value p < 2 ^ Self.width) }
        ensures { Self.value result ≡ tolerance_code Self.width Self.fraction halves (Self.value j) (Self.value p) };

    fn float_code(halves: u32, j: Self, p: Self) -> Self
        requires { (FIRST ≤ Self.value j) × (Self.value j ≤ last_bin Self.width Self.fraction) × (Self.value p < 2 ^ Self.width) }
        ensures { Self.value result ≡ tolerance_code Self.width Self.fraction halves (Self.value j) (Self.value p) };

    fn float_ordinal(j: Self, u: Self) -> Self
        requires { (Self.value u < 2 ^ (Self.width - 1)) × (FIRST ≤ Self.value j) × (Self.value j ≤ last_bin Self.width Self.fraction) }
        ensures { Self.value result ≡ restored_ordinal Self.fraction (Self.value j) (Self.value u) };

    ghost least_law: { LEAST ≡ negsuc least };

    ghost most_law: { MOST ≡ pos most };

    ghost offset_law: { suc least ≡ k_offset Self.width Self.fraction };

    ghost last_law: { LAST ≡ last_bin Self.width Self.fraction };

    // The last bin is that of the largest k.
    ghost bins_law: { most + suc least ≡ LAST };

    ghost lift_law: { LIFT ≡ k_offset 64 52 - k_offset Self.width Self.fraction };

    ghost first_law: { FIRST ≤ LAST };

    // All of a width's bins are few.
    ghost few_law: { LAST < 4096 };
}

impl Kernel for u32 {
    const LEAST: i32 = -150;

    ghost LEAST = { negsuc 149 };

    const MOST: i32 = 103;

    ghost MOST = { pos 103 };

    ghost least = { 149 };

    ghost most = { 103 };

    const LAST: u32 = 253;

    ghost LAST = { 253 };

    const LIFT: u32 = 925;

    ghost LIFT = { 925 };

    const FIRST: u32 = 24;

    ghost FIRST = { 24 };

    // Halves go to even by floats only where the machine rounds to nearest.
    fn by_whole(halves: u32, bin: u32) -> bool {
        (bin < Self::FIRST) | ((halves == 1) & !float::to_nearest(bin.min(Self::LAST)))
    }

    fn whole_code(halves: u32, j: u32, p: u32) -> u32 {
        whole::code32(halves, j, p)
    }

    fn float_code(halves: u32, j: u32, p: u32) -> u32 {
        float::code32(halves, j, p)
    }

    fn float_ordinal(j: u32, u: u32) -> u32 {
        float::ordinal32(j, u)
    }

    ghost least_law = { refl };

    ghost most_law = { refl };

    ghost offset_law = { offset32 };

    ghost last_law = { last32 };

    ghost bins_law = { refl };

    ghost lift_law = { lift32 };

    ghost first_law = { lit≤ tt };

    ghost few_law = { lit< tt };
}

impl Kernel for u64 {
    const LEAST: i32 = -1075;

    ghost LEAST = { negsuc 1074 };

    const MOST: i32 = 970;

    ghost MOST = { pos 970 };

    ghost least = { 1074 };

    ghost most = { 970 };

    const LAST: u32 = 2045;

    ghost LAST = { 2045 };

    const LIFT: u32 = 0;

    ghost LIFT = { 0 };

    const FIRST: u32 = 53;

    ghost FIRST = { 53 };

    fn by_whole(_halves: u32, bin: u32) -> bool {
        bin < Self::FIRST
    }

    fn whole_code(halves: u32, j: u64, p: u64) -> u64 {
        whole::code64(halves, j, p)
    }

    fn float_code(halves: u32, j: u64, p: u64) -> u64 {
        float::code64(halves, j, p)
    }

    fn float_ordinal(j: u64, u: u64) -> u64 {
        float::ordinal64(j, u)
    }

    ghost least_law = { refl };

    ghost most_law = { refl };

    ghost offset_law = { offset64 };

    ghost last_law = { last64 };

    ghost bins_law = { refl };

    ghost lift_law = { lift64 };

    ghost first_law = { lit≤ tt };

    ghost few_law = { lit< tt };
}
