// The machine words that patterns and codes stand in: of each width one unsigned integer.
#![tactic(auto)]

ghost use Rattle.std.specs.Prelude.{◌≡◌, ℕ, ◌+◌, ◌-◌, ◌*◌, ◌/◌, ◌%◌, ◌^◌, ◌<◌, ◌≤◌, ◌==◌, ◌⊎◌, ℤ, pos, negsuc, suc, List, map, bit_or, bit_xor, nat_lt, nat_le, refl};
ghost use Rattle.std.specs.Ordering.{partial_lt, partial_le};
ghost use Rattle.std.specs.Float.Ieee.{size};
ghost use lib.Count.{count_leading_zeros};
ghost use Rattle.std.proofs.Common.{lit≤, inl, inr};
ghost use Rattle.words.specs.Order.{lt_is, le_is};
ghost use Rattle.words.specs.Lists.{values_are};

use std::ops::{Add, BitOr, BitXor, Div, Mul, Rem, Shl, Shr, Sub};

pub trait Word: Copy
    + Drop
    + Add<Self, Output = Self>
    + Sub<Self, Output = Self>
    + Mul<Self, Output = Self>
    + Div<Self, Output = Self>
    + Rem<Self, Output = Self>
    + PartialOrd
    + BitOr<Self, Output = Self>
    + BitXor<Self, Output = Self>
    + Shl<Self, Output = Self>
    + Shr<Self, Output = Self> {
    // The signed integer of the same bits.
    type Signed: Copy + Drop;

    // W, the number of bits.
    ghost width: { ℕ };

    // m, the number of fraction bits of the floats of this width.
    ghost fraction: { ℕ };

    // The number that a word is.
    ghost value: { Self → ℕ };

    // The number that a signed integer is.
    ghost signed: { Self.Signed → ℤ };

    // The numbers of a list of words.
    ghost values: { List Self → List ℕ };

    // 2^(W-1), the highest bit alone.
    const HIGHEST: Self;

    ghost HIGHEST: { Self };

    // 2^m, in which the exponent of a pattern counts.
    const UNIT: Self;

    ghost UNIT: { Self };

    // 2^W - 1, all bits.
    const ALL: Self;

    ghost ALL: { Self };

    // A small number.
    fn of(n: u8) -> Self
        ensures { value result ≡ n };

    // The same number in 64 bits, and a number of W bits from there.
    fn wide(self) -> u64
        ensures { result ≡ value self };

    fn narrow(n: u64) -> Self
        requires { n < 2 ^ width }
        ensures { value result ≡ n };

    // The word itself. A caller that knows only the trait learns here that a word has W bits, and so need not ask it of its own callers.
    fn bounded(self) -> Self
        ensures same { result ≡ self }
        ensures below { value result < 2 ^ width };

    // The signed view, in two's complement, and the bits of a signed number.
    fn view(self) -> Self::Signed
        ensures low { value self < 2 ^ (width - 1) → signed result ≡ pos (value self) }
        ensures high { 2 ^ (width - 1) ≤ value self → signed result ≡ negsuc (2 ^ width - suc (value self)) };

    fn bits(x: Self::Signed) -> Self
        ensures natural { (n : ℕ) → signed x ≡ pos n → (n < 2 ^ (width - 1)) × (value result ≡ n) }
        ensures below_zero { (n : ℕ) → signed x ≡ negsuc n → (n < 2 ^ (width - 1)) × (value result ≡ 2 ^ width - suc n) };

    // How many bits the number has: none for 0.
    fn bit_length(self) -> usize
        ensures { (result ≡ size (value self)) × (result ≤ width) };

    fn of_u32(n: u32) -> Self
        ensures { value result ≡ n };

    fn leading_zeros(self) -> u32
        ensures { result ≡ count_leading_zeros width (value self) };

    fn wrapping_add(self, other: Self) -> Self
        ensures { value result ≡ (value self + value other) % 2 ^ width };

    fn wrapping_sub(self, other: Self) -> Self
        ensures { value result ≡ (value self + (2 ^ width - value other)) % 2 ^ width };

    ghost highest_law: { value HIGHEST ≡ 2 ^ (width - 1) };

    ghost unit_law: { value UNIT ≡ 2 ^ fraction };

    ghost all_law: { value ALL ≡ 2 ^ width - 1 };

    ghost values_law: { (xs : List Self) → values xs ≡ map value xs };

    // The sign, the fraction and at least two bits of exponent have room.
    ghost widths_law: { fraction + 3 ≤ width };

    // There are two widths, each with its fraction bits.
    ghost formats_law: { ((width ≡ 32) × (fraction ≡ 23)) ⊎ ((width ≡ 64) × (fraction ≡ 52)) };

    // Words are ordered as their numbers are.
    ghost lt_law: { (a b : Self) → partial_lt Self.partial_cmp a b ≡ nat_lt (value a) (value b) };

    ghost le_law: { (a b : Self) → partial_le Self.partial_cmp a b ≡ nat_le (value a) (value b) };

    // A sum, a difference or a product that fits may be computed, and is exact.
    ghost can_add_law: { (a b : Self) → value a + value b < 2 ^ width → Self.can_add a b };

    ghost add_law: { (a b r : Self) → Self.add_gives a b r → value r ≡ value a + value b };

    ghost can_sub_law: { (a b : Self) → value b ≤ value a → Self.can_sub a b };

    ghost sub_law: { (a b r : Self) → Self.sub_gives a b r → value r ≡ value a - value b };

    ghost can_mul_law: { (a b : Self) → value a * value b < 2 ^ width → Self.can_mul a b };

    ghost mul_law: { (a b r : Self) → Self.mul_gives a b r → value r ≡ value a * value b };

    ghost can_div_law: { (a b : Self) → 0 < value b → Self.can_div a b };

    ghost div_law: { (a b r : Self) → Self.div_gives a b r → value r ≡ value a / value b };

    ghost can_rem_law: { (a b : Self) → 0 < value b → Self.can_rem a b };

    ghost rem_law: { (a b r : Self) → Self.rem_gives a b r → value r ≡ value a % value b };

    ghost can_bitor_law: { (a b : Self) → Self.can_bitor a b };

    ghost bitor_law: { (a b r : Self) → Self.bitor_gives a b r → value r ≡ bit_or (value a) (value b) };

    ghost can_bitxor_law: { (a b : Self) → Self.can_bitxor a b };

    ghost can_shl_law: { (a b : Self) → value b < width → Self.can_shl a b };

    ghost shl_law: { (a b r : Self) → Self.shl_gives a b r → value r ≡ value a * 2 ^ value b % 2 ^ width };

    ghost can_shr_law: { (a b : Self) → value b < width → Self.can_shr a b };

    ghost shr_law: { (a b r : Self) → Self.shr_gives a b r → value r ≡ value a / 2 ^ value b };

    // Words are equal as their numbers are.
    ghost eq_law: { (a b : Self) → Self.eq a b ≡ (value a == value b) };

    ghost bitxor_law: { (a b r : Self) → Self.bitxor_gives a b r → value r ≡ bit_xor (value a) (value b) };
}

impl Word for u32 {
    type Signed = i32;

    ghost width = { 32 };

    ghost fraction = { 23 };

    ghost value = { λ x. x };

    ghost signed = { λ x. x };

    ghost values = { λ xs. xs };

    const HIGHEST: u32 = 0x8000_0000;

    ghost HIGHEST = { 2147483648 };

    const UNIT: u32 = 0x0080_0000;

    ghost UNIT = { 8388608 };

    const ALL: u32 = 0xFFFF_FFFF;

    ghost ALL = { 4294967295 };

    fn of(n: u8) -> u32 {
        n as u32
    }

    fn wide(self) -> u64 {
        self as u64
    }

    fn narrow(n: u64) -> u32 {
        n as u32
    }

    fn bounded(self) -> u32 {
        self
    }

    fn view(self) -> i32 {
        self.cast_signed()
    }

    fn bits(x: i32) -> u32 {
        x.cast_unsigned()
    }

    fn bit_length(self) -> usize {
        32 - u32::leading_zeros(self) as usize
    }

    fn of_u32(n: u32) -> u32 {
        n
    }

    fn leading_zeros(self) -> u32 {
        u32::leading_zeros(self)
    }

    fn wrapping_add(self, other: u32) -> u32 {
        u32::wrapping_add(self, other)
    }

    fn wrapping_sub(self, other: u32) -> u32 {
        u32::wrapping_sub(self, other)
    }

    ghost highest_law = { refl };

    ghost unit_law = { refl };

    ghost all_law = { refl };

    ghost values_law = { values_are };

    ghost widths_law = { lit≤ tt };

    ghost formats_law = { inl (refl, refl) };

    ghost lt_law = { lt_is };

    ghost le_law = { le_is };

    ghost can_add_law = { λ a b h. h };

    ghost add_law = { λ a b r h. h };

    ghost can_sub_law = { λ a b h. h };

    ghost sub_law = { λ a b r h. h };

    ghost can_mul_law = { λ a b h. h };

    ghost mul_law = { λ a b r h. h };

    ghost can_div_law = { λ a b h. h };

    ghost div_law = { λ a b r h. h };

    ghost can_rem_law = { λ a b h. h };

    ghost rem_law = { λ a b r h. h };

    ghost can_bitor_law = { λ a b. tt };

    ghost bitor_law = { λ a b r h. h };

    ghost can_bitxor_law = { λ a b. tt };

    ghost bitxor_law = { λ a b r h. h };

    ghost can_shl_law = { λ a b h. h };

    ghost shl_law = { λ a b r h. h };

    ghost can_shr_law = { λ a b h. h };

    ghost shr_law = { λ a b r h. h };

    ghost eq_law = { λ a b. refl };
}

impl Word for u64 {
    type Signed = i64;

    ghost width = { 64 };

    ghost fraction = { 52 };

    ghost value = { λ x. x };

    ghost signed = { λ x. x };

    ghost values = { λ xs. xs };

    const HIGHEST: u64 = 0x8000_0000_0000_0000;

    ghost HIGHEST = { 9223372036854775808 };

    const UNIT: u64 = 0x0010_0000_0000_0000;

    ghost UNIT = { 4503599627370496 };

    const ALL: u64 = 0xFFFF_FFFF_FFFF_FFFF;

    ghost ALL = { 18446744073709551615 };

    fn of(n: u8) -> u64 {
        n as u64
    }

    fn wide(self) -> u64 {
        self
    }

    fn narrow(n: u64) -> u64 {
        n
    }

    fn bounded(self) -> u64 {
        self
    }

    fn view(self) -> i64 {
        self.cast_signed()
    }

    fn bits(x: i64) -> u64 {
        x.cast_unsigned()
    }

    fn bit_length(self) -> usize {
        64 - u64::leading_zeros(self) as usize
    }

    fn of_u32(n: u32) -> u64 {
        n as u64
    }

    fn leading_zeros(self) -> u32 {
        u64::leading_zeros(self)
    }

    fn wrapping_add(self, other: u64) -> u64 {
        u64::wrapping_add(self, other)
    }

    fn wrapping_sub(self, other: u64) -> u64 {
        u64::wrapping_sub(self, other)
    }

    ghost highest_law = { refl };

    ghost unit_law = { refl };

    ghost all_law = { refl };

    ghost values_law = { values_are };

    ghost widths_law = { lit≤ tt };

    ghost formats_law = { inr (refl, refl) };

    ghost lt_law = { lt_is };

    ghost le_law = { le_is };

    ghost can_add_law = { λ a b h. h };

    ghost add_law = { λ a b r h. h };

    ghost can_sub_law = { λ a b h. h };

    ghost sub_law = { λ a b r h. h };

    ghost can_mul_law = { λ a b h. h };

    ghost mul_law = { λ a b r h. h };

    ghost can_div_law = { λ a b h. h };

    ghost div_law = { λ a b r h. h };

    ghost can_rem_law = { λ a b h. h };

    ghost rem_law = { λ a b r h. h };

    ghost can_bitor_law = { λ a b. tt };

    ghost bitor_law = { λ a b r h. h };

    ghost can_bitxor_law = { λ a b. tt };

    ghost bitxor_law = { λ a b r h. h };

    ghost can_shl_law = { λ a b h. h };

    ghost shl_law = { λ a b r h. h };

    ghost can_shr_law = { λ a b h. h };

    ghost shr_law = { λ a b r h. h };

    ghost eq_law = { λ a b. refl };
}
