// Lossless code (mode 0), once for all widths. Each function is one step of document 01, its inverse, or a part of the exponent step, over specs/Lossless.antt.
ghost use Rattle.std.specs.Prelude.{◌≡◌, ◌+◌, ◌*◌, ◌^◌, ◌-◌, ◌<◌, ◌≤◌, ◌&&◌, ◌==◌, nat_le};
ghost use Rattle.numbers.specs.Lossless.{rotated, field, stepped, lossless_code, unstepped, unrotated, lossless_restored};

use crate::signed;
use words::Word;

// The sign goes to the lowest place, where it costs no leading zero.
#[tactic(auto, unfolding(crate::specs::Lossless::rotated))]
fn rotated<T: Word>(p: T) -> T
    requires { T.value p < 2 ^ T.width }
    ensures { T.value result ≡ rotated T.width (T.value p) }
{
    p % T::HIGHEST * T::of(2) + p / T::HIGHEST
}

// ---- the exponent step and its inverse. Document 01: "In effect exponent 0 stays 0, and in single precision 1..128 become -128..-1 and 129..255 become 1..127;
// in double, 1..1024 become -1024..-1 and 1025..2047 become 1..1023." So its two subtractions, of 128 units (in double 1024) and then perhaps of one, come to
// one amount in each of three cases of the exponent number: zero, from 1 up to the middle, above it. The fraction and the sign stand below the units and
// stay as they are. The middle exponent is 128 units (1024), which is the highest bit alone.

// One unit of the exponent field, which stands one place higher than in a pattern.
#[tactic(auto, using(crate::proofs::Law::Lossless::unit_below))]
fn unit<T: Word>() -> T
    ensures { T.value result ≡ 2 ^ (T.fraction + 1) }
{
    T::UNIT * T::of(2)
}

// What is subtracted in each case. Up to the middle comes first, for speed: the other two amounts differ in the highest bit alone, and the compiler, which is
// told that bit of the result (`told_highest_bit`), need not choose between them.
#[tactic(auto, using(crate::proofs::Law::Lossless::highest_and_unit))]
fn subtracted<T: Word>(r: T) -> T
    requires { T.value r < 2 ^ T.width }
    ensures zero { field T.fraction (T.value r) ≡ 0 → T.value result ≡ 0 }
    ensures up_to_middle { 1 ≤ field T.fraction (T.value r) → field T.fraction (T.value r) ≤ 2 ^ (T.width - 2 - T.fraction) → T.value result ≡ (2 ^ (T.width - 2 - T.fraction) + 1) * 2 ^ (T.fraction + 1) }
    ensures above_middle { 2 ^ (T.width - 2 - T.fraction) < field T.fraction (T.value r) → T.value result ≡ 2 ^ (T.width - 2 - T.fraction) * 2 ^ (T.fraction + 1) }
{
    if exponent_up_to_middle(r) {
        return T::HIGHEST + unit(); // 129 units: 1..128 become -128..-1
    }
    if exponent_zero(r) {
        return T::of(0); // nothing: 0 stays 0
    }
    T::HIGHEST // above the middle, 128 units: 129..255 become 1..127
}

// Whether the exponent is 0. It stands highest in a rotated pattern, so comparing the whole with one unit decides it.
fn exponent_zero<T: Word>(r: T) -> bool
    requires { T.value r < 2 ^ T.width }
    ensures { result ≡ (field T.fraction (T.value r) == 0) }
{
    r < unit()
}

// Whether it is 1 to 128, in double 1 to 1024. The middle itself counts, with every fraction and sign, so the bound is one unit above it: else 2.0 would share
// the code of zero. (`&` makes both tests, without a jump.)
#[tactic(auto, using(crate::proofs::Law::Lossless::highest_and_unit))]
fn exponent_up_to_middle<T: Word>(r: T) -> bool
    requires { T.value r < 2 ^ T.width }
    ensures { result ≡ (nat_le 1 (field T.fraction (T.value r)) && nat_le (field T.fraction (T.value r)) (2 ^ (T.width - 2 - T.fraction))) }
{
    (unit::<T>() <= r) & (r < T::HIGHEST + unit())
}

// The exponent step is one wrapping difference; the second line changes no value, it is there for speed.
fn stepped<T: Word>(r: T) -> T
    requires { T.value r < 2 ^ T.width }
    ensures { T.value result ≡ stepped T.width T.fraction (T.value r) }
{
    let s = r.wrapping_sub(subtracted(r));
    told_highest_bit(s, exponent_up_to_middle(r))
}

// Returns s unchanged. It only lets the compiler know the highest bit of s without looking for it in the difference: the bit is set exactly where the exponent
// was from 1 up to the middle, since only those come out below zero.
fn told_highest_bit<T: Word>(s: T, set: bool) -> T
    requires { (T.value s < 2 ^ T.width) × (set ≡ nat_le (2 ^ (T.width - 1)) (T.value s)) }
    ensures { T.value result ≡ T.value s }
{
    if set {
        s % T::HIGHEST + T::HIGHEST
    } else {
        s % T::HIGHEST
    }
}

// What the inverse adds, in units: the same amounts. The exponents above zero come from above the middle, those below zero from up to it. The field counts modulo
// 256, in double 2048, so that those below zero, -128..-1, stand in it as 128..255, from the middle on. (In units, since of two amounts that differ by one a
// compiler makes no selection.)
fn added<T: Word>(exponent: T, middle: T) -> T
    requires { T.value middle < 2 ^ (T.width - 1) }
    ensures zero { T.value exponent ≡ 0 → T.value result ≡ 0 }
    ensures above_zero { 1 ≤ T.value exponent → T.value exponent < T.value middle → T.value result ≡ T.value middle }
    ensures below_zero { 1 ≤ T.value exponent → T.value middle ≤ T.value exponent → T.value result ≡ T.value middle + 1 }
    ensures most { T.value result ≤ T.value middle + 1 }
{
    if exponent == T::of(0) {
        return T::of(0); // nothing: 0 stays 0
    }
    if exponent < middle {
        return middle; // above zero: 1..127 become 129..255, in double 1..1023 become 1025..2047
    }
    middle + T::of(1) // below zero: -128..-1, as 128..255, become 1..128, in double -1024..-1 become 1..1024
}

// The inverse is one wrapping sum.
fn unstepped<T: Word>(s: T) -> T
    requires { T.value s < 2 ^ T.width }
    ensures { T.value result ≡ unstepped T.width T.fraction (T.value s) }
{
    s.wrapping_add(added(s / unit(), T::HIGHEST / unit()) * unit())
}

// ---- the rotation undone, and the whole code, there and back

#[tactic(auto, using(crate::proofs::Law::Lossless::bit_below), unfolding(crate::specs::Lossless::unrotated))]
fn unrotated<T: Word>(r: T) -> T
    requires { T.value r < 2 ^ T.width }
    ensures { T.value result ≡ unrotated T.width (T.value r) }
{
    r / T::of(2) + r % T::of(2) * T::HIGHEST
}

// The lossless code of a pattern.
pub fn code<T: Word>(p: T) -> T
    ensures { T.value result ≡ lossless_code T.width T.fraction (T.value p) }
{
    signed::folded(stepped(rotated(p.bounded())).view())
}

// The pattern that has the lossless code `c`.
pub fn restored<T: Word>(c: T) -> T
    ensures { T.value result ≡ lossless_restored T.width T.fraction (T.value c) }
{
    unrotated(unstepped(T::bits(signed::unfolded(c.bounded()))))
}
