// The fold of a signed number to an unsigned code, and the way back: the last step of the lossless code and of the difference code; and the two's complement of an exponent.
ghost use Rattle.std.specs.Prelude.{◌≡◌, ◌^◌, ◌<◌, unsigned_abs};
ghost use Rattle.numbers.specs.Signed.{signed_view, folded, unfolded, bits_of};

use words::Word;

// The fold and the way back without a branch: the bits but for the highest, moved up, and all of them turned where the number is below 0.
pub(crate) fn folded<T: Word>(x: T::Signed) -> T
    ensures { T.value result ≡ folded (T.signed x) }
{
    let s = T::bits(x).bounded();
    (s % T::HIGHEST * T::of(2)) ^ (s / T::HIGHEST * T::ALL)
}

pub(crate) fn unfolded<T: Word>(c: T) -> T::Signed
    requires { T.value c < 2 ^ T.width }
    ensures { T.signed result ≡ unfolded (T.value c) }
{
    ((c / T::of(2)) ^ (c % T::of(2) * T::ALL)).view()
}

// The number that 32 bits are in two's complement, and its bits.
pub fn view32(s: u32) -> i32
    ensures { result ≡ signed_view 32 s }
{
    s.cast_signed()
}

pub fn bits32(x: i32) -> u32
    ensures { result ≡ bits_of 32 x }
{
    x.cast_unsigned()
}

// A signed number without its sign, for a program that prints an exponent.
pub fn size32(x: i32) -> u32
    ensures { result ≡ unsigned_abs x }
{
    x.unsigned_abs()
}
