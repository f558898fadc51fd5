// The rule for halves, as far as code asks it: 1 is to even, and any other number away from zero.
ghost use Rattle.std.specs.Prelude.{◌≡◌, ◌%◌, if◌then◌else◌, nat_eq};

use words::Word;

// What a number is above the even one below it, where halves go to even, and else nothing.
pub(crate) fn odd<T: Word>(halves: u32, n: T) -> T
    ensures { T.value result ≡ (if nat_eq halves 1 then T.value n % 2 else 0) }
{
    if halves == 1 { n % T::of(2) } else { T::of(0) }
}
