// Difference code (mode 2) of a pattern behind another, and the way back, over specs/Difference.antt. The last step is the lossless code's.
ghost use Rattle.std.specs.Prelude.{◌≡◌};
ghost use Rattle.numbers.specs.Difference.{difference_code, difference_restored};

use crate::signed;
use words::Word;

// The difference code of a pattern.
pub fn code<T: Word>(before: T, p: T) -> T
    ensures { T.value result ≡ difference_code T.width (T.value before) (T.value p) }
{
    signed::folded(p.wrapping_sub(before).view())
}

// The pattern that has the difference code `c`.
pub fn restored<T: Word>(before: T, c: T) -> T
    ensures { T.value result ≡ difference_restored T.width (T.value before) (T.value c) }
{
    before.wrapping_add(T::bits(signed::unfolded(c.bounded())))
}
