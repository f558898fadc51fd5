// The order of patterns: which are numbers, and the rank that a number has in the order of the summary. Every function is one choice between two sums, so that
// a loop over values needs no branch.
ghost use Rattle.std.specs.Prelude.{◌≡◌};
ghost use Rattle.summary.specs.Order.{not_a_number, rank};
ghost use Rattle.summary.specs.Private.{pattern_of, floor_rank};

use words::Word;

// Infinities are numbers here.
pub(crate) fn not_a_number<T: Word>(p: T) -> bool
    ensures { result ≡ not_a_number T.width T.fraction (T.value p) }
{
    T::HIGHEST - T::UNIT < p % T::HIGHEST
}

// The place of a pattern in the order of the summary.
pub(crate) fn rank<T: Word>(p: T) -> T
    ensures { T.value result ≡ rank T.width (T.value p) }
{
    let p = p.bounded();
    if p < T::HIGHEST {
        T::HIGHEST + p
    } else {
        T::ALL - p
    }
}

// The pattern at a place.
pub(crate) fn pattern<T: Word>(rank: T) -> T
    ensures { T.value result ≡ pattern_of T.width (T.value rank) }
{
    if rank < T::HIGHEST {
        T::ALL - rank
    } else {
        rank - T::HIGHEST
    }
}

// The place from which on every number is at least x: that of x, and for both zeros that of -0.
pub(crate) fn floor_rank<T: Word>(x: T) -> T
    ensures { T.value result ≡ floor_rank T.width (T.value x) }
{
    if x % T::HIGHEST == T::of(0) {
        T::HIGHEST - T::of(1)
    } else {
        rank(x)
    }
}
