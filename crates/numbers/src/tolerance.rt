// Tolerance code (mode 1) under a tolerance 2^k: a rule for halves that is not known, a k that is not allowed, and a code whose u is above the largest, are
// refused here, before the rule at a bin (`bins`) is asked.
ghost use Rattle.std.specs.Prelude.{◌≡◌, option_map};
ghost use Rattle.numbers.specs.Answers.{code_answer, pattern_answer, pattern_of};

use bins::bin;
use bins::kernel::Kernel;

// Why a code has no pattern: the k is not allowed, or its u is above the largest.
#[derive(Clone, Copy, Debug, PartialEq, Eq)]
pub enum PatternError {
    NotAllowed,
    AboveLargest,
}

// The tolerance code of a pattern under the tolerance 2^k, a half going away from zero (0) or to even (1). A rule or a k that is not allowed has none. (The k
// comes first for speed: the compiler then makes one test of both.)
pub fn code<T: Kernel>(halves: u32, k: i32, p: T) -> Option<T>
    ensures { option_map T.value result ≡ code_answer T.width T.fraction halves k (T.value p) }
{
    let j = bin::bin::<T>(k)?;
    if 1 < halves {
        return None;
    }
    Some(bin::code_at_bin(halves, j, p))
}

// The pattern of a tolerance code under the tolerance 2^k.
pub fn restored<T: Kernel>(k: i32, c: T) -> Result<T, PatternError>
    ensures { pattern_of T.value result ≡ pattern_answer T.width T.fraction k (T.value c) }
{
    let j = bin::bin::<T>(k).ok_or(PatternError::NotAllowed)?;
    if bin::largest_u::<T>(j) < c / T::of(2) {
        return Err(PatternError::AboveLargest);
    }
    Ok(bin::restored_at_bin(j, c))
}
