// bound: from a tolerance, a binary64 pattern, to the exponent k that a setting takes.
ghost use Rattle.std.specs.Prelude.{◌≡◌, true};
ghost use Rattle.std.specs.Float.Ieee.{size};
ghost use Rattle.bins.specs.Tolerance.{magnitude};
ghost use Rattle.numbers.specs.Bound.{is_tolerance, bound_at, bound_answer};

use bins::bin;
use bins::kernel::Kernel;

// Why there is no k: the width is not 32 or 64, the tolerance is not a finite number above 0, or no allowed k is small enough.
#[derive(Clone, Copy, Debug, PartialEq, Eq)]
pub enum BoundError {
    UnknownWidth,
    NoTolerance,
    TooSmall,
}

// Whether a pattern is a finite number above 0: from the pattern of infinity on are the not-a-numbers and all negatives.
fn is_tolerance(t: u64) -> bool
    ensures { result ≡ is_tolerance t }
{
    (0 < t) & (t < 0x7FF0_0000_0000_0000)
}

// How many binary digits the magnitude of a tolerance has: half of the bin 2^j, the 2^k of width 64, is not above it for j up to that many.
fn digits_of(t: u64) -> u32
    requires { is_tolerance t ≡ true }
    ensures { result ≡ size (magnitude 52 t) }
{
    let e = t / 0x0010_0000_0000_0000;
    if e == 0 {
        return 64 - u64::leading_zeros(t);
    }
    (e + 52) as u32
}

fn bound_at<T: Kernel>(t: u64) -> Result<i32, BoundError>
    ensures { result ≡ bound_at T.width T.fraction t }
{
    let some = is_tolerance(t);
    if !some {
        return Err(BoundError::NoTolerance);
    }
    let d = digits_of(t);
    if d < T::LIFT {
        return Err(BoundError::TooSmall);
    }
    Ok(bin::clipped::<T>(d - T::LIFT) as i32 + T::LEAST)
}

// The largest k allowed at the width with 2^k not above the tolerance.
pub fn bound(width: u32, tolerance: u64) -> Result<i32, BoundError>
    ensures { result ≡ bound_answer width tolerance }
{
    match width {
        32 => bound_at::<u32>(tolerance),
        64 => bound_at::<u64>(tolerance),
        _ => Err(BoundError::UnknownWidth),
    }
}
