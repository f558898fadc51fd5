// The number rules for C.
ghost use Rattle.std.specs.Prelude.{◌≡◌, ◌^◌, ◌<◌};
ghost use Rattle.numbers.specs.Lossless.{lossless_code, lossless_restored};
ghost use Rattle.numbers.specs.Answers.{code_answer, pattern_answer};
ghost use Rattle.numbers.specs.Bound.{bound_answer};
ghost use Rattle.gwizdorad_numbers.specs.Result.{bound_result, code_result, code_out, pattern_result, pattern_out};

use crate::result;
use bins::kernel::Kernel;
use numbers::bound::BoundError;
use numbers::tolerance::PatternError;
use numbers::{bound, lossless, signed, tolerance};

#[unsafe(no_mangle)]
pub extern "C" fn gwz_bound(width: u32, tolerance: u64) -> u64
    ensures { result ≡ bound_result (bound_answer width tolerance) }
{
    let answer = bound::bound(width, tolerance);
    match answer {
        Ok(k) => result::result_of(0, signed::bits32(k) as usize),
        Err(BoundError::UnknownWidth) => result::result_of(2, 0),
        Err(BoundError::NoTolerance) => result::result_of(12, 0),
        Err(BoundError::TooSmall) => result::result_of(13, 0),
    }
}

#[unsafe(no_mangle)]
pub extern "C" fn gwz_lossless_code32(pattern: u32) -> u32
    ensures { result ≡ lossless_code 32 23 pattern }
{
    lossless::code(pattern)
}

#[unsafe(no_mangle)]
pub extern "C" fn gwz_lossless_restored32(code: u32) -> u32
    ensures { result ≡ lossless_restored 32 23 code }
{
    lossless::restored(code)
}

#[unsafe(no_mangle)]
pub extern "C" fn gwz_lossless_code64(pattern: u64) -> u64
    ensures { result ≡ lossless_code 64 52 pattern }
{
    lossless::code(pattern)
}

#[unsafe(no_mangle)]
pub extern "C" fn gwz_lossless_restored64(code: u64) -> u64
    ensures { result ≡ lossless_restored 64 52 code }
{
    lossless::restored(code)
}

// The tolerance code and its way back once for both widths: what is answered goes where the caller lent room, and a refusal leaves that as it was. The exports
// below stay two of each, since C has a name for each width.
fn tolerance_code<T: Kernel>(halves: u32, k: i32, pattern: T, code: &mut T) -> u64
    requires { T.value pattern < 2 ^ T.width }
    ensures value { result ≡ code_result (code_answer T.width T.fraction halves k (T.value pattern)) }
    ensures code_after { T.value code.new ≡ code_out (code_answer T.width T.fraction halves k (T.value pattern)) (T.value code.old) }
{
    match tolerance::code(halves, k, pattern) {
        Some(c) => {
            *code = c;
            result::result_of(0, 0)
        }
        None => result::result_of(2, 0),
    }
}

fn tolerance_restored<T: Kernel>(k: i32, code: T, pattern: &mut T) -> u64
    requires { T.value code < 2 ^ T.width }
    ensures value { result ≡ pattern_result (pattern_answer T.width T.fraction k (T.value code)) }
    ensures pattern_after { T.value pattern.new ≡ pattern_out (pattern_answer T.width T.fraction k (T.value code)) (T.value pattern.old) }
{
    match tolerance::restored(k, code) {
        Ok(p) => {
            *pattern = p;
            result::result_of(0, 0)
        }
        Err(PatternError::NotAllowed) => result::result_of(2, 0),
        Err(PatternError::AboveLargest) => result::result_of(10, 0),
    }
}

#[unsafe(no_mangle)]
pub extern "C" fn gwz_tolerance_code32(halves: u32, k: i32, pattern: u32, code: &mut u32) -> u64
    ensures value { result ≡ code_result (code_answer 32 23 halves k pattern) }
    ensures code_after { code.new ≡ code_out (code_answer 32 23 halves k pattern) code.old }
{
    tolerance_code(halves, k, pattern, code)
}

#[unsafe(no_mangle)]
pub extern "C" fn gwz_tolerance_restored32(k: i32, code: u32, pattern: &mut u32) -> u64
    ensures value { result ≡ pattern_result (pattern_answer 32 23 k code) }
    ensures pattern_after { pattern.new ≡ pattern_out (pattern_answer 32 23 k code) pattern.old }
{
    tolerance_restored(k, code, pattern)
}

#[unsafe(no_mangle)]
pub extern "C" fn gwz_tolerance_code64(halves: u32, k: i32, pattern: u64, code: &mut u64) -> u64
    ensures value { result ≡ code_result (code_answer 64 52 halves k pattern) }
    ensures code_after { code.new ≡ code_out (code_answer 64 52 halves k pattern) code.old }
{
    tolerance_code(halves, k, pattern, code)
}

#[unsafe(no_mangle)]
pub extern "C" fn gwz_tolerance_restored64(k: i32, code: u64, pattern: &mut u64) -> u64
    ensures value { result ≡ pattern_result (pattern_answer 64 52 k code) }
    ensures pattern_after { pattern.new ≡ pattern_out (pattern_answer 64 52 k code) pattern.old }
{
    tolerance_restored(k, code, pattern)
}
