// The number rules, as C calls them.
ghost use Rattle.std.specs.Prelude.{◌≡◌};
ghost use Rattle.numbers.specs.Lossless.{lossless_code, lossless_restored};
ghost use Rattle.numbers.specs.Answers.{code_answer, pattern_answer};
ghost use Rattle.numbers.specs.Bound.{bound_answer};
ghost use Rattle.gwizdorad_numbers.specs.Result.{bound_result, code_result, code_out, pattern_result, pattern_out};

use gwizdorad_numbers::solver;

#[unsafe(no_mangle)]
pub extern "C" fn gwz_bound(width: u32, tolerance: u64) -> u64
    ensures { result ≡ bound_result (bound_answer width tolerance) }
{
    solver::gwz_bound(width, tolerance)
}

#[unsafe(no_mangle)]
pub extern "C" fn gwz_lossless_code32(pattern: u32) -> u32
    ensures { result ≡ lossless_code 32 23 pattern }
{
    solver::gwz_lossless_code32(pattern)
}

#[unsafe(no_mangle)]
pub extern "C" fn gwz_lossless_restored32(code: u32) -> u32
    ensures { result ≡ lossless_restored 32 23 code }
{
    solver::gwz_lossless_restored32(code)
}

#[unsafe(no_mangle)]
pub extern "C" fn gwz_lossless_code64(pattern: u64) -> u64
    ensures { result ≡ lossless_code 64 52 pattern }
{
    solver::gwz_lossless_code64(pattern)
}

#[unsafe(no_mangle)]
pub extern "C" fn gwz_lossless_restored64(code: u64) -> u64
    ensures { result ≡ lossless_restored 64 52 code }
{
    solver::gwz_lossless_restored64(code)
}

#[unsafe(no_mangle)]
pub extern "C" fn gwz_tolerance_code32(halves: u32, k: i32, pattern: u32, code: &mut u32) -> u64
    ensures value { result ≡ code_result (code_answer 32 23 halves k pattern) }
    ensures code_after { code.new ≡ code_out (code_answer 32 23 halves k pattern) code.old }
{
    solver::gwz_tolerance_code32(halves, k, pattern, code)
}

#[unsafe(no_mangle)]
pub extern "C" fn gwz_tolerance_restored32(k: i32, code: u32, pattern: &mut u32) -> u64
    ensures value { result ≡ pattern_result (pattern_answer 32 23 k code) }
    ensures pattern_after { pattern.new ≡ pattern_out (pattern_answer 32 23 k code) pattern.old }
{
    solver::gwz_tolerance_restored32(k, code, pattern)
}

#[unsafe(no_mangle)]
pub extern "C" fn gwz_tolerance_code64(halves: u32, k: i32, pattern: u64, code: &mut u64) -> u64
    ensures value { result ≡ code_result (code_answer 64 52 halves k pattern) }
    ensures code_after { code.new ≡ code_out (code_answer 64 52 halves k pattern) code.old }
{
    solver::gwz_tolerance_code64(halves, k, pattern, code)
}

#[unsafe(no_mangle)]
pub extern "C" fn gwz_tolerance_restored64(k: i32, code: u64, pattern: &mut u64) -> u64
    ensures value { result ≡ pattern_result (pattern_answer 64 52 k code) }
    ensures pattern_after { pattern.new ≡ pattern_out (pattern_answer 64 52 k code) pattern.old }
{
    solver::gwz_tolerance_restored64(k, code, pattern)
}
