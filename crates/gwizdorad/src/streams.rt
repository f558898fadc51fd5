// The operations on streams for C.
ghost use Rattle.std.specs.Prelude.{◌≡◌, length};
ghost use Rattle.stream.specs.Operations.{length_answer, pack_answer, pack_out, unpack_answer, unpack_out, check_answer, probe_answer32, probe_answer64};
ghost use Rattle.gwizdorad.specs.Result.{answer_result, probe_result, infinity32, probe_out32, infinity64, probe_out64};

use crate::answer;
use gwizdorad_numbers::result;
use stream::answers::Shown;
use stream::{pack, probe, reading};

// What probe answers: the value's kind.
const FINITE: usize = 0;

const INFINITE: usize = 1;

const NOT_A_NUMBER: usize = 2;

#[unsafe(no_mangle)]
pub extern "C" fn gwz_check(level: u32, bytes: &[u8]) -> u64
    ensures { result ≡ answer_result (check_answer level bytes.now) }
{
    answer::result_of_answer(reading::check(level, bytes))
}

#[unsafe(no_mangle)]
pub extern "C" fn gwz_pack32(
    level: u32,
    mode: u32,
    k: i32,
    group: u32,
    values: &[u32],
    out: &mut [u8],
) -> u64
    ensures value { result ≡ answer_result (pack_answer 32 level mode k group values.now (length out.old)) }
    ensures out_after { out.new ≡ pack_out 32 level mode k group values.now out.old }
{
    answer::result_of_answer(pack::pack32(level, mode, k, group, values, out))
}

#[unsafe(no_mangle)]
pub extern "C" fn gwz_length32(level: u32, mode: u32, k: i32, group: u32, values: &[u32]) -> u64
    ensures { result ≡ answer_result (length_answer 32 level mode k group values.now) }
{
    answer::result_of_answer(pack::length32(level, mode, k, group, values))
}

#[unsafe(no_mangle)]
pub extern "C" fn gwz_unpack32(level: u32, bytes: &[u8], out: &mut [u32]) -> u64
    ensures value { result ≡ answer_result (unpack_answer 32 level bytes.now (length out.old)) }
    ensures out_after { out.new ≡ unpack_out 32 level bytes.now out.old }
{
    answer::result_of_answer(reading::unpack32(level, bytes, out))
}

// The pattern of an infinity.
fn infinity32(negative: bool) -> u32
    ensures { result ≡ infinity32 negative }
{
    if negative { 0xFF80_0000 } else { 0x7F80_0000 }
}

// The answer says what kind of value it is, and the pattern goes through the pointer; a refusal leaves it as it was.
#[unsafe(no_mangle)]
pub extern "C" fn gwz_probe32(level: u32, bytes: &[u8], index: u64, pattern: &mut u32) -> u64
    ensures value { result ≡ probe_result (probe_answer32 level bytes.now index) }
    ensures pattern_after { pattern.new ≡ probe_out32 (probe_answer32 level bytes.now index) pattern.old }
{
    let answer = probe::probe32(level, bytes, index as usize);
    match answer {
        Ok(shown) => match shown {
            Shown::Finite(x) => {
                *pattern = f32::to_bits(x);
                result::result_of(0, FINITE)
            }
            Shown::Infinity(negative) => {
                *pattern = infinity32(negative);
                result::result_of(0, INFINITE)
            }
            Shown::NotANumber(p) => {
                *pattern = p;
                result::result_of(0, NOT_A_NUMBER)
            }
        },
        Err(refusal) => result::result_of(refusal.number(), refusal.detail()),
    }
}

#[unsafe(no_mangle)]
pub extern "C" fn gwz_pack64(
    level: u32,
    mode: u32,
    k: i32,
    group: u32,
    values: &[u64],
    out: &mut [u8],
) -> u64
    ensures value { result ≡ answer_result (pack_answer 64 level mode k group values.now (length out.old)) }
    ensures out_after { out.new ≡ pack_out 64 level mode k group values.now out.old }
{
    answer::result_of_answer(pack::pack64(level, mode, k, group, values, out))
}

#[unsafe(no_mangle)]
pub extern "C" fn gwz_length64(level: u32, mode: u32, k: i32, group: u32, values: &[u64]) -> u64
    ensures { result ≡ answer_result (length_answer 64 level mode k group values.now) }
{
    answer::result_of_answer(pack::length64(level, mode, k, group, values))
}

#[unsafe(no_mangle)]
pub extern "C" fn gwz_unpack64(level: u32, bytes: &[u8], out: &mut [u64]) -> u64
    ensures value { result ≡ answer_result (unpack_answer 64 level bytes.now (length out.old)) }
    ensures out_after { out.new ≡ unpack_out 64 level bytes.now out.old }
{
    answer::result_of_answer(reading::unpack64(level, bytes, out))
}

// The pattern of an infinity.
fn infinity64(negative: bool) -> u64
    ensures { result ≡ infinity64 negative }
{
    if negative {
        0xFFF0_0000_0000_0000
    } else {
        0x7FF0_0000_0000_0000
    }
}

// The answer says what kind of value it is, and the pattern goes through the pointer; a refusal leaves it as it was.
#[unsafe(no_mangle)]
pub extern "C" fn gwz_probe64(level: u32, bytes: &[u8], index: u64, pattern: &mut u64) -> u64
    ensures value { result ≡ probe_result (probe_answer64 level bytes.now index) }
    ensures pattern_after { pattern.new ≡ probe_out64 (probe_answer64 level bytes.now index) pattern.old }
{
    let answer = probe::probe64(level, bytes, index as usize);
    match answer {
        Ok(shown) => match shown {
            Shown::Finite(x) => {
                *pattern = f64::to_bits(x);
                result::result_of(0, FINITE)
            }
            Shown::Infinity(negative) => {
                *pattern = infinity64(negative);
                result::result_of(0, INFINITE)
            }
            Shown::NotANumber(p) => {
                *pattern = p;
                result::result_of(0, NOT_A_NUMBER)
            }
        },
        Err(refusal) => result::result_of(refusal.number(), refusal.detail()),
    }
}
