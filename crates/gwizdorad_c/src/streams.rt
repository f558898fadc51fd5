// The operations on streams, as C calls them.
ghost use Rattle.std.specs.Prelude.{◌≡◌, length};
ghost use Rattle.stream.specs.Operations.{length_answer, pack_answer, pack_out, unpack_answer, unpack_out, check_answer, probe_answer32, probe_answer64};
ghost use Rattle.gwizdorad.specs.Result.{answer_result, probe_result, probe_out32, probe_out64};

use gwizdorad::streams;

#[unsafe(no_mangle)]
pub extern "C" fn gwz_check(level: u32, bytes: &[u8]) -> u64
    ensures { result ≡ answer_result (check_answer level bytes.now) }
{
    streams::gwz_check(level, bytes)
}

#[unsafe(no_mangle)]
pub extern "C" fn gwz_pack32(
    level: u32,
    mode: u32,
    k: i32,
    group: u32,
    values: &[u32],
    out: &mut [u8],
) -> u64
    ensures value { result ≡ answer_result (pack_answer 32 level mode k group values.now (length out.old)) }
    ensures out_after { out.new ≡ pack_out 32 level mode k group values.now out.old }
{
    streams::gwz_pack32(level, mode, k, group, values, out)
}

#[unsafe(no_mangle)]
pub extern "C" fn gwz_length32(level: u32, mode: u32, k: i32, group: u32, values: &[u32]) -> u64
    ensures { result ≡ answer_result (length_answer 32 level mode k group values.now) }
{
    streams::gwz_length32(level, mode, k, group, values)
}

#[unsafe(no_mangle)]
pub extern "C" fn gwz_unpack32(level: u32, bytes: &[u8], out: &mut [u32]) -> u64
    ensures value { result ≡ answer_result (unpack_answer 32 level bytes.now (length out.old)) }
    ensures out_after { out.new ≡ unpack_out 32 level bytes.now out.old }
{
    streams::gwz_unpack32(level, bytes, out)
}

#[unsafe(no_mangle)]
pub extern "C" fn gwz_probe32(level: u32, bytes: &[u8], index: u64, pattern: &mut u32) -> u64
    ensures value { result ≡ probe_result (probe_answer32 level bytes.now index) }
    ensures pattern_after { pattern.new ≡ probe_out32 (probe_answer32 level bytes.now index) pattern.old }
{
    streams::gwz_probe32(level, bytes, index, pattern)
}

#[unsafe(no_mangle)]
pub extern "C" fn gwz_pack64(
    level: u32,
    mode: u32,
    k: i32,
    group: u32,
    values: &[u64],
    out: &mut [u8],
) -> u64
    ensures value { result ≡ answer_result (pack_answer 64 level mode k group values.now (length out.old)) }
    ensures out_after { out.new ≡ pack_out 64 level mode k group values.now out.old }
{
    streams::gwz_pack64(level, mode, k, group, values, out)
}

#[unsafe(no_mangle)]
pub extern "C" fn gwz_length64(level: u32, mode: u32, k: i32, group: u32, values: &[u64]) -> u64
    ensures { result ≡ answer_result (length_answer 64 level mode k group values.now) }
{
    streams::gwz_length64(level, mode, k, group, values)
}

#[unsafe(no_mangle)]
pub extern "C" fn gwz_unpack64(level: u32, bytes: &[u8], out: &mut [u64]) -> u64
    ensures value { result ≡ answer_result (unpack_answer 64 level bytes.now (length out.old)) }
    ensures out_after { out.new ≡ unpack_out 64 level bytes.now out.old }
{
    streams::gwz_unpack64(level, bytes, out)
}

#[unsafe(no_mangle)]
pub extern "C" fn gwz_probe64(level: u32, bytes: &[u8], index: u64, pattern: &mut u64) -> u64
    ensures value { result ≡ probe_result (probe_answer64 level bytes.now index) }
    ensures pattern_after { pattern.new ≡ probe_out64 (probe_answer64 level bytes.now index) pattern.old }
{
    streams::gwz_probe64(level, bytes, index, pattern)
}
