// The summary beside the data for C: numbers and slices in, one 64-bit number out.
ghost use Rattle.std.specs.Prelude.{◌≡◌, length};
ghost use Rattle.summary.specs.Operations.{add_answer, add_out, test_answer, list_answer, list_out};
ghost use Rattle.gwizdorad.specs.Result.{answer_result};

use crate::answer;
use summary::{adding, listed, testing};

#[unsafe(no_mangle)]
pub extern "C" fn gwz_add_summary(level: u32, bytes: &[u8], out: &mut [u8]) -> u64
    ensures value { result ≡ answer_result (add_answer level bytes.now (length out.old)) }
    ensures out_after { out.new ≡ add_out level bytes.now out.old }
{
    answer::result_of_answer(adding::add_summary(level, bytes, out))
}

#[unsafe(no_mangle)]
pub extern "C" fn gwz_test_summary(level: u32, bytes: &[u8]) -> u64
    ensures { result ≡ answer_result (test_answer level bytes.now) }
{
    answer::result_of_answer(testing::test_summary(level, bytes))
}

#[unsafe(no_mangle)]
pub extern "C" fn gwz_chunks_from32(level: u32, x: u32, bytes: &[u8], out: &mut [u32]) -> u64
    ensures value { result ≡ answer_result (list_answer 32 level x bytes.now (length out.old)) }
    ensures out_after { out.new ≡ list_out 32 level x bytes.now out.old }
{
    answer::result_of_answer(listed::chunks_from(level, x, bytes, out))
}

#[unsafe(no_mangle)]
pub extern "C" fn gwz_chunks_from64(level: u32, x: u64, bytes: &[u8], out: &mut [u32]) -> u64
    ensures value { result ≡ answer_result (list_answer 64 level x bytes.now (length out.old)) }
    ensures out_after { out.new ≡ list_out 64 level x bytes.now out.old }
{
    answer::result_of_answer(listed::chunks_from(level, x, bytes, out))
}
