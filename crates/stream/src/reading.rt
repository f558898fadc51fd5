// The operations that read a whole stream: check and unpack.
ghost use Rattle.std.specs.Prelude.{◌≡◌, ◌≤◌, length};
ghost use Rattle.stream.specs.Rows.{first, answer};
ghost use Rattle.stream.specs.Header.{header_of};
ghost use Rattle.stream.specs.Lent.{chosen};
ghost use Rattle.stream.specs.Operations.{check_rows, check_answer, unpack_rows, unpack_answer, unpack_out};

use crate::answers::{Answer, Refusal};
use crate::header::Header;
use crate::{chunks, header, restore};

// 1 5 6 7 8 9 8 15 10, and the header where none of them is given: what a library above this one begins with.
pub fn check_opening(level: usize, bytes: &[u8]) -> Result<Header, Refusal>
    ensures { result ≡ answer (first (check_rows level bytes.now)) (header_of bytes.now) }
{
    let h = header::opened(level, bytes)?;
    chunks::content_step(h, bytes)?;
    Ok(h)
}

// Reads a whole stream, and hands out nothing but how many values it has.
pub fn check(level: u32, bytes: &[u8]) -> Answer
    ensures { result ≡ check_answer level bytes.now }
{
    let h = check_opening(level as usize, bytes)?;
    Ok(h.count)
}

// 1 5 6 7 8 14 4 9 8 15 10. Every chunk is checked here, before the first value is written: a refused unpack leaves the output as it was.
fn unpack_opening(width: usize, level: usize, bytes: &[u8], room: usize) -> Result<Header, Refusal>
    ensures { result ≡ answer (first (unpack_rows width level bytes.now room)) (header_of bytes.now) }
{
    let h = header::opened(level, bytes)?;
    let count = h.count;
    if h.width != width {
        return Err(Refusal::OtherWidth);
    }
    if room < count {
        return Err(Refusal::NoRoom(count));
    }
    chunks::content_step(h, bytes)?;
    Ok(h)
}

// The values at the front of the output of the width; on a refusal it is as it was.
fn unpacked_or_refused(
    width: usize,
    level: usize,
    bytes: &[u8],
    room: usize,
    c32: &mut [u32],
    c64: &mut [u64],
    o32: &mut [u32],
    o64: &mut [u64],
) -> Answer
    requires { (room ≡ length (chosen width o32.old o64.old)) × (128 ≤ length (chosen width c32.old c64.old)) }
    ensures value { result ≡ unpack_answer width level bytes.now (length (chosen width o32.old o64.old)) }
    ensures o64_after { chosen width o32.new o64.new ≡ unpack_out width level bytes.now (chosen width o32.old o64.old) }
{
    let h = unpack_opening(width, level, bytes, room)?;
    restore::restore(h, bytes, c32, c64, o32, o64);
    Ok(h.count)
}

pub fn unpack32(level: u32, bytes: &[u8], out: &mut [u32]) -> Answer
    ensures value { result ≡ unpack_answer 32 level bytes.now (length out.old) }
    ensures out_after { out.new ≡ unpack_out 32 level bytes.now out.old }
{
    let mut none = [0u64; 0];
    let mut c32 = [0u32; 128];
    let mut c64 = [0u64; 0];
    let room = out.len();
    unpacked_or_refused(
        32,
        level as usize,
        bytes,
        room,
        &mut c32,
        &mut c64,
        out,
        &mut none,
    )
}

pub fn unpack64(level: u32, bytes: &[u8], out: &mut [u64]) -> Answer
    ensures value { result ≡ unpack_answer 64 level bytes.now (length out.old) }
    ensures out_after { out.new ≡ unpack_out 64 level bytes.now out.old }
{
    let mut none = [0u32; 0];
    let mut c32 = [0u32; 0];
    let mut c64 = [0u64; 128];
    let room = out.len();
    unpacked_or_refused(
        64,
        level as usize,
        bytes,
        room,
        &mut c32,
        &mut c64,
        &mut none,
        out,
    )
}
