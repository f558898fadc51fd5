// The known values and slips of document 01 that concern numbers, run through the library; `stdout` beside this folder has what they
// should be, taken from the document. The values marked * there are proved too, in the library's proofs/Known.antt.
#![tactic(auto)]

use numbers::bound::BoundError;
use numbers::tolerance::PatternError;
use std::io;

fn text(rt: &impl Print, t: &[u8]) -> io::Result<()> {
    rt.write_all(t)
}

// A number after a space, in hexadecimal.
fn hex(rt: &impl Print, n: u64, width: usize) -> io::Result<()> {
    text(rt, b" ")?;
    print!(rt; "{n:0width$x}")
}

fn refused(rt: &impl Print, number: u64) -> io::Result<()> {
    text(rt, b" refused ")?;
    print!(rt; "{number}")
}

fn signed(rt: &impl Print, k: i32) -> io::Result<()> {
    if k < 0 {
        text(rt, b" -")?;
    } else {
        text(rt, b" ")?;
    }
    print!(rt; "{}", numbers::signed::size32(k))
}

// Pattern, code, and the pattern restored from it.
fn lossless32(rt: &impl Print, p: u32) -> io::Result<()> {
    text(rt, b"lossless 32")?;
    hex(rt, p as u64, 8)?;
    let c = numbers::lossless::code(p);
    hex(rt, c as u64, 8)?;
    hex(rt, numbers::lossless::restored(c) as u64, 8)?;
    text(rt, b"\n")
}

fn lossless64(rt: &impl Print, p: u64) -> io::Result<()> {
    text(rt, b"lossless 64")?;
    hex(rt, p, 16)?;
    let c = numbers::lossless::code(p);
    hex(rt, c, 16)?;
    hex(rt, numbers::lossless::restored(c), 16)?;
    text(rt, b"\n")
}

fn code<T: Into<u64>>(rt: &impl Print, a: Option<T>) -> io::Result<()> {
    match a {
        Some(c) => hex(rt, c.into(), 8),
        None => refused(rt, 2),
    }
}

fn pattern(rt: &impl Print, a: Result<u32, PatternError>) -> io::Result<()> {
    match a {
        Ok(p) => hex(rt, p as u64, 8),
        Err(PatternError::NotAllowed) => refused(rt, 2),
        Err(PatternError::AboveLargest) => refused(rt, 10),
    }
}

// The exponent, a pattern, and its code, a half going away from zero.
fn coded(rt: &impl Print, k: i32, p: u32) -> io::Result<()> {
    text(rt, b"code 32 k")?;
    signed(rt, k)?;
    hex(rt, p as u64, 8)?;
    code(rt, numbers::tolerance::code(0, k, p))?;
    text(rt, b"\n")
}

// The rule for halves, the exponent, a pattern, and its code.
fn ruled32(rt: &impl Print, halves: u32, k: i32, p: u32) -> io::Result<()> {
    text(rt, b"halves ")?;
    print!(rt; "{halves}")?;
    text(rt, b" code 32 k")?;
    signed(rt, k)?;
    hex(rt, p as u64, 8)?;
    code(rt, numbers::tolerance::code(halves, k, p))?;
    text(rt, b"\n")
}

fn ruled64(rt: &impl Print, halves: u32, k: i32, p: u64) -> io::Result<()> {
    text(rt, b"halves ")?;
    print!(rt; "{halves}")?;
    text(rt, b" code 64 k")?;
    signed(rt, k)?;
    hex(rt, p, 16)?;
    code(rt, numbers::tolerance::code(halves, k, p))?;
    text(rt, b"\n")
}

// The exponent, a code, and the pattern restored.
fn restored(rt: &impl Print, k: i32, c: u32) -> io::Result<()> {
    text(rt, b"restored 32 k")?;
    signed(rt, k)?;
    hex(rt, c as u64, 8)?;
    pattern(rt, numbers::tolerance::restored(k, c))?;
    text(rt, b"\n")
}

fn bound(rt: &impl Print, width: u32, tolerance: u64) -> io::Result<()> {
    text(rt, b"bound ")?;
    print!(rt; "{width}")?;
    hex(rt, tolerance, 16)?;
    match numbers::bound::bound(width, tolerance) {
        Ok(k) => signed(rt, k),
        Err(BoundError::UnknownWidth) => refused(rt, 2),
        Err(BoundError::NoTolerance) => refused(rt, 12),
        Err(BoundError::TooSmall) => refused(rt, 13),
    }?;
    text(rt, b"\n")
}

fn lossless_values(rt: &impl Print) -> io::Result<()> {
    lossless32(rt, 0x0000_0000)?;
    lossless32(rt, 0x8000_0000)?;
    lossless32(rt, 0x0000_0001)?;
    lossless32(rt, 0x3F80_0000)?;
    lossless32(rt, 0xBF80_0000)?;
    lossless32(rt, 0x4000_0000)?;
    lossless32(rt, 0x4080_0000)?;
    lossless32(rt, 0x0080_0000)?;
    lossless32(rt, 0x7F80_0000)?;
    lossless32(rt, 0x7FC0_0000)?;
    lossless64(rt, 0x3FF0_0000_0000_0000)
}

// At k = -2: 0.25, 0.21875, -0.75, 4194303.75, 4194304, infinity, the largest u and one more, 3E7FFFFF, a not-a-number, -0.1;
// then a k on either side of the allowed.
fn tolerance_values(rt: &impl Print) -> io::Result<()> {
    coded(rt, -2, 0x3E80_0000)?;
    restored(rt, -2, 2)?;
    coded(rt, -2, 0x3E60_0000)?;
    coded(rt, -2, 0xBF40_0000)?;
    restored(rt, -2, 5)?;
    coded(rt, -2, 0x4A7F_FFFF)?;
    coded(rt, -2, 0x4A80_0000)?;
    restored(rt, -2, 16777216)?;
    coded(rt, -2, 0x7F80_0000)?;
    restored(rt, -2, 1795162112)?;
    restored(rt, -2, 1811939326)?;
    restored(rt, -2, 1811939328)?;
    coded(rt, -2, 0x3E7F_FFFF)?;
    coded(rt, -2, 0x7FC0_0001)?;
    restored(rt, -2, 1803550722)?;
    coded(rt, -2, 0xBDCC_CCCD)?;
    restored(rt, -2, 1)?;
    coded(rt, 104, 0x3F80_0000)?;
    restored(rt, -151, 0)
}

// Halves to even, at k = -2: 0.25, -0.75, 4194303.75, -1.25 by both rules, and the numbers beside 0.25; at k = -149, below the bins of the floats, the smallest number
// and thrice that; 0.25 and 0.75 at width 64. Then rules that are not known, with a k that is allowed and one that is not.
fn halves(rt: &impl Print) -> io::Result<()> {
    ruled32(rt, 1, -2, 0x3E80_0000)?;
    ruled32(rt, 1, -2, 0xBF40_0000)?;
    ruled32(rt, 1, -2, 0x4A7F_FFFF)?;
    ruled32(rt, 0, -2, 0xBFA0_0000)?;
    ruled32(rt, 1, -2, 0xBFA0_0000)?;
    ruled32(rt, 1, -2, 0x3E7F_FFFF)?;
    ruled32(rt, 1, -2, 0x3E80_0001)?;
    ruled32(rt, 0, -149, 0x0000_0001)?;
    ruled32(rt, 1, -149, 0x0000_0001)?;
    ruled32(rt, 1, -149, 0x0000_0003)?;
    ruled64(rt, 1, -2, 0x3FD0_0000_0000_0000)?;
    ruled64(rt, 1, -2, 0x3FE8_0000_0000_0000)?;
    ruled32(rt, 2, -2, 0x3E80_0000)?;
    ruled64(rt, 4294967295, 971, 0x3FD0_0000_0000_0000)
}

// 0.3, 0.25, 2^200, 2^-150, 2^-151, 0, -0, infinity, a not-a-number and -1 at width 32; then the smallest number and 2^1000 at
// width 64, and a width that is not known.
fn bound_values(rt: &impl Print) -> io::Result<()> {
    bound(rt, 32, 0x3FD3_3333_3333_3333)?;
    bound(rt, 32, 0x3FD0_0000_0000_0000)?;
    bound(rt, 32, 0x4C70_0000_0000_0000)?;
    bound(rt, 32, 0x3690_0000_0000_0000)?;
    bound(rt, 32, 0x3680_0000_0000_0000)?;
    bound(rt, 32, 0x0000_0000_0000_0000)?;
    bound(rt, 32, 0x8000_0000_0000_0000)?;
    bound(rt, 32, 0x7FF0_0000_0000_0000)?;
    bound(rt, 32, 0x7FF8_0000_0000_0000)?;
    bound(rt, 32, 0xBFF0_0000_0000_0000)?;
    bound(rt, 64, 0x0000_0000_0000_0001)?;
    bound(rt, 64, 0x7E70_0000_0000_0000)?;
    bound(rt, 48, 0x0000_0000_0000_0000)
}

fn main(rt: HostRuntime) -> io::Result<()> {
    lossless_values(&rt)?;
    tolerance_values(&rt)?;
    halves(&rt)?;
    bound_values(&rt)
}
