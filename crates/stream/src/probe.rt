// probe: one value by its index. "Probe tells apart a finite number as a float, an infinity with its sign, and a not-a-number with its
// pattern." No other chunk's bytes are looked at.
ghost use Rattle.std.specs.Prelude.{◌≡◌};
ghost use Rattle.stream.specs.Rows.{first, answer};
ghost use Rattle.stream.specs.Header.{header_of};
ghost use Rattle.stream.specs.Probe.{shown32, shown64};
ghost use Rattle.stream.specs.Operations.{probe_rows, probe_answer32, probe_answer64};

use crate::answers::{Refusal, Shown};
use crate::header::Header;
use crate::{chunks, header, restore};

// The pattern without its sign is above that of infinity at a not-a-number, and below it at a finite number.
fn show32(p: u32) -> Shown<f32, u32>
    ensures { result ≡ shown32 p }
{
    let ordinal = p % 0x8000_0000;
    if 0x7F80_0000 < ordinal {
        return Shown::NotANumber(p);
    }
    if ordinal == 0x7F80_0000 {
        return Shown::Infinity(0x8000_0000 <= p);
    }
    Shown::Finite(f32::from_bits(p))
}

fn show64(p: u64) -> Shown<f64, u64>
    ensures { result ≡ shown64 p }
{
    let ordinal = p % 0x8000_0000_0000_0000;
    if 0x7FF0_0000_0000_0000 < ordinal {
        return Shown::NotANumber(p);
    }
    if ordinal == 0x7FF0_0000_0000_0000 {
        return Shown::Infinity(0x8000_0000_0000_0000 <= p);
    }
    Shown::Finite(f64::from_bits(p))
}

// 1 5 6 7 8 14 11 9 8 15 10, the last for the value's own chunk only.
fn probe_opening(width: usize, level: usize, bytes: &[u8], index: usize) -> Result<Header, Refusal>
    ensures { result ≡ answer (first (probe_rows width level bytes.now index)) (header_of bytes.now) }
{
    let h = header::opened(level, bytes)?;
    if h.width != width {
        return Err(Refusal::OtherWidth);
    }
    if h.count <= index {
        return Err(Refusal::NoSuchIndex);
    }
    chunks::own_step(h, bytes, index)?;
    Ok(h)
}

pub fn probe32(level: u32, bytes: &[u8], index: usize) -> Result<Shown<f32, u32>, Refusal>
    ensures { result ≡ probe_answer32 level bytes.now index }
{
    let h = probe_opening(32, level as usize, bytes, index)?;
    Ok(show32(restore::value_at(h, bytes, index) as u32))
}

pub fn probe64(level: u32, bytes: &[u8], index: usize) -> Result<Shown<f64, u64>, Refusal>
    ensures { result ≡ probe_answer64 level bytes.now index }
{
    let h = probe_opening(64, level as usize, bytes, index)?;
    Ok(show64(restore::value_at(h, bytes, index)))
}
