// The header: its twelve numbers, and the rules that they keep.
ghost use Rattle.std.specs.Prelude.{◌≡◌, ◌+◌, ◌^◌, ◌≤◌, ◌<◌, length};
ghost use Rattle.stream.specs.Header.{word, header_of, k_of, said_mode, said_size, setting_in, setting_right, layout_right};
ghost use Rattle.stream.specs.Relied.{Words, Allowed, Settled};
ghost use Rattle.stream.specs.Rows.{first, answer};
ghost use Rattle.stream.specs.Operations.{header_rows, opening_rows};
ghost use Rattle.stream.specs.Access.{header_right};

use crate::answers::Refusal;
use crate::setting;
use crate::setting::Setting;
use blocks::bytes as fields;
use numbers::signed;

// The numbers of the table "at | number" of document 01, in its order. `exponent` has the bits of k, and the three places are `table`,
// `start` (of the data) and `end` (of the data). All are usize, so that no sum of places wraps.
#[derive(Clone, Copy)]
pub struct Header {
    pub major: usize,
    pub written: usize,
    pub needed: usize,
    pub width: usize,
    pub mode: usize,
    pub exponent: usize,
    pub count: usize,
    pub chunks: usize,
    pub table: usize,
    pub start: usize,
    pub sides: usize,
    pub end: usize,
}

// The 32-bit little-endian number at a byte place.
pub(crate) fn word_at(bytes: &[u8], at: usize) -> usize
    requires { at + 4 ≤ length bytes.now }
    ensures { (result ≡ word bytes.now at) × (result < 2 ^ 32) }
{
    fields::quad(bytes, at) as usize
}

pub(crate) fn header_of(bytes: &[u8]) -> Header
    requires { 48 ≤ length bytes.now }
    ensures { result ≡ header_of bytes.now }
{
    Header {
        major: word_at(bytes, 0),
        written: word_at(bytes, 4),
        needed: word_at(bytes, 8),
        width: word_at(bytes, 12),
        mode: word_at(bytes, 16),
        exponent: word_at(bytes, 20),
        count: word_at(bytes, 24),
        chunks: word_at(bytes, 28),
        table: word_at(bytes, 32),
        start: word_at(bytes, 36),
        sides: word_at(bytes, 40),
        end: word_at(bytes, 44),
    }
}

// k: a number of the header has 32 bits, which are read as two's complement.
pub(crate) fn exponent_of(h: Header) -> i32
    requires { Words h }
    ensures { result ≡ k_of h }
{
    signed::view32(h.exponent as u32)
}

// The mode and the group size that a mode number says: "256 is added to the mode number for 128".
fn said_mode(number: usize) -> usize
    ensures { result ≡ said_mode number }
{
    if number < 256 { number } else { number - 256 }
}

fn said_size(number: usize) -> usize
    ensures { result ≡ said_size number }
{
    if number < 256 { 32 } else { 128 }
}

// The header's setting.
pub(crate) fn setting_in(h: Header) -> Setting
    requires { Words h × Settled h }
    ensures { (result ≡ setting_in h) × Allowed result }
{
    let mode = said_mode(h.mode);
    let size = said_size(h.mode);
    setting::setting_of(h.width, mode, exponent_of(h), size)
}

// The part of refusal 8 that is about the setting. A setting is made only once it is known to be allowed. Whether the need is more than the setting's
// is left to the tables: only their ids tell what it has to be.
fn setting_right(h: Header) -> bool
    requires { Words h }
    ensures { result ≡ setting_right h }
{
    let width = h.width;
    let mode = said_mode(h.mode);
    let size = said_size(h.mode);
    let needed = h.needed;
    if !setting::known_width(width) {
        return false;
    }
    let k = exponent_of(h);
    if !setting::allowed(width, mode, k, size) {
        return false;
    }
    let need = setting::need_of(setting::setting_of(width, mode, k, size));
    (8 <= needed) & (need <= needed) & (needed <= h.written)
}

// The part of refusal 8 that is about the layout.
fn layout_right(size: usize, h: Header) -> bool
    requires { Words h }
    ensures { result ≡ layout_right size h }
{
    !(1048576 < h.count)
        & (h.chunks == h.count.div_ceil(1024))
        & (h.table == 48)
        & (h.start == 48 + 4 * h.chunks)
        & (h.sides <= 64)
        & (h.start <= h.end)
        & (h.end <= size)
}

// The header's rules but for the levels.
pub(crate) fn right(bytes: &[u8]) -> bool
    ensures { result ≡ header_right bytes.now }
{
    if bytes.len() < 48 {
        return false;
    }
    let h = header_of(bytes);
    setting_right(h) & layout_right(bytes.len(), h)
}

// 6 7 8
fn header_step(level: usize, size: usize, h: Header) -> Result<(), Refusal>
    requires { Words h }
    ensures { result ≡ first (header_rows level size h) }
{
    let needed = h.needed;
    if h.major != 1 {
        return Err(Refusal::OtherMajor);
    }
    if level < needed {
        return Err(Refusal::NeedsMinor(needed));
    }
    if setting_right(h) & layout_right(size, h) {
        return Ok(());
    }
    Err(Refusal::BrokenHeader)
}

// 1 5 6 7 8: what every reader begins with; and the header where none of them is given, so that a reader has it from here.
pub fn opened(level: usize, bytes: &[u8]) -> Result<Header, Refusal>
    ensures { result ≡ answer (first (opening_rows level bytes.now)) (header_of bytes.now) }
{
    if !setting::known_level(level) {
        return Err(Refusal::UnknownLevel);
    }
    if bytes.len() < 48 {
        return Err(Refusal::NoHeader);
    }
    let h = header_of(bytes);
    header_step(level, bytes.len(), h)?;
    Ok(h)
}
