// Blocks of 32 codes of up to 64 bits each: an arm for each width above 32; the others are those of `block32`.
ghost use Rattle.std.specs.Prelude.{◌≡◌, List, ◌++◌, ℕ, ◌+◌, ◌*◌, ◌/◌, ◌%◌, ◌^◌, ◌≤◌, ◌<◌, length, take, drop, get_or, ltb, cond};
ghost use Rattle.blocks.specs.Bytes.{Below, number, digits};
ghost use Rattle.blocks.specs.Put.{Standing};

use crate::reading::codes;
use crate::{block32, bytes};

fn opened64_wide(s: &[u8], w: usize, c: &mut [u64])
    requires { (1 ≤ w) × (w ≤ 64) × (4 * w + 10 ≤ length s.now) × (32 ≤ length c.old) }
    ensures { c.new ≡ digits (2 ^ w) 32 (number 256 s.now / 2 ^ 8) ++ drop 32 c.old }
{
    match w {
        33 => codes(s, 33, c),
        34 => codes(s, 34, c),
        35 => codes(s, 35, c),
        36 => codes(s, 36, c),
        37 => codes(s, 37, c),
        38 => codes(s, 38, c),
        39 => codes(s, 39, c),
        40 => codes(s, 40, c),
        41 => codes(s, 41, c),
        42 => codes(s, 42, c),
        43 => codes(s, 43, c),
        44 => codes(s, 44, c),
        45 => codes(s, 45, c),
        46 => codes(s, 46, c),
        47 => codes(s, 47, c),
        48 => codes(s, 48, c),
        49 => codes(s, 49, c),
        50 => codes(s, 50, c),
        51 => codes(s, 51, c),
        52 => codes(s, 52, c),
        53 => codes(s, 53, c),
        54 => codes(s, 54, c),
        55 => codes(s, 55, c),
        56 => codes(s, 56, c),
        57 => codes(s, 57, c),
        58 => codes(s, 58, c),
        59 => codes(s, 59, c),
        60 => codes(s, 60, c),
        61 => codes(s, 61, c),
        62 => codes(s, 62, c),
        63 => codes(s, 63, c),
        64 => codes(s, 64, c),
        _ => codes(s, w, c),
    }
}

// 32 codes as wider numbers, at the front of `c`.
fn widened(narrow: &[u32; 32], c: &mut [u64])
    requires { 32 ≤ length c.old }
    ensures { c.new ≡ narrow.now ++ drop 32 c.old }
{
    for (i, x) in narrow.iter().enumerate() {
        c[i] = u64::from(*x);
    }
}

// Codes of up to 32 bits are opened by the arms that they have already. Arms of their own made most rows of unpacking up to 18 % faster, but those of
// mode 2 in groups of 128 up to 7 % slower, and 15 kB more of code.
fn opened64_narrow(s: &[u8], w: usize, c: &mut [u64])
    requires { (1 ≤ w) × (w ≤ 32) × (4 * w + 10 ≤ length s.now) × (32 ≤ length c.old) }
    ensures { c.new ≡ digits (2 ^ w) 32 (number 256 s.now / 2 ^ 8) ++ drop 32 c.old }
{
    let mut narrow = [0u32; 32];
    block32::opened32(s, w, &mut narrow);
    widened(&narrow, c);
}

// The codes of the block that starts at s[1], as `block32::opened32` has them, of any width.
pub fn opened64(s: &[u8], w: usize, c: &mut [u64])
    requires { (1 ≤ w) × (w ≤ 64) × (4 * w + 10 ≤ length s.now) × (32 ≤ length c.old) }
    ensures { c.new ≡ digits (2 ^ w) 32 (number 256 s.now / 2 ^ 8) ++ drop 32 c.old }
{
    if w <= 32 {
        opened64_narrow(s, w, c);
    } else {
        opened64_wide(s, w, c);
    }
}

// A code above `up` bits of a word: nothing where the word is full, or where there is no such code.
fn more64(c: &[u64], i: usize, up: usize) -> u64
    requires { length c.now ≡ 8 }
    ensures { result ≡ cond (ltb up 64) (get_or c.now i 0 * 2 ^ up % 2 ^ 64) 0 }
{
    if up < 64 && i < 8 { c[i] << up } else { 0 }
}

// The 64 bits from a bit on of eight codes that are so wide that a word has three of them at most.
fn word64(c: &[u64], w: usize, bit: usize) -> u64
    requires { (33 ≤ w) × (w ≤ 64) × (bit < 8 * w) × (length c.now ≡ 8) × Below (2 ^ w) c.now }
    ensures { result ≡ number (2 ^ w) c.now / 2 ^ bit % 2 ^ 64 }
{
    let first = bit / w;
    let skip = bit % w;
    (c[first] >> skip) + more64(c, first + 1, w - skip) + more64(c, first + 2, 2 * w - skip)
}

// If the bytes up to `at` stand, of the w that eight codes are, then eight more; where fewer are left the last eight are stored, of which some
// stand already.
fn put64(c: &[u64], w: usize, at: usize, out: &mut [u8])
    requires { (33 ≤ w) × (w ≤ 64) × (at ≤ 56) × (length c.now ≡ 8) × Below (2 ^ w) c.now × (w ≤ length out.old) }
    ensures { (base : List ℕ) → Standing w at (number (2 ^ w) c.now) base out.old → Standing w (at + 8) (number (2 ^ w) c.now) base out.new }
{
    if at + 8 <= w {
        bytes::store(out, at, word64(c, w, 8 * at));
        return;
    }
    if at < w {
        let last = w - 8;
        bytes::store(out, last, word64(c, w, 8 * last));
    }
}

// The w bytes of eight codes.
fn run(c: &[u64], w: usize, out: &mut [u8])
    requires { (33 ≤ w) × (w ≤ 64) × (length c.now ≡ 8) × Below (2 ^ w) c.now × (w ≤ length out.old) }
    ensures { out.new ≡ digits 256 w (number (2 ^ w) c.now) ++ drop w out.old }
{
    for k in 0..8 {
        put64(c, w, 8 * k, out);
    }
}

// The 4w bytes of a block, eight codes at a time: their bytes are whole.
fn runs(c: &[u64; 32], w: usize, out: &mut [u8])
    requires { (33 ≤ w) × (w ≤ 64) × Below (2 ^ w) c.now × (4 * w ≤ length out.old) }
    ensures { out.new ≡ digits 256 (4 * w) (number (2 ^ w) c.now) ++ drop (4 * w) out.old }
{
    for i in 0..4 {
        run(&c[8 * i..8 * i + 8], w, &mut out[i * w..]);
    }
}

// The codes are handed on by value: a compiler then sees that nobody else holds them, and copies nothing. The last arm is that of 64, which is all that is left:
// a way for any w beside the arms would cost every one of them.
fn packed64_wide(c: [u64; 32], w: usize, out: &mut [u8])
    requires { (33 ≤ w) × (w ≤ 64) × Below (2 ^ w) c × (4 * w ≤ length out.old) }
    ensures { out.new ≡ digits 256 (4 * w) (number (2 ^ w) c) ++ drop (4 * w) out.old }
{
    match w {
        33 => runs(&c, 33, out),
        34 => runs(&c, 34, out),
        35 => runs(&c, 35, out),
        36 => runs(&c, 36, out),
        37 => runs(&c, 37, out),
        38 => runs(&c, 38, out),
        39 => runs(&c, 39, out),
        40 => runs(&c, 40, out),
        41 => runs(&c, 41, out),
        42 => runs(&c, 42, out),
        43 => runs(&c, 43, out),
        44 => runs(&c, 44, out),
        45 => runs(&c, 45, out),
        46 => runs(&c, 46, out),
        47 => runs(&c, 47, out),
        48 => runs(&c, 48, out),
        49 => runs(&c, 49, out),
        50 => runs(&c, 50, out),
        51 => runs(&c, 51, out),
        52 => runs(&c, 52, out),
        53 => runs(&c, 53, out),
        54 => runs(&c, 54, out),
        55 => runs(&c, 55, out),
        56 => runs(&c, 56, out),
        57 => runs(&c, 57, out),
        58 => runs(&c, 58, out),
        59 => runs(&c, 59, out),
        60 => runs(&c, 60, out),
        61 => runs(&c, 61, out),
        62 => runs(&c, 62, out),
        63 => runs(&c, 63, out),
        _ => runs(&c, 64, out),
    }
}

// 32 codes that have no more than 32 bits. By `map` of the array, packing within a tolerance took up to 1.33 times as long.
fn narrowed(c: &[u64; 32]) -> [u32; 32]
    requires { Below (2 ^ 32) c.now }
    ensures { result ≡ c.now }
{
    let mut narrow = [0u32; 32];
    for (i, x) in c.iter().enumerate() {
        narrow[i] = *x as u32;
    }
    narrow
}

fn packed64_narrow(c: [u64; 32], w: usize, out: &mut [u8])
    requires { (1 ≤ w) × (w ≤ 32) × Below (2 ^ w) c × (4 * w ≤ length out.old) }
    ensures { out.new ≡ digits 256 (4 * w) (number (2 ^ w) c) ++ drop (4 * w) out.old }
{
    let narrow = narrowed(&c);
    block32::packed32(&narrow, w, out);
}

// The 4w bytes of a block at the front of `out`. The width byte is the caller's.
pub fn packed64(c: [u64; 32], w: usize, out: &mut [u8])
    requires { (1 ≤ w) × (w ≤ 64) × Below (2 ^ w) c × (4 * w ≤ length out.old) }
    ensures { out.new ≡ digits 256 (4 * w) (number (2 ^ w) c) ++ drop (4 * w) out.old }
{
    if w <= 32 {
        packed64_narrow(c, w, out);
    } else {
        packed64_wide(c, w, out);
    }
}
