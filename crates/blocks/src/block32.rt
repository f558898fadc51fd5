// Blocks of 32 codes of w bits each, which are 4w whole bytes: an arm for each width, so that a compiler knows every shift.
// A width as a const parameter, `codes::<17>`, needs the same arms. Codes and their width are two parameters and no struct: an arm makes the width a
// literal, and the codes stand in a buffer of the caller's.
ghost use Rattle.std.specs.Prelude.{◌≡◌, ◌++◌, ◌+◌, ◌*◌, ◌/◌, ◌%◌, ◌^◌, ◌≤◌, ◌<◌, length, take, drop};
ghost use Rattle.blocks.specs.Put.{word_put};
ghost use Rattle.blocks.specs.Bytes.{Below, number, digits};

use crate::bytes;
use crate::reading::codes;

// The codes of the block that starts at s[1]: the width byte s[0] is passed over, and the caller says w. Behind the block the bytes go on for
// nine more, which the loads of the last codes may touch.
pub fn opened32(s: &[u8], w: usize, c: &mut [u32])
    requires { (1 ≤ w) × (w ≤ 32) × (4 * w + 10 ≤ length s.now) × (32 ≤ length c.old) }
    ensures { c.new ≡ digits (2 ^ w) 32 (number 256 s.now / 2 ^ 8) ++ drop 32 c.old }
{
    match w {
        1 => codes(s, 1, c),
        2 => codes(s, 2, c),
        3 => codes(s, 3, c),
        4 => codes(s, 4, c),
        5 => codes(s, 5, c),
        6 => codes(s, 6, c),
        7 => codes(s, 7, c),
        8 => codes(s, 8, c),
        9 => codes(s, 9, c),
        10 => codes(s, 10, c),
        11 => codes(s, 11, c),
        12 => codes(s, 12, c),
        13 => codes(s, 13, c),
        14 => codes(s, 14, c),
        15 => codes(s, 15, c),
        16 => codes(s, 16, c),
        17 => codes(s, 17, c),
        18 => codes(s, 18, c),
        19 => codes(s, 19, c),
        20 => codes(s, 20, c),
        21 => codes(s, 21, c),
        22 => codes(s, 22, c),
        23 => codes(s, 23, c),
        24 => codes(s, 24, c),
        25 => codes(s, 25, c),
        26 => codes(s, 26, c),
        27 => codes(s, 27, c),
        28 => codes(s, 28, c),
        29 => codes(s, 29, c),
        30 => codes(s, 30, c),
        31 => codes(s, 31, c),
        32 => codes(s, 32, c),
        _ => codes(s, w, c),
    }
}

// The 64 bits from bit 64k on of a block of 32 codes of w bits.
fn word32(c: &[u32], w: usize, k: usize) -> u64
    requires { (1 ≤ w) × (w ≤ 32) × (2 * k < w) × (length c.now ≡ 32) × Below (2 ^ w) c.now }
    ensures { result ≡ number (2 ^ w) c.now / 2 ^ (64 * k) % 2 ^ 64 }
{
    let first = 64 * k / w;
    let skip = 64 * k % w;
    let mut word = u64::from(c[first]) >> skip;
    let mut fill = w - skip;
    for i in first + 1..32 {
        if 64 <= fill {
            return word;
        }
        word += u64::from(c[i]) << fill;
        fill += w;
    }
    word
}

// One word of a block goes out, if the block has it; where w is odd the last is half a word.
fn put32(c: &[u32], w: usize, k: usize, out: &mut [u8])
    requires { (1 ≤ w) × (w ≤ 32) × (k ≤ 15) × (length c.now ≡ 32) × Below (2 ^ w) c.now × (4 * w ≤ length out.old) }
    ensures { out.new ≡ word_put w k (number (2 ^ w) c.now) out.old }
{
    if 2 * k + 2 <= w {
        bytes::store(out, 8 * k, word32(c, w, k));
        return;
    }
    if 2 * k + 1 == w {
        bytes::half(out, 8 * k, word32(c, w, k));
    }
}

// Four words. Calls side by side, here and below: as a loop, packing a block took up to 5.9 and 3.1 times as long.
fn four32(c: &[u32], w: usize, k: usize, out: &mut [u8])
    requires { (1 ≤ w) × (w ≤ 32) × (k ≤ 12) × (length c.now ≡ 32) × Below (2 ^ w) c.now × (4 * w ≤ length out.old) }
    ensures { out.new ≡ word_put w (k + 3) (number (2 ^ w) c.now) (word_put w (k + 2) (number (2 ^ w) c.now)
        (word_put w (k + 1) (number (2 ^ w) c.now) (word_put w k (number (2 ^ w) c.now) out.old))) }
{
    put32(c, w, k, out);
    put32(c, w, k + 1, out);
    put32(c, w, k + 2, out);
    put32(c, w, k + 3, out);
}

// The 4w bytes of a block.
fn block32(c: &[u32], w: usize, out: &mut [u8])
    requires { (1 ≤ w) × (w ≤ 32) × (length c.now ≡ 32) × Below (2 ^ w) c.now × (4 * w ≤ length out.old) }
    ensures { out.new ≡ digits 256 (4 * w) (number (2 ^ w) c.now) ++ drop (4 * w) out.old }
{
    four32(c, w, 0, out);
    four32(c, w, 4, out);
    four32(c, w, 8, out);
    four32(c, w, 12, out);
}

// The 4w bytes of a block at the front of `out`. The width byte is the caller's.
pub fn packed32(c: &[u32], w: usize, out: &mut [u8])
    requires { (1 ≤ w) × (w ≤ 32) × (length c.now ≡ 32) × Below (2 ^ w) c.now × (4 * w ≤ length out.old) }
    ensures { out.new ≡ digits 256 (4 * w) (number (2 ^ w) c.now) ++ drop (4 * w) out.old }
{
    match w {
        1 => block32(c, 1, out),
        2 => block32(c, 2, out),
        3 => block32(c, 3, out),
        4 => block32(c, 4, out),
        5 => block32(c, 5, out),
        6 => block32(c, 6, out),
        7 => block32(c, 7, out),
        8 => block32(c, 8, out),
        9 => block32(c, 9, out),
        10 => block32(c, 10, out),
        11 => block32(c, 11, out),
        12 => block32(c, 12, out),
        13 => block32(c, 13, out),
        14 => block32(c, 14, out),
        15 => block32(c, 15, out),
        16 => block32(c, 16, out),
        17 => block32(c, 17, out),
        18 => block32(c, 18, out),
        19 => block32(c, 19, out),
        20 => block32(c, 20, out),
        21 => block32(c, 21, out),
        22 => block32(c, 22, out),
        23 => block32(c, 23, out),
        24 => block32(c, 24, out),
        25 => block32(c, 25, out),
        26 => block32(c, 26, out),
        27 => block32(c, 27, out),
        28 => block32(c, 28, out),
        29 => block32(c, 29, out),
        30 => block32(c, 30, out),
        31 => block32(c, 31, out),
        32 => block32(c, 32, out),
        _ => block32(c, w, out),
    }
}
