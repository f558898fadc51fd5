// Groups checked: the rules of refusal 10, where the bytes stand.
ghost use Rattle.std.specs.Prelude.{◌≡◌, ℕ, ◌+◌, ◌*◌, ◌≤◌, ◌<◌, eqb, length, get_or};
ghost use Rattle.std.specs.Int.Bits.{bit_or};
ghost use Rattle.std.specs.Float.Ieee.{size};
ghost use Rattle.stream.specs.Group.{bytes_for, width_of, given_width, group_length, group_codes, within, group_answer};
ghost use Rattle.stream.specs.Block.{block_codes};

use crate::{group, group_read};
use blocks::{block32, block64, bytes};
use words::Word;

// Whether a code is as wide as w: width less leading zeros is its bit length.
fn as_wide(code: u64, w: usize) -> bool
    ensures { result ≡ eqb (size code) w }
{
    64 - (u64::leading_zeros(code) as usize) == w
}

// The OR of a full block's codes i, i + 8, i + 16 and i + 24, if the bytes go on far enough for the loads of every code. Eight codes are w
// whole bytes, so the four start at the same bit of four bytes that are w apart: up to 57 bits, where eight bytes hold a code wherever it
// starts, the OR of four loads holds the OR of the four codes, and is shifted and masked once.
fn four_codes(s: &[u8], i: usize, w: usize) -> u64
    requires { (i < 8) × (1 ≤ w) × (w ≤ 64) × (4 * w + 10 ≤ length s.now) }
    ensures { (let c : ℕ → ℕ = λ j. get_or (block_codes w 32 s.now) j 0 in result ≡ bit_or (bit_or (c i) (c (i + 8))) (bit_or (c (i + 16)) (c (i + 24)))) }
{
    let bit = 8 + i * w;
    if 57 < w {
        let low = bytes::code_at(s, bit, w) | bytes::code_at(s, bit + 8 * w, w);
        let high = bytes::code_at(s, bit + 16 * w, w) | bytes::code_at(s, bit + 24 * w, w);
        return low | high;
    }
    let at = bit / 8;
    let low = bytes::load(s, at) | bytes::load(s, at + w);
    let high = bytes::load(s, at + 2 * w) | bytes::load(s, at + 3 * w);
    let mask: u64 = 18446744073709551615 >> (64 - w);
    ((low | high) >> (bit % 8)) & mask
}

// Whether w is the smallest width of a full block, four codes at a time: their OR is as wide as the widest of them. In most blocks the
// first four settle it.
fn reached_by_four(s: &[u8], w: usize) -> bool
    requires { (1 ≤ w) × (w ≤ 64) × (4 * w + 10 ≤ length s.now) }
    ensures { result ≡ eqb w (width_of (block_codes w 32 s.now)) }
{
    // Tried as `(0..8).any(..)`: check of groups of 32 took 5 to 9 % longer.
    for i in 0..8 {
        if as_wide(four_codes(s, i, w), w) {
            return true;
        }
    }
    false
}

// The width of a block's codes.
fn block_width(s: &[u8], w: usize, n: usize) -> usize
    requires { (n ≤ 32) × (1 ≤ w) × (w ≤ 64) × (bytes_for w n < length s.now) }
    ensures { result ≡ width_of (block_codes w n s.now) }
{
    if n == 32 {
        if 4 * w + 10 <= s.len() {
            if w <= 32 {
                let mut narrow = [0u32; 32];
                block32::opened32(s, w, &mut narrow);
                return group::width(&narrow);
            }
            let mut codes = [0u64; 32];
            block64::opened64(s, w, &mut codes);
            return group::width(&codes);
        }
    }
    let g = group_read::codes_of(s, w, n);
    group::width(group::counted(&g.codes, n))
}

// Whether w is the smallest width of a group, block by block: the first that is as wide settles it. It shares no function with the full group of 32,
// so that a compiler puts those in their one place.
fn blocks_reached(s: &[u8], w: usize, n: usize) -> bool
    requires { (n ≤ 128) × (1 ≤ w) × (w ≤ 64) × (w ≡ given_width s.now) × (group_length n s.now ≤ length s.now) }
    ensures { result ≡ eqb w (width_of (group_codes n s.now)) }
{
    let mut from: usize = 0;
    let mut left = n;
    // Tried as `for i in 0..n.div_ceil(32)`: the first block mostly settles it, and this function took a third more instructions.
    while 0 < left {
        let count = usize::min(32, left);
        if block_width(&s[from..], w, count) == w {
            return true;
        }
        from += 4 * w;
        left -= count;
    }
    false
}

// Whether w is the smallest width of a group.
fn smallest(s: &[u8], n: usize, w: usize) -> bool
    requires { (n ≤ 128) × (1 ≤ w) × (w ≤ 64) × (w ≡ given_width s.now) × (group_length n s.now ≤ length s.now) }
    ensures { result ≡ eqb w (width_of (group_codes n s.now)) }
{
    if n == 32 {
        if 4 * w + 10 <= s.len() {
            return reached_by_four(s, w);
        }
    }
    blocks_reached(s, w, n)
}

// Whether no code's u, its half, is above the limit.
fn limited<T: Word>(codes: &[T], limit: u64) -> bool
    ensures { result ≡ within limit (T.values codes.now) }
{
    for code in codes {
        if limit < code.wide() / 2 {
            return false;
        }
    }
    true
}

// The same of a full block's codes, if the bytes go on far enough for the loads of every code.
fn full_limited(s: &[u8], w: usize, limit: u64) -> bool
    requires { (1 ≤ w) × (w ≤ 64) × (4 * w + 10 ≤ length s.now) }
    ensures { result ≡ within limit (block_codes w 32 s.now) }
{
    if w <= 32 {
        let mut narrow = [0u32; 32];
        block32::opened32(s, w, &mut narrow);
        return limited(&narrow, limit);
    }
    let mut codes = [0u64; 32];
    block64::opened64(s, w, &mut codes);
    limited(&codes, limit)
}

// The same of a block's codes.
fn block_limited(s: &[u8], w: usize, n: usize, limit: u64) -> bool
    requires { (n ≤ 32) × (1 ≤ w) × (w ≤ 64) × (bytes_for w n < length s.now) }
    ensures { result ≡ within limit (block_codes w n s.now) }
{
    if n == 32 {
        if 4 * w + 10 <= s.len() {
            let mut codes = [0u64; 32];
            block64::opened64(s, w, &mut codes);
            return limited(&codes, limit);
        }
    }
    let g = group_read::codes_of(s, w, n);
    limited(group::counted(&g.codes, n), limit)
}

// The same of a group's codes, block by block.
fn blocks_limited(s: &[u8], w: usize, n: usize, limit: u64) -> bool
    requires { (n ≤ 128) × (1 ≤ w) × (w ≤ 64) × (w ≡ given_width s.now) × (group_length n s.now ≤ length s.now) }
    ensures { result ≡ within limit (group_codes n s.now) }
{
    let mut from: usize = 0;
    let mut left = n;
    // Tried as `for i in 0..n.div_ceil(32)`, which costs here what it costs in blocks_reached.
    while 0 < left {
        let count = usize::min(32, left);
        if !block_limited(&s[from..], w, count, limit) {
            return false;
        }
        from += 4 * w;
        left -= count;
    }
    true
}

// The same of a group's codes, which are looked at only where w bits can hold a u above the limit.
fn limit_kept(s: &[u8], n: usize, w: usize, limit: u64) -> bool
    requires { (n ≤ 128) × (1 ≤ w) × (w ≤ 64) × (w ≡ given_width s.now) × (group_length n s.now ≤ length s.now) }
    ensures { result ≡ within limit (group_codes n s.now) }
{
    if (1 << (w - 1)) - 1 <= limit {
        return true;
    }
    if n == 32 {
        if 4 * w + 10 <= s.len() {
            return full_limited(s, w, limit);
        }
    }
    blocks_limited(s, w, n, limit)
}

// How many bytes the group at the front of `s` has, if it keeps the rules of refusal 10. The width is tested before it is multiplied; the padding is the
// highest bits of the last byte.
pub(crate) fn checked(s: &[u8], n: usize, width: u32, limit: u64) -> Option<usize>
    requires { (n ≤ 128) × (width ≤ 64) }
    ensures { result ≡ group_answer width limit n s.now }
{
    if s.len() == 0 {
        return None;
    }
    let w = bytes::wide(s[0]) as usize;
    if (width as usize) < w {
        return None;
    }
    let bits = w * n;
    let end = (bits + 7) / 8;
    if s.len() <= end {
        return None;
    }
    if w == 0 {
        return Some(1);
    }
    if bytes::wide(s[end]) >> (8 + bits - 8 * end) != 0 {
        return None;
    }
    if !smallest(s, n, w) {
        return None;
    }
    if !limit_kept(s, n, w, limit) {
        return None;
    }
    Some(1 + end)
}
