// The walks over a chunk, once for all widths: its groups measured, written, checked, restored, and one value of them.
ghost use Rattle.std.specs.Prelude.{◌≡◌, cond, ◌++◌, ◌≤◌, ◌<◌, length, drop, get_or};
ghost use Rattle.stream.specs.Group.{group_length, whole_group};
ghost use Rattle.stream.specs.Setting.{group_size, patterns_of, limit_of};
ghost use Rattle.stream.specs.Lent.{chosen, lent_codes, Staged, Begun};
ghost use Rattle.stream.specs.Chunk.{good, chunk_bytes, chunk_answer, chunk_codes, whole_chunk};
ghost use Rattle.stream.specs.Relied.{Allowed};

use crate::setting::Setting;
use crate::{group, group_checked, group_written, lent, setting};

// How many bytes a chunk's n values take in groups of 128: a loop of its own, so that the other knows its step.
fn measured_long(t: Setting, v32: &[u32], v64: &[u64], c32: &[u32], n: usize) -> usize
    requires allowed { Allowed t × (t.size ≡ 128) × (n ≡ length (chosen t.width v32.now v64.now)) × (n ≤ 1024) }
    requires v32_in_bounds { (length v32.now ≤ length c32.now) × Staged t v32.now c32.now }
    ensures { result ≡ length (chunk_bytes (group_size t) (lent_codes t v32.now v64.now)) }
{
    let mut total: usize = 0;
    for i in 0..n / 128 {
        let at = 128 * i;
        total += lent::measured_long(t, v32, c32, v64, at, at + 128);
    }
    let at = n - n % 128;
    if at == n {
        return total;
    }
    total + lent::measured_long(t, v32, c32, v64, at, n)
}

// How many bytes a chunk's values take. The full groups are a loop of their own, so that their leaf knows its count.
pub(crate) fn measured(t: Setting, v32: &[u32], v64: &[u64], c32: &mut [u32]) -> usize
    requires { Allowed t × (length (chosen t.width v32.now v64.now) ≤ 1024) × (length v32.now ≤ length c32.old) }
    ensures { result ≡ length (chunk_bytes (group_size t) (lent_codes t v32.now v64.now)) }
{
    let n = lent::count(t, v32, v64);
    lent::stage(t, v32, c32);
    if t.size == 128 {
        return measured_long(t, v32, v64, c32, n);
    }
    let mut total: usize = 0;
    for i in 0..n / 32 {
        total += lent::measured_group(t, v32, c32, v64, 32 * i);
    }
    let at = n - n % 32;
    if at == n {
        return total;
    }
    total + group::measured(lent::coded(t, v32, c32, v64, at, n))
}

// The bytes of a chunk's n values in groups of 128.
fn written_long(
    t: Setting,
    v32: &[u32],
    v64: &[u64],
    c32: &[u32],
    n: usize,
    out: &mut [u8],
) -> usize
    requires allowed { Allowed t × (t.size ≡ 128) × (n ≡ length (chosen t.width v32.now v64.now)) × (n ≤ 1024) }
    requires v32_in_bounds { (length v32.now ≤ length c32.now) × Staged t v32.now c32.now }
    requires v64_in_bounds { length (chunk_bytes (group_size t) (lent_codes t v32.now v64.now)) ≤ length out.old }
    ensures value { result ≡ length (chunk_bytes (group_size t) (lent_codes t v32.now v64.now)) }
    ensures out_after { out.new ≡ chunk_bytes (group_size t) (lent_codes t v32.now v64.now) ++ drop result out.old }
{
    let mut put: usize = 0;
    for i in 0..n / 128 {
        let at = 128 * i;
        put += lent::put_long(t, v32, c32, v64, at, at + 128, &mut out[put..]);
    }
    let at = n - n % 128;
    if at == n {
        return put;
    }
    put + lent::put_long(t, v32, c32, v64, at, n, &mut out[put..])
}

// The bytes of a chunk's values at the front of `out`, and how many they are.
pub(crate) fn written(
    t: Setting,
    v32: &[u32],
    v64: &[u64],
    c32: &mut [u32],
    out: &mut [u8],
) -> usize
    requires allowed { Allowed t × (length (chosen t.width v32.now v64.now) ≤ 1024) × (length v32.now ≤ length c32.old) }
    requires v64_in_bounds { length (chunk_bytes (group_size t) (lent_codes t v32.now v64.now)) ≤ length out.old }
    ensures value { result ≡ length (chunk_bytes (group_size t) (lent_codes t v32.now v64.now)) }
    ensures out_after { out.new ≡ chunk_bytes (group_size t) (lent_codes t v32.now v64.now) ++ drop result out.old }
{
    let n = lent::count(t, v32, v64);
    lent::stage(t, v32, c32);
    if t.size == 128 {
        return written_long(t, v32, v64, c32, n, out);
    }
    let mut put: usize = 0;
    for i in 0..n / 32 {
        put += lent::put_group(t, v32, c32, v64, 32 * i, &mut out[put..]);
    }
    let at = n - n % 32;
    if at == n {
        return put;
    }
    put + group_written::written(lent::coded(t, v32, c32, v64, at, n), &mut out[put..])
}

// Whether a chunk of n values keeps the rules of refusal 10, or else its first bad group. Bytes left over count for the last group, or for the first where
// there is none.
pub(crate) fn checked(t: Setting, s: &[u8], n: usize) -> Result<(), usize>
    requires { Allowed t × (n ≤ 1024) }
    ensures { result ≡ chunk_answer t.width (limit_of t) (group_size t) n s.now }
{
    let limit = setting::limit_of(t);
    let size = setting::group_size(t);
    let mut left = n;
    let mut at: usize = 0;
    let mut i: usize = 0;
    // Tried as `for i in 0..n.div_ceil(size)`: check of groups of 32 took up to 15 % longer.
    while 0 < left {
        let count = size.min(left);
        let Some(bytes) = group_checked::checked(&s[at..], count, t.width, limit) else {
            return Err(i);
        };
        at += bytes;
        left -= count;
        i += 1;
    }
    if at < s.len() {
        return Err(i.saturating_sub(1));
    }
    Ok(())
}

// How many bytes the group at the front of `s` has, by its first byte.
fn group_length(s: &[u8], n: usize) -> usize
    requires { (n ≤ 128) × (group_length n s.now ≤ length s.now) }
    ensures { result ≡ group_length n s.now }
{
    let w = s[0] as usize;
    1 + (w * n + 7) / 8
}

// How many bytes the group at the front of `s` has, if it is there to be read.
fn bytes_there(width: u32, s: &[u8], n: usize) -> Option<usize>
    requires { n ≤ 128 }
    ensures { result ≡ cond (whole_group width n s.now) (Some (group_length n s.now)) None }
{
    if s.len() == 0 {
        return None;
    }
    let w = s[0] as usize;
    if (width as usize) < w {
        return None;
    }
    let bytes = 1 + (w * n + 7) / 8;
    if s.len() < bytes {
        return None;
    }
    Some(bytes)
}

// Whether every group of a chunk of n values is there to be read: of each, only the first byte is looked at.
pub(crate) fn whole(t: Setting, s: &[u8], n: usize) -> bool
    ensures { result ≡ whole_chunk t.width (group_size t) n s.now }
{
    let size = setting::group_size(t);
    let mut at: usize = 0;
    for done in (0..n).step_by(size) {
        let count = size.min(n - done);
        let Some(bytes) = bytes_there(t.width, &s[at..], count) else {
            return false;
        };
        at += bytes;
    }
    true
}

// The values of a chunk of n values that is there to be read, whose bytes `s` begins with, at the front of the output of the width.
pub(crate) fn restored(
    t: Setting,
    s: &[u8],
    n: usize,
    c32: &mut [u32],
    c64: &mut [u64],
    o32: &mut [u32],
    o64: &mut [u64],
)
    requires allowed { Allowed t × (n ≤ 1024) × Begun t n s.now }
    requires in_bounds { (128 ≤ length (chosen t.width c32.old c64.old)) × (n ≤ length (chosen t.width o32.old o64.old)) }
    ensures { chosen t.width o32.new o64.new ≡ patterns_of t (chunk_codes (group_size t) n s.now) ++ drop n (chosen t.width o32.old o64.old) }
{
    let size = setting::group_size(t);
    let mut left = n;
    let mut at: usize = 0;
    let mut done: usize = 0;
    // Tried as `for done in (0..n).step_by(size)`: unpack of groups of 32 took up to 17 % more instructions.
    while 0 < left {
        let count = size.min(left);
        lent::put_values(t, &s[at..], count, c32, c64, o32, o64, done);
        at += group_length(&s[at..], count);
        left -= count;
        done += count;
    }
}

// The i-th value of a good chunk of n values: the full groups before its own are passed over, and in mode 2 summed up.
pub(crate) fn value(t: Setting, s: &[u8], n: usize, i: usize) -> u64
    requires { Allowed t × (n ≤ 1024) × (i < n) × (chunk_answer t.width (limit_of t) (group_size t) n s.now ≡ good) }
    ensures { result ≡ get_or (patterns_of t (chunk_codes (group_size t) n s.now)) i 0 }
{
    let size = setting::group_size(t);
    let full = i / size;
    let mut at: usize = 0;
    let mut before: u64 = 0;
    for _ in 0..full {
        before = lent::carried(t, before, &s[at..], size);
        at += group_length(&s[at..], size);
    }
    let count = size.min(n - size * full);
    lent::value(t, before, &s[at..], count, i % size)
}
