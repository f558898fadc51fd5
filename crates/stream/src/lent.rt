// What the walks over a chunk do with the lists that are lent, one for each width: of the walks, only these functions look
// at the width, and hand the list of the width to one that is generic in its words. What is left in the scratch (c32, c64), in the output of the other width, and in a group behind its count, nobody asks.
ghost use Rattle.std.specs.Prelude.{◌≡◌, map, ◌++◌, ℕ, ◌≤◌, ◌<◌, ◌-◌, ◌+◌, ◌*◌, ◌/◌, ◌^◌, min, length, take, drop, get_or, replicate};
ghost use Rattle.std.proofs.Common.{lit<};
ghost use Rattle.numbers.specs.Difference.{difference_codes, running_sums, last_of};
ghost use Rattle.blocks.specs.Bytes.{Below};
ghost use Rattle.stream.specs.Group.{bytes_for, group_bytes, given_width, group_length, group_codes};
ghost use Rattle.stream.specs.Block.{block_codes};
ghost use Rattle.stream.specs.Setting.{code_at, codes_of, pattern_at, patterns_after};
ghost use Rattle.stream.specs.Lent.{chosen, landed, lent_codes, Staged, Scratch, GroupFits, SameBehind};
ghost use Rattle.stream.specs.Relied.{Allowed};

use crate::group::Group;
use crate::group_written::Blocks;
use crate::setting::Setting;
use crate::{coding, differences, group, group_read, group_written};
use bins::kernel::Kernel;
use blocks::{block32, block64, bytes};
use words::Word;

// How many values are lent.
pub(crate) fn count(t: Setting, v32: &[u32], v64: &[u64]) -> usize
    ensures { result ≡ length (chosen t.width v32.now v64.now) }
{
    if t.width == 32 { v32.len() } else { v64.len() }
}

// At width 32 the codes of mode 1 are made beforehand, for the whole chunk; all others are made group by group.
pub(crate) fn stage(t: Setting, v32: &[u32], c32: &mut [u32])
    requires { Allowed t × (length v32.now ≤ length c32.old) }
    ensures { Staged t v32.now c32.new }
{
    if t.width == 32 {
        if t.mode == 1 {
            coding::put_codes(t, v32, c32);
        }
    }
}

// Up to 32 codes that stand side by side, as a group.
fn grouped32(codes: &[u32]) -> Group<u32>
    requires { length codes.now ≤ 32 }
    ensures { (result.count ≡ length codes.now) × (take result.count result.codes ≡ codes.now) }
{
    let mut group = [0u32; 32];
    for i in 0..codes.len() {
        group[i] = codes[i];
    }
    Group {
        count: codes.len(),
        codes: group,
    }
}

// Where the widths differ.
trait Lent: Kernel + Blocks {
    // The codes from `at` to `end` of the whole chunk's codes, as a group, in the modes 0 and 1.
    fn each(t: Setting, values: &[Self], staged: &[Self], at: usize, end: usize) -> Group<Self>
        requires bounds { (t.width ≡ Self.width) × (at ≤ end) × (end ≤ at + 32) × (end ≤ length values.now) × (end ≤ 1024) }
        requires scratch { Scratch t (Self.values values.now) (Self.values staged.now) × (t.mode ≡ 2 → ⊥) }
        ensures { (result.count ≡ end - at) × (take result.count (Self.values result.codes) ≡ take (end - at) (drop at (map (code_at t) (Self.values values.now)))) };

    // A full block, which `blocks` opens by arms of its own for each width.
    fn opened(s: &[u8], w: usize, out: &mut [Self])
        requires { (1 ≤ w) × (w ≤ Self.width) × (4 * w + 10 ≤ length s.now) × (32 ≤ length out.old) }
        ensures { Self.values out.new ≡ block_codes w 32 s.now ++ drop 32 (Self.values out.old) };

    // The memory holds a group of these words.
    ghost memory_law: { GroupFits Self.row };
}

impl Lent for u32 {
    // The codes of mode 1 stand in the scratch.
    fn each(t: Setting, values: &[u32], staged: &[u32], at: usize, end: usize) -> Group<u32> {
        if t.mode == 0 {
            coding::lossless_group(t, &values[at..end])
        } else {
            grouped32(&staged[at..end])
        }
    }

    fn opened(s: &[u8], w: usize, out: &mut [u32]) {
        block32::opened32(s, w, out);
    }

    ghost memory_law = { lit< tt };
}

impl Lent for u64 {
    fn each(t: Setting, values: &[u64], _staged: &[u64], at: usize, end: usize) -> Group<u64> {
        coding::group(t, &values[at..end])
    }

    fn opened(s: &[u8], w: usize, out: &mut [u64]) {
        block64::opened64(s, w, out);
    }

    ghost memory_law = { lit< tt };
}

// The pattern before the place `at` in a chunk's values: 0 before the first.
fn pattern_before<T: Word>(values: &[T], at: usize) -> T
    requires { at ≤ length values.now }
    ensures { T.value result ≡ last_of 0 (take at (T.values values.now)) }
{
    if at == 0 { T::of(0) } else { values[at - 1] }
}

// The codes from `at` to `end` in mode 2: the group goes on from the pattern before it.
fn differenced<T: Word>(values: &[T], at: usize, end: usize) -> Group<T>
    requires { (at ≤ end) × (end ≤ at + 32) × (end ≤ length values.now) × (end ≤ 1024) }
    ensures { (result.count ≡ end - at) × (take result.count (T.values result.codes) ≡ take (end - at) (drop at (difference_codes T.width 0 (T.values values.now)))) }
{
    differences::coded(pattern_before(values, at), &values[at..end])
}

// The codes from `at` to `end` by mode.
fn grouped<T: Lent>(t: Setting, values: &[T], staged: &[T], at: usize, end: usize) -> Group<T>
    requires bounds { (t.width ≡ T.width) × (at ≤ end) × (end ≤ at + 32) × (end ≤ length values.now) × (end ≤ 1024) }
    requires scratch { Scratch t (T.values values.now) (T.values staged.now) }
    ensures { (result.count ≡ end - at) × (take result.count (T.values result.codes) ≡ take (end - at) (drop at (codes_of t (T.values values.now)))) }
{
    if t.mode == 2 {
        return differenced(values, at, end);
    }
    T::each(t, values, staged, at, end)
}

// The same for either width, in the record of both.
pub(crate) fn coded(
    t: Setting,
    v32: &[u32],
    c32: &[u32],
    v64: &[u64],
    at: usize,
    end: usize,
) -> Group<u64>
    requires allowed { Allowed t × (at ≤ end) × (end ≤ at + 32) × (end ≤ length (chosen t.width v32.now v64.now)) × (end ≤ 1024) }
    requires v32_in_bounds { (length v32.now ≤ length c32.now) × Staged t v32.now c32.now }
    ensures { (result.count ≡ end - at) × (take result.count result.codes ≡ take (end - at) (drop at (lent_codes t v32.now v64.now))) }
{
    if t.width == 32 {
        return group::widened(grouped(t, v32, c32, at, end));
    }
    grouped(t, v64, &[], at, end)
}

// How many bytes the full group of 128 from `at` on takes: four full records. Mode 2 has a way of its own here and below, so that nothing comes into the
// loops of the modes 0 and 1.
fn measured_128<T: Lent>(t: Setting, values: &[T], staged: &[T], at: usize) -> usize
    requires bounds { (t.width ≡ T.width) × (at + 128 ≤ length values.now) × (at + 128 ≤ 1024) }
    requires scratch { Scratch t (T.values values.now) (T.values staged.now) }
    ensures { result ≡ length (group_bytes (take 128 (drop at (codes_of t (T.values values.now))))) }
{
    if t.mode == 2 {
        return group::measured_full_four(
            differenced(values, at, at + 32),
            differenced(values, at + 32, at + 64),
            differenced(values, at + 64, at + 96),
            differenced(values, at + 96, at + 128),
        );
    }
    group::measured_full_four(
        T::each(t, values, staged, at, at + 32),
        T::each(t, values, staged, at + 32, at + 64),
        T::each(t, values, staged, at + 64, at + 96),
        T::each(t, values, staged, at + 96, at + 128),
    )
}

// The bytes themselves, at the front of `out`, and how many they are.
fn put_128<T: Lent>(t: Setting, values: &[T], staged: &[T], at: usize, out: &mut [u8]) -> usize
    requires bounds { (t.width ≡ T.width) × (at + 128 ≤ length values.now) × (at + 128 ≤ 1024) }
    requires scratch { Scratch t (T.values values.now) (T.values staged.now) }
    requires room { length (group_bytes (take 128 (drop at (codes_of t (T.values values.now))))) ≤ length out.old }
    ensures value { result ≡ length (group_bytes (take 128 (drop at (codes_of t (T.values values.now))))) }
    ensures out_after { out.new ≡ group_bytes (take 128 (drop at (codes_of t (T.values values.now)))) ++ drop result out.old }
{
    group_written::full_four(
        grouped(t, values, staged, at, at + 32),
        grouped(t, values, staged, at + 32, at + 64),
        grouped(t, values, staged, at + 64, at + 96),
        grouped(t, values, staged, at + 96, at + 128),
        out,
    )
}

// How many bytes a group of up to 128 codes takes, those from `at` to `end` of the whole chunk's: it is handled as four records.
fn measured_up_to_128<T: Lent>(
    t: Setting,
    values: &[T],
    staged: &[T],
    at: usize,
    end: usize,
) -> usize
    requires bounds { (t.width ≡ T.width) × (at ≤ end) × (end ≤ at + 128) × (end ≤ length values.now) × (end ≤ 1024) }
    requires scratch { Scratch t (T.values values.now) (T.values staged.now) }
    ensures { result ≡ length (group_bytes (take (end - at) (drop at (codes_of t (T.values values.now))))) }
{
    let first = usize::min(at + 32, end);
    let second = usize::min(at + 64, end);
    let third = usize::min(at + 96, end);
    group::measured_four(
        grouped(t, values, staged, at, first),
        grouped(t, values, staged, first, second),
        grouped(t, values, staged, second, third),
        grouped(t, values, staged, third, end),
    )
}

// The bytes themselves, at the front of `out`, and how many they are.
fn put_up_to_128<T: Lent>(
    t: Setting,
    values: &[T],
    staged: &[T],
    at: usize,
    end: usize,
    out: &mut [u8],
) -> usize
    requires bounds { (t.width ≡ T.width) × (at ≤ end) × (end ≤ at + 128) × (end ≤ length values.now) × (end ≤ 1024) }
    requires scratch { Scratch t (T.values values.now) (T.values staged.now) }
    requires room { length (group_bytes (take (end - at) (drop at (codes_of t (T.values values.now))))) ≤ length out.old }
    ensures value { result ≡ length (group_bytes (take (end - at) (drop at (codes_of t (T.values values.now))))) }
    ensures out_after { out.new ≡ group_bytes (take (end - at) (drop at (codes_of t (T.values values.now)))) ++ drop result out.old }
{
    let first = usize::min(at + 32, end);
    let second = usize::min(at + 64, end);
    let third = usize::min(at + 96, end);
    group_written::four(
        grouped(t, values, staged, at, first),
        grouped(t, values, staged, first, second),
        grouped(t, values, staged, second, third),
        grouped(t, values, staged, third, end),
        out,
    )
}

// Both ways for a group of up to 128, full or not.
fn long_length<T: Lent>(t: Setting, values: &[T], staged: &[T], at: usize, end: usize) -> usize
    requires bounds { (t.width ≡ T.width) × (at ≤ end) × (end ≤ at + 128) × (end ≤ length values.now) × (end ≤ 1024) }
    requires scratch { Scratch t (T.values values.now) (T.values staged.now) }
    ensures { result ≡ length (group_bytes (take (end - at) (drop at (codes_of t (T.values values.now))))) }
{
    if end - at == 128 {
        return measured_128(t, values, staged, at);
    }
    measured_up_to_128(t, values, staged, at, end)
}

fn long_bytes<T: Lent>(
    t: Setting,
    values: &[T],
    staged: &[T],
    at: usize,
    end: usize,
    out: &mut [u8],
) -> usize
    requires bounds { (t.width ≡ T.width) × (at ≤ end) × (end ≤ at + 128) × (end ≤ length values.now) × (end ≤ 1024) }
    requires scratch { Scratch t (T.values values.now) (T.values staged.now) }
    requires room { length (group_bytes (take (end - at) (drop at (codes_of t (T.values values.now))))) ≤ length out.old }
    ensures value { result ≡ length (group_bytes (take (end - at) (drop at (codes_of t (T.values values.now))))) }
    ensures out_after { out.new ≡ group_bytes (take (end - at) (drop at (codes_of t (T.values values.now)))) ++ drop result out.old }
{
    if end - at == 128 {
        return put_128(t, values, staged, at, out);
    }
    put_up_to_128(t, values, staged, at, end, out)
}

// The same by width.
pub(crate) fn measured_long(
    t: Setting,
    v32: &[u32],
    c32: &[u32],
    v64: &[u64],
    at: usize,
    end: usize,
) -> usize
    requires allowed { Allowed t × (at ≤ end) × (end ≤ at + 128) × (end ≤ length (chosen t.width v32.now v64.now)) × (end ≤ 1024) }
    requires v32_in_bounds { (length v32.now ≤ length c32.now) × Staged t v32.now c32.now }
    ensures { result ≡ length (group_bytes (take (end - at) (drop at (lent_codes t v32.now v64.now)))) }
{
    if t.width == 32 {
        return long_length(t, v32, c32, at, end);
    }
    long_length(t, v64, &[], at, end)
}

pub(crate) fn put_long(
    t: Setting,
    v32: &[u32],
    c32: &[u32],
    v64: &[u64],
    at: usize,
    end: usize,
    out: &mut [u8],
) -> usize
    requires allowed { Allowed t × (at ≤ end) × (end ≤ at + 128) × (end ≤ length (chosen t.width v32.now v64.now)) × (end ≤ 1024) }
    requires v32_in_bounds { (length v32.now ≤ length c32.now) × Staged t v32.now c32.now }
    requires v64_in_bounds { length (group_bytes (take (end - at) (drop at (lent_codes t v32.now v64.now)))) ≤ length out.old }
    ensures value { result ≡ length (group_bytes (take (end - at) (drop at (lent_codes t v32.now v64.now)))) }
    ensures out_after { out.new ≡ group_bytes (take (end - at) (drop at (lent_codes t v32.now v64.now))) ++ drop result out.old }
{
    if t.width == 32 {
        return long_bytes(t, v32, c32, at, end, out);
    }
    long_bytes(t, v64, &[], at, end, out)
}

// How many bytes the full group of 32 from `at` on takes.
fn measured_32<T: Lent>(t: Setting, values: &[T], staged: &[T], at: usize) -> usize
    requires bounds { (t.width ≡ T.width) × (at + 32 ≤ length values.now) × (at + 32 ≤ 1024) }
    requires scratch { Scratch t (T.values values.now) (T.values staged.now) }
    ensures { result ≡ length (group_bytes (take 32 (drop at (codes_of t (T.values values.now))))) }
{
    if t.mode == 2 {
        return group::measured_full(differenced(values, at, at + 32));
    }
    group::measured_full(T::each(t, values, staged, at, at + 32))
}

// The bytes themselves, at the front of `out`, and how many they are.
fn put_32<T: Lent>(t: Setting, values: &[T], staged: &[T], at: usize, out: &mut [u8]) -> usize
    requires bounds { (t.width ≡ T.width) × (at + 32 ≤ length values.now) × (at + 32 ≤ 1024) }
    requires scratch { Scratch t (T.values values.now) (T.values staged.now) }
    requires room { length (group_bytes (take 32 (drop at (codes_of t (T.values values.now))))) ≤ length out.old }
    ensures value { result ≡ length (group_bytes (take 32 (drop at (codes_of t (T.values values.now))))) }
    ensures out_after { out.new ≡ group_bytes (take 32 (drop at (codes_of t (T.values values.now)))) ++ drop result out.old }
{
    group_written::full(grouped(t, values, staged, at, at + 32), out)
}

// The same by width.
pub(crate) fn measured_group(t: Setting, v32: &[u32], c32: &[u32], v64: &[u64], at: usize) -> usize
    requires allowed { Allowed t × (at + 32 ≤ length (chosen t.width v32.now v64.now)) × (at + 32 ≤ 1024) }
    requires v32_in_bounds { (length v32.now ≤ length c32.now) × Staged t v32.now c32.now }
    ensures { result ≡ length (group_bytes (take 32 (drop at (lent_codes t v32.now v64.now)))) }
{
    if t.width == 32 {
        return measured_32(t, v32, c32, at);
    }
    measured_32(t, v64, &[], at)
}

pub(crate) fn put_group(
    t: Setting,
    v32: &[u32],
    c32: &[u32],
    v64: &[u64],
    at: usize,
    out: &mut [u8],
) -> usize
    requires allowed { Allowed t × (at + 32 ≤ length (chosen t.width v32.now v64.now)) × (at + 32 ≤ 1024) }
    requires v32_in_bounds { (length v32.now ≤ length c32.now) × Staged t v32.now c32.now }
    requires v64_in_bounds { length (group_bytes (take 32 (drop at (lent_codes t v32.now v64.now)))) ≤ length out.old }
    ensures value { result ≡ length (group_bytes (take 32 (drop at (lent_codes t v32.now v64.now)))) }
    ensures out_after { out.new ≡ group_bytes (take 32 (drop at (lent_codes t v32.now v64.now))) ++ drop result out.old }
{
    if t.width == 32 {
        return put_32(t, v32, c32, at, out);
    }
    put_32(t, v64, &[], at, out)
}

// The first n codes, at the front of `out`.
fn copied<T: Word>(codes: &[u64], n: usize, out: &mut [T])
    requires { (n ≤ length codes.now) × (n ≤ length out.old) × Below (2 ^ T.width) (take n codes.now) }
    ensures { T.values out.new ≡ take n codes.now ++ drop n (T.values out.old) }
{
    for i in 0..n {
        out[i] = T::narrow(codes[i]);
    }
}

// The pattern p, n times, at the front of `out`. (`fill` writes clones, of which a word's trait says nothing.)
fn repeated<T: Word>(p: T, n: usize, out: &mut [T])
    requires { n ≤ length out.old }
    ensures { T.values out.new ≡ replicate n (T.value p) ++ drop n (T.values out.old) }
{
    for i in 0..n {
        out[i] = p;
    }
}

// The codes of a block of w bits each, at the front of `out`: a full one by its arm, if the bytes go on far enough for the loads of every code.
fn read_block<T: Lent>(s: &[u8], w: usize, n: usize, out: &mut [T])
    requires { (n ≤ 32) × (1 ≤ w) × (w ≤ T.width) × (bytes_for w n < length s.now) × (n ≤ length out.old) }
    ensures { T.values out.new ≡ block_codes w n s.now ++ drop n (T.values out.old) }
{
    if n == 32 {
        if 4 * w + 10 <= s.len() {
            T::opened(s, w, out);
            return;
        }
    }
    let g = group_read::codes_of(s, w, n);
    copied(&g.codes, n, out);
}

// The codes of the group at the front of `s`, block by block, at the front of `out`.
fn read_blocks<T: Lent>(s: &[u8], w: usize, n: usize, out: &mut [T])
    requires { (n ≤ 128) × (1 ≤ w) × (w ≤ T.width) × (w ≡ given_width s.now) × (group_length n s.now ≤ length s.now) × (n ≤ length out.old) }
    ensures { T.values out.new ≡ group_codes n s.now ++ drop n (T.values out.old) }
{
    let mut from: usize = 0;
    let mut done: usize = 0;
    // No `for`: a block ends in the bytes and in the output, and the last has fewer codes.
    while done < n {
        let count = usize::min(32, n - done);
        read_block(&s[from..], w, count, &mut out[done..]);
        from += 4 * w;
        done += count;
    }
}

// The codes of the group at the front of `s`, whose width is not 0, at the front of `out`: a full one of 32 by its arm, with no loop around it.
fn read_codes<T: Lent>(s: &[u8], n: usize, out: &mut [T])
    requires { (n ≤ 128) × (1 ≤ given_width s.now) × (given_width s.now ≤ T.width) × (group_length n s.now ≤ length s.now) × (n ≤ length out.old) }
    ensures { T.values out.new ≡ group_codes n s.now ++ drop n (T.values out.old) }
{
    let w = bytes::wide(s[0]) as usize;
    if n == 32 {
        if 4 * w + 10 <= s.len() {
            T::opened(s, w, out);
            return;
        }
    }
    read_blocks(s, w, n, out);
}

// The patterns of the group at the front of `s` in the modes 0 and 1, at the front of `out`; its codes go through the scratch `c`. In both modes
// the code 0 is that of the pattern 0, so that a group of no bits, as fields with many zeros have, is not opened.
fn put_each<T: Lent>(t: Setting, s: &[u8], n: usize, c: &mut [T], out: &mut [T])
    requires { Allowed t × (t.width ≡ T.width) × (n ≤ 128) × (given_width s.now ≤ T.width) × (group_length n s.now ≤ length s.now) × (n ≤ length c.old) × (n ≤ length out.old) }
    ensures { T.values out.new ≡ map (pattern_at t) (group_codes n s.now) ++ drop n (T.values out.old) }
{
    if 0 < s[0] {
        read_codes(s, n, c);
        coding::put_patterns(t, c, n, out);
    } else {
        repeated(T::of(0), n, out);
    }
}

// The same in mode 2, behind the pattern `before`, which the code 0 repeats: nearly constant fields have many groups of no bits there. The sums of a full group of 32
// are told by a literal too.
fn put_summed<T: Lent>(before: T, s: &[u8], n: usize, c: &mut [T], out: &mut [T])
    requires { (n ≤ 128) × (given_width s.now ≤ T.width) × (group_length n s.now ≤ length s.now) × (n ≤ length c.old) × (n ≤ length out.old) }
    ensures { T.values out.new ≡ running_sums T.width (T.value before) (group_codes n s.now) ++ drop n (T.values out.old) }
{
    if 0 < s[0] {
        read_codes(s, n, c);
        if n == 32 {
            differences::put_sums(before, c, 32, out);
        } else {
            differences::put_sums(before, c, n, out);
        }
    } else {
        repeated(before.bounded(), n, out);
    }
}

// Both, from `at` on in the output, where the patterns before it stand already.
fn put_from<T: Lent>(t: Setting, s: &[u8], n: usize, c: &mut [T], out: &mut [T], at: usize)
    requires allowed { Allowed t × (t.width ≡ T.width) × (n ≤ 128) × (given_width s.now ≤ T.width) × (group_length n s.now ≤ length s.now) }
    requires at_bound { (at ≤ 1024) × (n ≤ length c.old) × (at + n ≤ length out.old) }
    ensures { T.values out.new ≡ landed at (patterns_after t (last_of 0 (take at (T.values out.old))) (group_codes n s.now)) (T.values out.old) }
{
    if t.mode == 2 {
        let before = pattern_before(out, at);
        put_summed(before, s, n, c, &mut out[at..]);
    } else {
        put_each(t, s, n, c, &mut out[at..]);
    }
}

// The patterns of the group at the front of `s`, from `at` on in the output of the width, where the patterns before it stand already; its codes
// go through the scratch of the width.
pub(crate) fn put_values(
    t: Setting,
    s: &[u8],
    n: usize,
    c32: &mut [u32],
    c64: &mut [u64],
    o32: &mut [u32],
    o64: &mut [u64],
    at: usize,
)
    requires allowed { Allowed t × (n ≤ 128) × (given_width s.now ≤ t.width) × (group_length n s.now ≤ length s.now) }
    requires at_bound { (at ≤ 1024) × (n ≤ length (chosen t.width c32.old c64.old)) × (at + n ≤ length (chosen t.width o32.old o64.old)) }
    ensures { chosen t.width o32.new o64.new ≡ landed at (patterns_after t (last_of 0 (take at (chosen t.width o32.old o64.old))) (group_codes n s.now)) (chosen t.width o32.old o64.old) }
{
    if t.width == 32 {
        put_from(t, s, n, c32, o32, at);
    } else {
        put_from(t, s, n, c64, o64, at);
    }
}

// The pattern of one code, in a word of either width.
fn pattern(t: Setting, c: u64) -> u64
    requires { Allowed t × (c < 2 ^ t.width) }
    ensures { result ≡ pattern_at t c }
{
    if t.width == 32 {
        coding::pattern(t, c as u32) as u64
    } else {
        coding::pattern(t, c)
    }
}

// The pattern of the code i, of codes that stand behind `before`: in mode 2 the sum up to that code and with it, else of that code alone.
fn picked(t: Setting, before: u64, codes: &[u64], i: usize) -> u64
    requires { Allowed t × (before < 2 ^ t.width) × (i < length codes.now) × (i < 1024) × Below (2 ^ t.width) (take (i + 1) codes.now) }
    ensures { result ≡ get_or (patterns_after t before (take (i + 1) codes.now)) i 0 }
{
    if t.mode == 2 {
        differences::last_sum(t, before, codes, i + 1)
    } else {
        pattern(t, codes[i])
    }
}

// The last pattern of a block's codes in mode 2.
fn block_sum(t: Setting, before: u64, s: &[u8], w: usize, n: usize) -> u64
    requires { Allowed t × (before < 2 ^ t.width) × (n ≤ 32) × (w ≤ t.width) × (bytes_for w n < length s.now) }
    ensures { (result < 2 ^ t.width) × (result ≡ last_of before (running_sums t.width before (block_codes w n s.now))) }
{
    let g = group_read::codes_of(s, w, n);
    let codes = g.codes;
    differences::last_sum(t, before, &codes, n)
}

// The last pattern of a group's first n codes in mode 2, block by block. A full block is told by a literal, so that a compiler knows its loops' lengths.
fn group_sum(t: Setting, before: u64, s: &[u8], n: usize) -> u64
    requires { Allowed t × (before < 2 ^ t.width) × (n ≤ 128) × (given_width s.now ≤ t.width) × (group_length n s.now ≤ length s.now) }
    ensures { (result < 2 ^ t.width) × (result ≡ last_of before (running_sums t.width before (group_codes n s.now))) }
{
    let w = bytes::wide(s[0]) as usize;
    let mut last = before;
    let mut from: usize = 0;
    let mut left = n;
    // No `for`: what is left behind the full blocks has its own turn below.
    while 32 <= left {
        last = block_sum(t, last, &s[from..], w, 32);
        from += 4 * w;
        left -= 32;
    }
    if left == 0 {
        return last;
    }
    block_sum(t, last, &s[from..], w, left)
}

// The pattern that what follows the first n codes of a good group stands behind. It counts in mode 2 alone, so the others do not open the group.
pub(crate) fn carried(t: Setting, before: u64, s: &[u8], n: usize) -> u64
    requires { Allowed t × (before < 2 ^ t.width) × (n ≤ 128) × (given_width s.now ≤ t.width) × (group_length n s.now ≤ length s.now) }
    ensures { (result < 2 ^ t.width) × SameBehind t result (last_of before (patterns_after t before (group_codes n s.now))) }
{
    if t.mode != 2 {
        return before;
    }
    group_sum(t, before, s, n)
}

// The value i of a good group of n, from its own block: the codes of the blocks before it count by the pattern `last` that what follows them stands behind.
fn value_behind(t: Setting, last: u64, s: &[u8], n: usize, i: usize) -> u64
    requires { Allowed t × (last < 2 ^ t.width) × (i < n) × (n ≤ 128) × (given_width s.now ≤ t.width) × (group_length n s.now ≤ length s.now) }
    ensures { (before : ℕ) → SameBehind t last (last_of before (patterns_after t before (group_codes (32 * (i / 32)) s.now)))
        → result ≡ get_or (patterns_after t before (group_codes n s.now)) i 0 }
{
    let w = bytes::wide(s[0]) as usize;
    let block = i / 32;
    let passed = 32 * block;
    let from = 4 * w * block;
    let g = group_read::codes_of(&s[from..], w, usize::min(32, n - passed));
    let codes = g.codes;
    picked(t, last, &codes, i - passed)
}

// The value i of a good group of n, whose codes stand behind `before`: the full blocks before its own are passed over, and in mode 2 summed up.
pub(crate) fn value(t: Setting, before: u64, s: &[u8], n: usize, i: usize) -> u64
    requires { Allowed t × (before < 2 ^ t.width) × (i < n) × (n ≤ 128) × (given_width s.now ≤ t.width) × (group_length n s.now ≤ length s.now) }
    ensures { result ≡ get_or (patterns_after t before (group_codes n s.now)) i 0 }
{
    if t.mode == 2 {
        let last = group_sum(t, before, s, 32 * (i / 32));
        return value_behind(t, last, s, n, i);
    }
    value_behind(t, before, s, n, i)
}
