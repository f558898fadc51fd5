// Values and their codes in mode 2, where each difference needs the pattern before. A list stands behind the pattern `before`, which is 0 at the
// start of a chunk: the differences run on across its groups, and no further.
ghost use Rattle.std.specs.Prelude.{◌≡◌, ◌++◌, ◌≤◌, ◌<◌, ◌^◌, length, take, drop};
ghost use Rattle.numbers.specs.Difference.{difference_codes, difference_restored, running_sums, last_of};
ghost use Rattle.blocks.specs.Bytes.{Below};
ghost use Rattle.stream.specs.Relied.{Allowed};

use crate::group::Group;
use crate::setting::Setting;
use numbers::difference;
use words::Word;

// The codes of up to 32 values, as a group.
pub(crate) fn coded<T: Word>(before: T, values: &[T]) -> Group<T>
    requires { length values.now ≤ 32 }
    ensures { (result.count ≡ length values.now) × (take result.count (T.values result.codes) ≡ difference_codes T.width (T.value before) (T.values values.now)) }
{
    let mut codes = [T::of(0); 32];
    let mut last = before;
    for i in 0..values.len() {
        codes[i] = difference::code(last, values[i]);
        last = values[i];
    }
    Group {
        count: values.len(),
        codes,
    }
}

// The patterns of the first four codes, at the front of `out`, and the last of them. The sum is serial; four at a time the codes are unfolded side by
// side, ahead of it.
fn four<T: Word>(before: T, codes: &[T], out: &mut [T]) -> T
    requires { (4 ≤ length codes.now) × (4 ≤ length out.old) }
    ensures value { T.value result ≡ last_of (T.value before) (running_sums T.width (T.value before) (take 4 (T.values codes.now))) }
    ensures out_after { T.values out.new ≡ running_sums T.width (T.value before) (take 4 (T.values codes.now)) ++ drop 4 (T.values out.old) }
{
    let a = difference::restored(before, codes[0]);
    let b = difference::restored(a, codes[1]);
    let c = difference::restored(b, codes[2]);
    let d = difference::restored(c, codes[3]);
    out[0] = a;
    out[1] = b;
    out[2] = c;
    out[3] = d;
    d
}

// The patterns of the first n codes, at the front of `out`, one by one: what is left behind the fours.
fn one_by_one<T: Word>(before: T, codes: &[T], n: usize, out: &mut [T])
    requires { (n ≤ length codes.now) × (n ≤ length out.old) }
    ensures { T.values out.new ≡ running_sums T.width (T.value before) (take n (T.values codes.now)) ++ drop n (T.values out.old) }
{
    let mut last = before;
    for i in 0..n {
        last = difference::restored(last, codes[i]);
        out[i] = last;
    }
}

// The patterns of the first n codes, at the front of `out`, four at a time.
pub(crate) fn put_sums<T: Word>(before: T, codes: &[T], n: usize, out: &mut [T])
    requires { (n ≤ length codes.now) × (n ≤ length out.old) }
    ensures { T.values out.new ≡ running_sums T.width (T.value before) (take n (T.values codes.now)) ++ drop n (T.values out.old) }
{
    let fours = n / 4;
    let mut last = before;
    for k in 0..fours {
        last = four(last, &codes[4 * k..], &mut out[4 * k..]);
    }
    let done = 4 * fours;
    one_by_one(last, &codes[done..], n - done, &mut out[done..]);
}

// The pattern of one code, in a word of either width.
fn next(t: Setting, before: u64, c: u64) -> u64
    requires { Allowed t × (before < 2 ^ t.width) × (c < 2 ^ t.width) }
    ensures { result ≡ difference_restored t.width before c }
{
    if t.width == 32 {
        difference::restored(before as u32, c as u32) as u64
    } else {
        difference::restored(before, c)
    }
}

// The last pattern of the first n codes.
pub(crate) fn last_sum(t: Setting, before: u64, codes: &[u64], n: usize) -> u64
    requires { Allowed t × (before < 2 ^ t.width) × (n ≤ length codes.now) × Below (2 ^ t.width) (take n codes.now) }
    ensures { result ≡ last_of before (running_sums t.width before (take n codes.now)) }
{
    let mut last = before;
    for c in &codes[..n] {
        last = next(t, last, *c);
    }
    last
}
