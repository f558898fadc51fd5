// Values and their codes in the modes that code each value by itself, 0 and 1: one by one and side by side. The functions of `lent` choose between the
// widths, and between these and the differences.
ghost use Rattle.std.specs.Prelude.{◌≡◌, map, ◌++◌, ◌≤◌, length, min, take, drop};
ghost use Rattle.bins.specs.Tolerance.{last_bin, tolerance_code, tolerance_restored};
ghost use Rattle.stream.specs.Setting.{code_at, pattern_at};

use crate::group::Group;
use crate::setting::Setting;
use bins::bin;
use bins::kernel::Kernel;
use numbers::lossless;
use words::Word;

// The code of one pattern in mode 0, in mode 1, and by mode.
fn lossless<T: Kernel>(t: Setting, p: T) -> T
    requires { (t.width ≡ T.width) × (t.mode ≡ 0) }
    ensures { T.value result ≡ code_at t (T.value p) }
{
    lossless::code(p)
}

fn tolerance<T: Kernel>(t: Setting, p: T) -> T
    requires { (t.width ≡ T.width) × (t.mode ≡ 0 → ⊥) }
    ensures { T.value result ≡ code_at t (T.value p) }
{
    bin::code_at_bin(t.halves, t.bin, p)
}

fn code<T: Kernel>(t: Setting, p: T) -> T
    requires { t.width ≡ T.width }
    ensures { T.value result ≡ code_at t (T.value p) }
{
    if t.mode == 0 {
        lossless(t, p)
    } else {
        tolerance(t, p)
    }
}

// The pattern of one code, by mode.
pub(crate) fn pattern<T: Kernel>(t: Setting, c: T) -> T
    requires { t.width ≡ T.width }
    ensures { T.value result ≡ pattern_at t (T.value c) }
{
    if t.mode == 0 {
        lossless::restored(c)
    } else {
        bin::restored_at_bin(t.bin, c)
    }
}

// The codes of all values in mode 1, at the front of `c`.
pub(crate) fn put_codes<T: Kernel>(t: Setting, values: &[T], c: &mut [T])
    requires { (t.width ≡ T.width) × (t.mode ≡ 0 → ⊥) × (length values.now ≤ length c.old) }
    ensures { T.values c.new ≡ map (code_at t) (T.values values.now) ++ drop (length values.now) (T.values c.old) }
{
    for i in 0..values.len() {
        c[i] = tolerance(t, values[i]);
    }
}

// The codes of up to 32 values as a group, in mode 0 and by mode. At width 32 each mode has a loop of its own, so that what the other does comes into none: one that
// asks the mode takes three times as long. At width 64 that one is a little faster.
pub(crate) fn lossless_group<T: Kernel>(t: Setting, values: &[T]) -> Group<T>
    requires { (t.width ≡ T.width) × (t.mode ≡ 0) × (length values.now ≤ 32) }
    ensures { (result.count ≡ length values.now) × (take result.count (T.values result.codes) ≡ map (code_at t) (T.values values.now)) }
{
    let mut codes = [T::of(0); 32];
    for i in 0..values.len() {
        codes[i] = lossless(t, values[i]);
    }
    Group {
        count: values.len(),
        codes,
    }
}

pub(crate) fn group<T: Kernel>(t: Setting, values: &[T]) -> Group<T>
    requires { (t.width ≡ T.width) × (length values.now ≤ 32) }
    ensures { (result.count ≡ length values.now) × (take result.count (T.values result.codes) ≡ map (code_at t) (T.values values.now)) }
{
    let mut codes = [T::of(0); 32];
    for i in 0..values.len() {
        codes[i] = code(t, values[i]);
    }
    Group {
        count: values.len(),
        codes,
    }
}

// The patterns of the first n codes, at the front of `out`.
pub(crate) fn put_patterns<T: Kernel>(t: Setting, codes: &[T], n: usize, out: &mut [T])
    requires { (t.width ≡ T.width) × (n ≤ length codes.now) × (n ≤ length out.old) }
    ensures { T.values out.new ≡ map (pattern_at t) (take n (T.values codes.now)) ++ drop n (T.values out.old) }
{
    for i in 0..n {
        out[i] = pattern(t, codes[i]);
    }
}
