// A group of codes: the record, its width and how many bytes it takes.
ghost use Rattle.std.specs.Prelude.{◌≡◌, ◌++◌, ◌≤◌, length, take};
ghost use Rattle.stream.specs.Group.{width_of, group_bytes};

use words::Word;

// "a record of its count and up to 32 codes", in words of its width; its codes are the first `count` of the array. A group of 128 is handled as four of them.
// At width 32 a record is half the size, and a compiler handles four of its codes at a time.
#[derive(Clone, Copy)]
pub struct Group<T> {
    pub count: usize,
    pub codes: [T; 32],
}

// "the bit length of the group's largest code (0 if all are 0)". The OR of the codes has the same length as the largest, and needs no comparison.
pub(crate) fn width<T: Word>(codes: &[T]) -> usize
    ensures { (result ≡ width_of (T.values codes.now)) × (result ≤ T.width) }
{
    let mut all = T::of(0);
    for code in codes {
        all = all | *code;
    }
    all.bit_length()
}

// The codes of a group, as many as it counts.
pub(crate) fn counted<T: Word>(codes: &[T], n: usize) -> &[T]
    requires { n ≤ length codes.now }
    ensures { T.values result.now ≡ take n (T.values codes.now) }
{
    &codes[..n]
}

// The width of the codes of a record. Of a full one the compiler knows how many they are.
pub(crate) fn width_in<T: Word>(g: Group<T>) -> usize
    requires { g.count ≤ 32 }
    ensures { (result ≡ width_of (take g.count (T.values g.codes))) × (result ≤ T.width) }
{
    let n = g.count;
    let codes = g.codes;
    if n == 32 {
        return width(&codes);
    }
    width(counted(&codes, n))
}

// A group of 32 bits in the record of 64.
pub(crate) fn widened(g: Group<u32>) -> Group<u64>
    ensures { (result.count ≡ g.count) × (result.codes ≡ g.codes) }
{
    let codes = g.codes;
    let mut wide = [0u64; 32];
    for i in 0..32 {
        wide[i] = codes[i] as u64;
    }
    Group {
        count: g.count,
        codes: wide,
    }
}

// The width of a group of four records.
pub(crate) fn width_four<T: Word>(a: Group<T>, b: Group<T>, c: Group<T>, d: Group<T>) -> usize
    requires { (a.count ≤ 32) × (b.count ≤ 32) × (c.count ≤ 32) × (d.count ≤ 32) }
    ensures { (result ≡ width_of (take a.count (T.values a.codes) ++ take b.count (T.values b.codes) ++ take c.count (T.values c.codes) ++ take d.count (T.values d.codes))) × (result ≤ T.width) }
{
    let front = width_in(a).max(width_in(b));
    let back = width_in(c).max(width_in(d));
    front.max(back)
}

// How many bytes a group takes. The count of a group is small, so the product fits.
pub(crate) fn measured(g: Group<u64>) -> usize
    requires { g.count ≤ 32 }
    ensures { result ≡ length (group_bytes (take g.count g.codes)) }
{
    let n = g.count;
    let w = width(counted(&g.codes, n));
    1 + (w * n + 7) / 8
}

// The same of a full group: 32 codes of w bits are 4w whole bytes. The codes are taken out first, so that no record is copied by a call.
pub(crate) fn measured_full<T: Word>(g: Group<T>) -> usize
    requires { g.count ≡ 32 }
    ensures { result ≡ length (group_bytes (take g.count (T.values g.codes))) }
{
    let codes = g.codes;
    1 + 4 * width(&codes)
}

// The same of a group of four records.
pub(crate) fn measured_four<T: Word>(a: Group<T>, b: Group<T>, c: Group<T>, d: Group<T>) -> usize
    requires { (a.count ≤ 32) × (b.count ≤ 32) × (c.count ≤ 32) × (d.count ≤ 32) }
    ensures { result ≡ length (group_bytes (take a.count (T.values a.codes) ++ take b.count (T.values b.codes) ++ take c.count (T.values c.codes) ++ take d.count (T.values d.codes))) }
{
    let n = a.count + b.count + c.count + d.count;
    1 + (width_four(a, b, c, d) * n + 7) / 8
}

// The same of four full records: 128 codes of w bits are 16w whole bytes. The codes are taken out first, as above.
pub(crate) fn measured_full_four<T: Word>(
    a: Group<T>,
    b: Group<T>,
    c: Group<T>,
    d: Group<T>,
) -> usize
    requires { (a.count ≡ 32) × (b.count ≡ 32) × (c.count ≡ 32) × (d.count ≡ 32) }
    ensures { result ≡ length (group_bytes (take a.count (T.values a.codes) ++ take b.count (T.values b.codes) ++ take c.count (T.values c.codes) ++ take d.count (T.values d.codes))) }
{
    let ca = a.codes;
    let cb = b.codes;
    let cc = c.codes;
    let cd = d.codes;
    let front = width(&ca).max(width(&cb));
    let back = width(&cc).max(width(&cd));
    1 + 16 * front.max(back)
}
