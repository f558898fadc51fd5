// Groups written: the bytes of a group.
ghost use Rattle.std.specs.Prelude.{◌≡◌, ◌++◌, ◌+◌, ◌*◌, ◌/◌, ◌^◌, ◌≤◌, ◌<◌, length, take, drop};
ghost use Rattle.blocks.specs.Bytes.{Below, digits};
ghost use Rattle.stream.specs.Group.{bytes_for, packed, group_bytes};
ghost use Rattle.stream.specs.Block.{Filled};
ghost use Rattle.stream.specs.Partway.{Partway};

use crate::group;
use crate::group::Group;
use blocks::{block32, block64, bytes};
use words::Word;

// What of a group's codes is not stored yet: the lowest `fill` bits of `word`, which go to byte `at` of the output.
#[derive(Drop)]
struct Rest {
    word: u64,
    fill: usize,
    at: usize,
}

// The codes in words of 64 bits: each code goes above the bits that are held, and a full word goes out. What does not fill a word is left over.
fn words(codes: &[u64], w: usize, out: &mut [u8]) -> Rest
    requires { (w ≤ 64) × Below (2 ^ w) codes.now × (bytes_for w (length codes.now) ≤ length out.old) }
    ensures { Partway w out.old codes.now result.word result.fill result.at out.new }
{
    let mut word: u64 = 0;
    let mut fill: usize = 0;
    let mut at: usize = 0;
    for code in codes {
        let room = 64 - fill;
        let full = word + (*code << fill);
        if w < room {
            word = full;
            fill += w;
        } else {
            bytes::store(out, at, full);
            word = (*code / 2) >> (room - 1);
            fill = w - room;
            at += 8;
        }
    }
    Rest { word, fill, at }
}

// The bytes of what is left over. The word has no bits above those that are held, so the last byte has zero bits above the code's.
fn tail(rest: Rest, out: &mut [u8]) -> usize
    requires { (rest.fill < 64) × (rest.at + (rest.fill + 7) / 8 ≤ length out.old) }
    ensures value { result ≡ rest.at + (rest.fill + 7) / 8 }
    ensures out_after { out.new ≡ take rest.at out.old ++ digits 256 ((rest.fill + 7) / 8) rest.word ++ drop result out.old }
{
    let at = rest.at;
    let count = (rest.fill + 7) / 8;
    let mut word = rest.word;
    for k in 0..count {
        out[at + k] = (word % 256) as u8;
        word = word / 256;
    }
    at + count
}

// "the codes, w bits each, lowest bit first, filling each byte from its lowest bit, with zero bits to the next byte". Codes of no bits are passed over.
fn put_packed(codes: &[u64], w: usize, out: &mut [u8]) -> usize
    requires { (w ≤ 64) × Below (2 ^ w) codes.now × (bytes_for w (length codes.now) ≤ length out.old) }
    ensures value { result ≡ bytes_for w (length codes.now) }
    ensures out_after { out.new ≡ packed w codes.now ++ drop result out.old }
{
    if w == 0 {
        return 0;
    }
    let rest = words(codes, w, out);
    tail(rest, out)
}

// The width and the body, for codes of any count.
fn spelled(codes: &[u64], out: &mut [u8]) -> usize
    requires { length (group_bytes codes.now) ≤ length out.old }
    ensures value { result ≡ length (group_bytes codes.now) }
    ensures out_after { out.new ≡ group_bytes codes.now ++ drop result out.old }
{
    let w = group::width(codes);
    out[0] = w as u8;
    1 + put_packed(codes, w, &mut out[1..])
}

// The group's bytes at the front of `out`, and how many they are.
pub(crate) fn written(g: Group<u64>, out: &mut [u8]) -> usize
    requires { (g.count ≤ 32) × (length (group_bytes (take g.count g.codes)) ≤ length out.old) }
    ensures value { result ≡ length (group_bytes (take g.count g.codes)) }
    ensures out_after { out.new ≡ group_bytes (take g.count g.codes) ++ drop result out.old }
{
    let n = g.count;
    spelled(group::counted(&g.codes, n), out)
}

// What differs by width in the writing of a group.
pub(crate) trait Blocks: Word {
    // The bytes of 32 codes, which are a block of 4w whole bytes. The codes are lent: by value they are copied first at width 32.
    fn put_codes(codes: &[Self; 32], w: usize, out: &mut [u8])
        requires { (1 ≤ w) × (w ≤ Self.width) × Below (2 ^ w) (Self.values codes.now) × (4 * w ≤ length out.old) }
        ensures { out.new ≡ packed w (Self.values codes.now) ++ drop (4 * w) out.old };

    // The same group in the record of 64 bits, which the writing of any count of codes takes.
    fn in_64(g: Group<Self>) -> Group<u64>
        ensures { (result.count ≡ g.count) × (result.codes ≡ Self.values g.codes) };
}

impl Blocks for u32 {
    fn put_codes(codes: &[u32; 32], w: usize, out: &mut [u8])
        requires { (1 ≤ w) × (w ≤ 32) × Below (2 ^ w) codes.now × (4 * w ≤ length out.old) }
        ensures { out.new ≡ packed w codes.now ++ drop (4 * w) out.old }
    {
        block32::packed32(codes, w, out);
    }

    fn in_64(g: Group<u32>) -> Group<u64>
        ensures { (result.count ≡ g.count) × (result.codes ≡ g.codes) }
    {
        group::widened(g)
    }
}

impl Blocks for u64 {
    fn put_codes(codes: &[u64; 32], w: usize, out: &mut [u8])
        requires { (1 ≤ w) × (w ≤ 64) × Below (2 ^ w) codes.now × (4 * w ≤ length out.old) }
        ensures { out.new ≡ packed w codes.now ++ drop (4 * w) out.old }
    {
        block64::packed64(*codes, w, out);
    }

    fn in_64(g: Group<u64>) -> Group<u64>
        ensures { (result.count ≡ g.count) × (result.codes ≡ g.codes) }
    {
        g
    }
}

// The bytes of a block. Codes of no bits are passed over.
fn put_block<T: Blocks>(codes: &[T; 32], w: usize, out: &mut [u8])
    requires { (w ≤ T.width) × Below (2 ^ w) (T.values codes.now) × (4 * w ≤ length out.old) }
    ensures { out.new ≡ packed w (T.values codes.now) ++ drop (4 * w) out.old }
{
    if 0 < w {
        T::put_codes(codes, w, out);
    }
}

// A full group's bytes at the front of `out`, and how many they are. The codes are taken out first, so that no record is copied by a call.
pub(crate) fn full<T: Blocks>(g: Group<T>, out: &mut [u8]) -> usize
    requires { (g.count ≡ 32) × (length (group_bytes (take g.count (T.values g.codes))) ≤ length out.old) }
    ensures value { result ≡ length (group_bytes (take g.count (T.values g.codes))) }
    ensures out_after { out.new ≡ group_bytes (take g.count (T.values g.codes)) ++ drop result out.old }
{
    let codes = g.codes;
    let w = group::width(&codes);
    out[0] = w as u8;
    put_block(&codes, w, &mut out[1..]);
    1 + 4 * w
}

// The codes of a record, w bits each, without a width byte: a part of the group that has it.
fn part<T: Blocks>(g: Group<T>, w: usize, out: &mut [u8]) -> usize
    requires { (g.count ≤ 32) × (w ≤ T.width) × Below (2 ^ w) (take g.count (T.values g.codes)) × (bytes_for w g.count ≤ length out.old) }
    ensures value { result ≡ bytes_for w g.count }
    ensures out_after { out.new ≡ packed w (take g.count (T.values g.codes)) ++ drop result out.old }
{
    let wide = T::in_64(g);
    put_packed(group::counted(&wide.codes, wide.count), w, out)
}

// Two parts, one behind the other.
fn two<T: Blocks>(a: Group<T>, b: Group<T>, w: usize, out: &mut [u8]) -> usize
    requires count_bound { (a.count ≤ 32) × (b.count ≤ 32) × Filled a.count b.count × (w ≤ T.width) }
    requires below { Below (2 ^ w) (take a.count (T.values a.codes) ++ take b.count (T.values b.codes)) × (bytes_for w (a.count + b.count) ≤ length out.old) }
    ensures value { result ≡ bytes_for w (a.count + b.count) }
    ensures out_after { out.new ≡ packed w (take a.count (T.values a.codes) ++ take b.count (T.values b.codes)) ++ drop result out.old }
{
    let put = part(a, w, out);
    put + part(b, w, &mut out[put..])
}

// The bytes of a group of four records, at the front of `out`, and how many they are: one width byte, and the four parts behind it.
pub(crate) fn four<T: Blocks>(
    a: Group<T>,
    b: Group<T>,
    c: Group<T>,
    d: Group<T>,
    out: &mut [u8],
) -> usize
    requires count_bound { (a.count ≤ 32) × (b.count ≤ 32) × (c.count ≤ 32) × (d.count ≤ 32) }
    requires filled { Filled a.count (b.count + (c.count + d.count)) × Filled b.count (c.count + d.count) × Filled c.count d.count }
    requires codes_in_bounds { length (group_bytes (take a.count (T.values a.codes) ++ take b.count (T.values b.codes) ++ take c.count (T.values c.codes) ++ take d.count (T.values d.codes))) ≤ length out.old }
    ensures value { result ≡ length (group_bytes (take a.count (T.values a.codes) ++ take b.count (T.values b.codes) ++ take c.count (T.values c.codes) ++ take d.count (T.values d.codes))) }
    ensures out_after { out.new ≡ group_bytes (take a.count (T.values a.codes) ++ take b.count (T.values b.codes) ++ take c.count (T.values c.codes) ++ take d.count (T.values d.codes)) ++ drop result out.old }
{
    let w = group::width_four(a, b, c, d);
    out[0] = w as u8;
    let put = 1 + two(a, b, w, &mut out[1..]);
    put + two(c, d, w, &mut out[put..])
}

// The same of four full records: each is a block of 4w whole bytes.
pub(crate) fn full_four<T: Blocks>(
    a: Group<T>,
    b: Group<T>,
    c: Group<T>,
    d: Group<T>,
    out: &mut [u8],
) -> usize
    requires count_value { (a.count ≡ 32) × (b.count ≡ 32) × (c.count ≡ 32) × (d.count ≡ 32) }
    requires codes_in_bounds { length (group_bytes (take a.count (T.values a.codes) ++ take b.count (T.values b.codes) ++ take c.count (T.values c.codes) ++ take d.count (T.values d.codes))) ≤ length out.old }
    ensures value { result ≡ length (group_bytes (take a.count (T.values a.codes) ++ take b.count (T.values b.codes) ++ take c.count (T.values c.codes) ++ take d.count (T.values d.codes))) }
    ensures out_after { out.new ≡ group_bytes (take a.count (T.values a.codes) ++ take b.count (T.values b.codes) ++ take c.count (T.values c.codes) ++ take d.count (T.values d.codes)) ++ drop result out.old }
{
    let ca = a.codes;
    let cb = b.codes;
    let cc = c.codes;
    let cd = d.codes;
    let front = group::width(&ca).max(group::width(&cb));
    let back = group::width(&cc).max(group::width(&cd));
    let w = front.max(back);
    out[0] = w as u8;
    if w == 0 {
        return 1;
    }
    T::put_codes(&ca, w, &mut out[1..]);
    T::put_codes(&cb, w, &mut out[1 + 4 * w..]);
    T::put_codes(&cc, w, &mut out[1 + 8 * w..]);
    T::put_codes(&cd, w, &mut out[1 + 12 * w..]);
    1 + 16 * w
}
