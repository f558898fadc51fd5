// What the summary says of one chunk: made of its values, put into bytes, and read from them.
ghost use Rattle.std.specs.Prelude.{◌≡◌, true, ◌++◌, ◌+◌, ◌/◌, ◌^◌, ◌≤◌, min, max, length, take, drop};
ghost use Rattle.blocks.specs.Bytes.{Below, number, digits};
ghost use Rattle.stream.specs.Setting.{known_width};
ghost use Rattle.summary.specs.Entry.{nans_in, smallest, largest, entry_length};
ghost use Rattle.summary.specs.Private.{low_rank, high_rank};

use crate::order;
use blocks::bytes;
use words::Word;

#[derive(Clone, Copy, PartialEq, Eq)]
pub(crate) struct Entry {
    pub nans: u64,
    pub smallest: u64,
    pub largest: u64,
}

// What a pass over the values finds: the not-a-numbers, and the lowest and the highest place of the others, in words of the width.
#[derive(Drop)]
struct Ranks<T> {
    nans: T,
    low: T,
    high: T,
}

// The lesser of two places, and the greater: as choices, not jumps. By hand, since a `Word` promises no `Ord` and so has no `min` and `max`.
fn lesser<T: Word>(a: T, b: T) -> T
    ensures { T.value result ≡ min (T.value a) (T.value b) }
{
    if b < a { b } else { a }
}

fn greater<T: Word>(a: T, b: T) -> T
    ensures { T.value result ≡ max (T.value a) (T.value b) }
{
    if a < b { b } else { a }
}

// One pass over the values. A count of 1024 fits in a word of either width, so that all three numbers lie side by side in lanes.
fn ranked<T: Word>(values: &[T]) -> Ranks<T>
    requires { length values.now ≤ 1024 }
    ensures found { (T.value result.nans ≡ nans_in T.width T.fraction (T.values values.now)) × (T.value result.low ≡ low_rank T.width T.fraction (T.values values.now)) × (T.value result.high ≡ high_rank T.width T.fraction (T.values values.now)) }
    ensures patterns { Below (2 ^ T.width) (T.values values.now) }
{
    let mut nans = T::of(0);
    let mut low = T::ALL;
    let mut high = T::of(0);
    for value in values {
        let p = value.bounded();
        if order::not_a_number(p) {
            nans = nans + T::of(1);
        } else {
            let rank = order::rank(p);
            low = lesser(low, rank);
            high = greater(high, rank);
        }
    }
    Ranks { nans, low, high }
}

// The entry of a chunk's values: 0 and 0 where all are not-a-numbers.
pub(crate) fn summed<T: Word>(values: &[T]) -> Entry
    requires { length values.now ≤ 1024 }
    ensures { (result.nans ≡ nans_in T.width T.fraction (T.values values.now)) × (result.smallest ≡ smallest T.width T.fraction (T.values values.now)) × (result.largest ≡ largest T.width T.fraction (T.values values.now)) }
{
    let r = ranked(values);
    let nans = r.nans.wide();
    if nans == values.len() as u64 {
        return Entry {
            nans,
            smallest: 0,
            largest: 0,
        };
    }
    Entry {
        nans,
        smallest: order::pattern(r.low).wide(),
        largest: order::pattern(r.high).wide(),
    }
}

// How many bytes an entry takes.
pub(crate) fn entry_length(width: usize) -> usize
    ensures { result ≡ entry_length width }
{
    4 + 2 * (width / 8)
}

// A pattern's bytes, from `at` on. By the width, which the header says: an entry is that of a stream of either width, and a type would be no plainer.
fn put_pattern(width: usize, out: &mut [u8], at: usize, p: u64)
    requires { (known_width width ≡ true) × (at + width / 8 ≤ length out.old) }
    ensures { out.new ≡ take at out.old ++ digits 256 (width / 8) p ++ drop (at + width / 8) out.old }
{
    if width == 32 {
        bytes::half(out, at, p);
    } else {
        bytes::store(out, at, p);
    }
}

// The bytes of an entry, from `at` on.
pub(crate) fn put_entry(width: usize, e: Entry, out: &mut [u8], at: usize)
    requires { (known_width width ≡ true) × (at + entry_length width ≤ length out.old) }
    ensures { out.new ≡ take at out.old ++ (digits 256 4 e.nans ++ digits 256 (width / 8) e.smallest ++ digits 256 (width / 8) e.largest) ++ drop (at + entry_length width) out.old }
{
    bytes::half(out, at, e.nans);
    put_pattern(width, out, at + 4, e.smallest);
    put_pattern(width, out, at + 4 + width / 8, e.largest);
}

// The pattern that stands from `at` on, by the width as above.
fn pattern_at(width: usize, part: &[u8], at: usize) -> u64
    requires { (known_width width ≡ true) × (at + width / 8 ≤ length part.now) }
    ensures { result ≡ number 256 (take (width / 8) (drop at part.now)) }
{
    if width == 32 {
        bytes::quad(part, at)
    } else {
        bytes::load(part, at)
    }
}

// The entry that stands from `at` on.
pub(crate) fn entry_at(width: usize, part: &[u8], at: usize) -> Entry
    requires { (known_width width ≡ true) × (at + entry_length width ≤ length part.now) }
    ensures { (result.nans ≡ number 256 (take 4 (drop at part.now))) × (result.smallest ≡ number 256 (take (width / 8) (drop (at + 4) part.now))) × (result.largest ≡ number 256 (take (width / 8) (drop (at + 4 + width / 8) part.now))) }
{
    Entry {
        nans: bytes::quad(part, at),
        smallest: pattern_at(width, part, at + 4),
        largest: pattern_at(width, part, at + 4 + width / 8),
    }
}
