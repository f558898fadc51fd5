// "one, per width, lists for a pattern x the chunks that hold some value at least x". The summary is tested first, which reads every chunk; the chunks are then
// named by the summary alone.
ghost use Rattle.std.specs.Prelude.{◌≡◌, true, ◌++◌, ◌∷◌, [], ◌^◌, ◌≤◌, ◌<◌, length, drop};
ghost use Rattle.stream.specs.Rows.{first, answer, after};
ghost use Rattle.stream.specs.Stream.{count_of};
ghost use Rattle.summary.specs.Summary.{summary_true, holds_in, chunks_from};
ghost use Rattle.summary.specs.Operations.{summary_row, room_for, list_answer, list_out};
ghost use Rattle.summary.specs.Private.{Accepted, Summarised, Comparable, ListOpened};

use crate::{entry, order, testing};
use stream::answers::{Answer, Refusal};
use stream::header::Header;
use stream::{header, reading, setting, sides};
use words::Word;

// How many values chunk j has.
fn count_of(h: Header, j: usize) -> usize
    requires { j ≤ 1024 }
    ensures { result ≡ count_of h j }
{
    h.count.saturating_sub(1024 * j).min(1024)
}

// Whether chunk j holds some value at least x: it has a number, and the largest of them does not stand before x.
fn holds_at<T: Word>(h: Header, bytes: &[u8], place: usize, x: T, j: usize) -> bool
    requires { Summarised h bytes.now place × Comparable h (T.value x) × (h.width ≡ T.width) × (j < h.chunks) }
    ensures { result ≡ holds_in (T.value x) h bytes.now j }
{
    let e = entry::entry_at(h.width, bytes, place + j * entry::entry_length(h.width));
    (e.nans < count_of(h, j) as u64) & (order::floor_rank(x) <= order::rank(T::narrow(e.largest)))
}

// How many chunks are listed.
fn count_listed<T: Word>(h: Header, bytes: &[u8], place: usize, x: T) -> usize
    requires { Summarised h bytes.now place × Comparable h (T.value x) × (h.width ≡ T.width) }
    ensures { result ≡ length (chunks_from (T.value x) bytes.now) }
{
    // Tried as a filtered range with `count()`: the proof did not close, since the test may be asked of the chunks there are alone.
    let mut n: usize = 0;
    for j in 0..h.chunks {
        if holds_at(h, bytes, place, x, j) {
            n += 1;
        }
    }
    n
}

// Their numbers, at the front of `out`.
fn put_listed<T: Word>(h: Header, bytes: &[u8], place: usize, x: T, out: &mut [u32])
    requires { Summarised h bytes.now place × Comparable h (T.value x) × (h.width ≡ T.width) × (length (chunks_from (T.value x) bytes.now) ≤ length out.old) }
    ensures { out.new ≡ chunks_from (T.value x) bytes.now ++ drop (length (chunks_from (T.value x) bytes.now)) out.old }
{
    let mut n: usize = 0;
    for j in 0..h.chunks {
        if holds_at(h, bytes, place, x, j) {
            out[n] = j as u32;
            n += 1;
        }
    }
}

// Where the summary lies, in a stream that has one.
fn summary_place(h: Header, bytes: &[u8]) -> usize
    requires { Accepted h bytes.now × (summary_true bytes.now ≡ true) }
    ensures { Summarised h bytes.now result }
{
    sides::part(bytes, testing::SUMMARY_ID).unwrap().place
}

// 17 4, and then the list.
fn listed<T: Word>(h: Header, x: T, bytes: &[u8], out: &mut [u32]) -> Answer
    requires { Accepted h bytes.now × Comparable h (T.value x) × (h.width ≡ T.width) }
    ensures value { result ≡ answer (first (summary_row bytes.now ∷ room_for (length out.old) (chunks_from (T.value x) bytes.now) ∷ [])) (length (chunks_from (T.value x) bytes.now)) }
    ensures out_after { out.new ≡ after (first (summary_row bytes.now ∷ room_for (length out.old) (chunks_from (T.value x) bytes.now) ∷ [])) (chunks_from (T.value x) bytes.now ++ drop (length (chunks_from (T.value x) bytes.now)) out.old) out.old }
{
    if !testing::summary_true(h, bytes) {
        return Err(Refusal::NoTrueSummary);
    }
    let place = summary_place(h, bytes);
    let n = count_listed(h, bytes, place, x);
    if out.len() < n {
        return Err(Refusal::NoRoom(n));
    }
    put_listed(h, bytes, place, x, out);
    Ok(n)
}

// 9 8 15 10 17 4, of a stream whose header is accepted and has the width.
fn list_checked<T: Word>(level: usize, x: T, bytes: &[u8], out: &mut [u32]) -> Answer
    requires { (T.value x < 2 ^ T.width) × ListOpened T.width level (T.value x) bytes.now }
    ensures value { result ≡ list_answer T.width level (T.value x) bytes.now (length out.old) }
    ensures out_after { out.new ≡ list_out T.width level (T.value x) bytes.now out.old }
{
    let h = reading::check_opening(level, bytes)?;
    listed(h, x, bytes, out)
}

// W, as the header has it.
#[tactic(auto, using(crate::proofs::Law::Order::all_size))]
fn width<T: Word>() -> usize
    ensures { result ≡ T.width }
{
    T::ALL.bit_length()
}

// 1 2 5 6 7 8 14, and then the others.
fn list<T: Word>(level: usize, x: T, bytes: &[u8], out: &mut [u32]) -> Answer
    requires { T.value x < 2 ^ T.width }
    ensures value { result ≡ list_answer T.width level (T.value x) bytes.now (length out.old) }
    ensures out_after { out.new ≡ list_out T.width level (T.value x) bytes.now out.old }
{
    if !setting::known_level(level) {
        return Err(Refusal::UnknownLevel);
    }
    if order::not_a_number(x) {
        return Err(Refusal::NotAllowed);
    }
    let h = header::opened(level, bytes)?;
    if h.width != width::<T>() {
        return Err(Refusal::OtherWidth);
    }
    list_checked(level, x, bytes, out)
}

pub fn chunks_from<T: Word>(level: u32, x: T, bytes: &[u8], out: &mut [u32]) -> Answer
    ensures value { result ≡ list_answer T.width level (T.value x) bytes.now (length out.old) }
    ensures out_after { out.new ≡ list_out T.width level (T.value x) bytes.now out.old }
{
    list(level as usize, x.bounded(), bytes, out)
}
