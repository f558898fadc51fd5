// "One operation copies a stream without side parts into another buffer and adds it".
ghost use Rattle.std.specs.Prelude.{◌≡◌, ◌++◌, ◌∷◌, [], ◌+◌, ◌*◌, ◌≤◌, length, drop};
ghost use Rattle.stream.specs.Rows.{first, answer, after};
ghost use Rattle.stream.specs.Lent.{chosen};
ghost use Rattle.summary.specs.Entry.{entry_length};
ghost use Rattle.summary.specs.Summary.{summary_in, with_summary};
ghost use Rattle.summary.specs.Operations.{sides_row, room_for, add_answer, add_out};
ghost use Rattle.summary.specs.Private.{Accepted};

use crate::{chunks, entry};
use blocks::bytes as fields;
use stream::answers::{Answer, Refusal};
use stream::header::Header;
use stream::reading;

// The bytes, at the front of `out`. By hand, since `copy_from_slice` of so many bytes calls `memmove`, and the archives ask for `memcpy` and `memset` alone.
fn copied(bytes: &[u8], out: &mut [u8])
    requires { length bytes.now ≤ length out.old }
    ensures { out.new ≡ bytes.now ++ drop (length bytes.now) out.old }
{
    for i in 0..bytes.len() {
        out[i] = bytes[i];
    }
}

// The entries of all chunks in order, at the front of `out`.
fn put_entries(h: Header, bytes: &[u8], v32: &mut [u32], v64: &mut [u64], out: &mut [u8])
    requires { Accepted h bytes.now × (1024 ≤ length (chosen h.width v32.old v64.old)) × (h.chunks * entry_length h.width ≤ length out.old) }
    ensures { out.new ≡ summary_in h bytes.now ++ drop (h.chunks * entry_length h.width) out.old }
{
    let size = entry::entry_length(h.width);
    for j in 0..h.chunks {
        let e = chunks::entry_of(h, bytes, j, v32, v64);
        entry::put_entry(h.width, e, out, j * size);
    }
}

// The summary at the front of `out`. The scratch is a chunk of the width: which of the two arrays is the long one is known as the program runs.
fn put_summary(h: Header, bytes: &[u8], out: &mut [u8])
    requires { Accepted h bytes.now × (h.chunks * entry_length h.width ≤ length out.old) }
    ensures { out.new ≡ summary_in h bytes.now ++ drop (h.chunks * entry_length h.width) out.old }
{
    if h.width == 32 {
        let mut v32 = [0u32; 1024];
        let mut v64 = [0u64; 0];
        put_entries(h, bytes, &mut v32, &mut v64, out);
    } else {
        let mut v32 = [0u32; 0];
        let mut v64 = [0u64; 1024];
        put_entries(h, bytes, &mut v32, &mut v64, out);
    }
}

// The copy with its summary, at the front of `out`: s in the header is 1, and behind the data stand the entry (id, place, length) and the part.
fn put_copy(h: Header, bytes: &[u8], out: &mut [u8])
    requires { Accepted h bytes.now × (length bytes.now + 12 + h.chunks * entry_length h.width ≤ length out.old) }
    ensures { out.new ≡ with_summary bytes.now ++ drop (length (with_summary bytes.now)) out.old }
{
    let end = bytes.len();
    let part = h.chunks * entry::entry_length(h.width);
    copied(bytes, out);
    fields::half(out, 40, 1);
    fields::half(out, end, 1);
    fields::half(out, end + 4, (end + 12) as u64);
    fields::half(out, end + 8, part as u64);
    put_summary(h, bytes, &mut out[end + 12..]);
}

// 16 4, and then the copy.
fn added(h: Header, bytes: &[u8], out: &mut [u8]) -> Answer
    requires { Accepted h bytes.now }
    ensures value { result ≡ answer (first (sides_row bytes.now ∷ room_for (length out.old) (with_summary bytes.now) ∷ [])) (length (with_summary bytes.now)) }
    ensures out_after { out.new ≡ after (first (sides_row bytes.now ∷ room_for (length out.old) (with_summary bytes.now) ∷ [])) (with_summary bytes.now ++ drop (length (with_summary bytes.now)) out.old) out.old }
{
    if 0 < h.sides {
        return Err(Refusal::HasSideParts);
    }
    let size = bytes.len() + 12 + h.chunks * entry::entry_length(h.width);
    if out.len() < size {
        return Err(Refusal::NoRoom(size));
    }
    put_copy(h, bytes, out);
    Ok(size)
}

pub fn add_summary(level: u32, bytes: &[u8], out: &mut [u8]) -> Answer
    ensures value { result ≡ add_answer level bytes.now (length out.old) }
    ensures out_after { out.new ≡ add_out level bytes.now out.old }
{
    let h = reading::check_opening(level as usize, bytes)?;
    added(h, bytes, out)
}
