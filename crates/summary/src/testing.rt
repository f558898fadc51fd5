// "one tests it against the values"
ghost use Rattle.std.specs.Prelude.{◌≡◌, ◌+◌, ◌*◌, ◌≤◌, length, take, drop};
ghost use Rattle.stream.specs.Lent.{chosen};
ghost use Rattle.summary.specs.Entry.{entry_length};
ghost use Rattle.summary.specs.Summary.{same, summary_in, summary_true};
ghost use Rattle.summary.specs.Operations.{test_answer};
ghost use Rattle.summary.specs.Private.{Accepted};

use crate::{chunks, entry};
use stream::answers::{Answer, Refusal};
use stream::header::Header;
use stream::{reading, sides};

// "Side part 1"
pub(crate) const SUMMARY_ID: u32 = 1;

// Whether each chunk's entry in a part of the right length is that of its values. Not by `.all(..)`: its closure would change the scratch, and of such a closure
// a proof knows nothing.
fn entries_right(h: Header, bytes: &[u8], part: &[u8], v32: &mut [u32], v64: &mut [u64]) -> bool
    requires { Accepted h bytes.now × (1024 ≤ length (chosen h.width v32.old v64.old)) × (length part.now ≡ h.chunks * entry_length h.width) }
    ensures { result ≡ same part.now (summary_in h bytes.now) }
{
    let size = entry::entry_length(h.width);
    for j in 0..h.chunks {
        let e = chunks::entry_of(h, bytes, j, v32, v64);
        let stated = entry::entry_at(h.width, part, j * size);
        if e != stated {
            return false;
        }
    }
    true
}

// Whether a part is the summary: "any other length is false". The scratch is a chunk of the width.
fn part_right(h: Header, bytes: &[u8], part: &[u8]) -> bool
    requires { Accepted h bytes.now }
    ensures { result ≡ same part.now (summary_in h bytes.now) }
{
    if part.len() != h.chunks * entry::entry_length(h.width) {
        return false;
    }
    if h.width == 32 {
        let mut v32 = [0u32; 1024];
        let mut v64 = [0u64; 0];
        return entries_right(h, bytes, part, &mut v32, &mut v64);
    }
    let mut v32 = [0u32; 0];
    let mut v64 = [0u64; 1024];
    entries_right(h, bytes, part, &mut v32, &mut v64)
}

// Whether the stream has a summary, and a true one.
pub(crate) fn summary_true(h: Header, bytes: &[u8]) -> bool
    requires { Accepted h bytes.now }
    ensures { result ≡ summary_true bytes.now }
{
    match sides::part(bytes, SUMMARY_ID) {
        Some(part) => part_right(h, bytes, &bytes[part.place..part.place + part.length]),
        None => false,
    }
}

pub fn test_summary(level: u32, bytes: &[u8]) -> Answer
    ensures { result ≡ test_answer level bytes.now }
{
    let h = reading::check_opening(level as usize, bytes)?;
    if summary_true(h, bytes) {
        return Ok(h.count);
    }
    Err(Refusal::NoTrueSummary)
}
