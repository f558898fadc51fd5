// The chunk table and the side table: refusal 9, and what the side table's ids say: 8 and 15. Places are added as usize, so a sum that passes 2^32 stays what it is.
ghost use Rattle.std.specs.Prelude.{◌≡◌, ◌+◌, ◌*◌, ◌≤◌, length};
ghost use Rattle.stream.specs.Relied.{Layout, Opened};
ghost use Rattle.stream.specs.Rows.{first};
ghost use Rattle.stream.specs.Operations.{side_rows, table_rows};
ghost use Rattle.stream.specs.Tables.{start_at, chunk_table_right, side_table_right, ids_in, first_high};

use crate::answers::Refusal;
use crate::header::Header;
use crate::{header, setting};

// "Ids from 2^31 up"
const FIRST_HIGH_ID: usize = 0x8000_0000;

// A chunk's start, counted from the data. Behind the last chunk's start stands the data's length.
pub(crate) fn start_at(h: Header, bytes: &[u8], j: usize) -> usize
    requires { Layout (length bytes.now) h }
    ensures { result ≡ start_at h bytes.now j }
{
    if j < h.chunks {
        return header::word_at(bytes, 48 + 4 * j);
    }
    h.end - h.start
}

fn chunk_table_right(h: Header, bytes: &[u8]) -> bool
    requires { Layout (length bytes.now) h }
    ensures { result ≡ chunk_table_right h bytes.now }
{
    let mut last = start_at(h, bytes, 0);
    if last != 0 {
        return false;
    }
    for j in 0..h.chunks {
        let next = start_at(h, bytes, j + 1);
        if next <= last {
            return false;
        }
        last = next;
    }
    true
}

// `floor` is the least id that the next entry may have, and `place` where its part has to start.
fn side_table_right(h: Header, bytes: &[u8]) -> bool
    requires { Layout (length bytes.now) h }
    ensures { result ≡ side_table_right h bytes.now }
{
    let mut place = h.end + 12 * h.sides;
    if bytes.len() < place {
        return false;
    }
    let mut floor: usize = 0;
    for i in 0..h.sides {
        let at = h.end + 12 * i;
        let id = header::word_at(bytes, at);
        if id < floor {
            return false;
        }
        if header::word_at(bytes, at + 4) != place {
            return false;
        }
        place += header::word_at(bytes, at + 8);
        floor = id + 1;
    }
    place == bytes.len()
}

// The first high id, or 0 where none is high.
fn first_high(h: Header, bytes: &[u8]) -> usize
    requires { Layout (length bytes.now) h × (h.end + 12 * h.sides ≤ length bytes.now) }
    ensures { result ≡ first_high (ids_in h bytes.now) }
{
    for i in 0..h.sides {
        let id = header::word_at(bytes, h.end + 12 * i);
        if FIRST_HIGH_ID <= id {
            return id;
        }
    }
    0
}

// 8 15: only the ids tell what the need has to be. No high id is defined yet, so there is none that a reader understands.
fn side_step(h: Header, bytes: &[u8]) -> Result<(), Refusal>
    requires { Opened (length bytes.now) h × (h.end + 12 * h.sides ≤ length bytes.now) }
    ensures { result ≡ first (side_rows h (ids_in h bytes.now)) }
{
    let id = first_high(h, bytes);
    let high = FIRST_HIGH_ID <= id;
    if h.needed != setting::stream_need(header::setting_in(h), high) {
        return Err(Refusal::BrokenHeader);
    }
    if high {
        return Err(Refusal::MustBeUnderstood(id));
    }
    Ok(())
}

// 9 8 15
pub(crate) fn table_step(h: Header, bytes: &[u8]) -> Result<(), Refusal>
    requires { Opened (length bytes.now) h }
    ensures { result ≡ first (table_rows h bytes.now) }
{
    if chunk_table_right(h, bytes) & side_table_right(h, bytes) {
        return side_step(h, bytes);
    }
    Err(Refusal::BrokenTable)
}
