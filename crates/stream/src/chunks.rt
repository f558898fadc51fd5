// The chunks of a stream whose header and chunk table are right: where each lies, and whether it keeps the rules of refusal 10.
ghost use Rattle.std.specs.Prelude.{◌≡◌, true, ◌∷◌, [], ◌≤◌, ◌<◌, ◌+◌, length, drop};
ghost use Rattle.stream.specs.Setting.{group_size};
ghost use Rattle.stream.specs.Chunk.{groups_in};
ghost use Rattle.stream.specs.Header.{setting_in};
ghost use Rattle.stream.specs.Relied.{Words, Settled, Layout, Placed, Opened};
ghost use Rattle.stream.specs.Tables.{chunk_table_right, start_at};
ghost use Rattle.stream.specs.Stream.{count_of, chunk_of};
ghost use Rattle.stream.specs.Access.{chunk_placed};
ghost use Rattle.stream.specs.Rows.{first};
ghost use Rattle.stream.specs.Operations.{chunk_row, chunk_rows, content_rows, own_rows};

use crate::answers::Refusal;
use crate::header::Header;
use crate::{chunk, header, setting, tables};

// The bytes of a chunk.
pub(crate) fn chunk_at(h: Header, bytes: &[u8], j: usize) -> &[u8]
    requires { Layout (length bytes.now) h × Placed h bytes.now j × (j < h.chunks) }
    ensures { result.now ≡ chunk_of h bytes.now j }
{
    let from = h.start + tables::start_at(h, bytes, j);
    let to = h.start + tables::start_at(h, bytes, j + 1);
    &bytes[from..to]
}

// The bytes from a chunk on, to the stream's end.
pub(crate) fn chunk_on(h: Header, bytes: &[u8], j: usize) -> &[u8]
    requires { Layout (length bytes.now) h × Placed h bytes.now j × (j < h.chunks) }
    ensures { result.now ≡ drop (h.start + start_at h bytes.now j) bytes.now }
{
    let from = h.start + tables::start_at(h, bytes, j);
    &bytes[from..]
}

// How many values a chunk has: 1,024, or what is left for the last one.
pub(crate) fn count_at(h: Header, j: usize) -> usize
    requires { j ≤ 1024 }
    ensures { (result ≡ count_of h j) × (result ≤ 1024) }
{
    h.count.saturating_sub(1024 * j).min(1024)
}

// Whether the bytes of a chunk lie within the data.
pub(crate) fn placed(h: Header, bytes: &[u8], j: usize) -> bool
    requires { Layout (length bytes.now) h × (j < h.chunks) }
    ensures { result ≡ chunk_placed h bytes.now j }
{
    let from = tables::start_at(h, bytes, j);
    let to = tables::start_at(h, bytes, j + 1);
    (from < to) & (to <= h.end - h.start)
}

// How many groups a chunk is cut into.
pub(crate) fn groups_at(h: Header, j: usize) -> usize
    requires { Words h × Settled h × (j ≤ 1024) }
    ensures { (result ≡ groups_in (group_size (setting_in h)) (count_of h j)) × (result ≤ 1024) }
{
    let size = setting::group_size(header::setting_in(h));
    count_at(h, j).div_ceil(size)
}

// 10, for one chunk. The detail names the chunk and its first bad group.
pub(crate) fn chunk_step(h: Header, bytes: &[u8], j: usize) -> Result<(), Refusal>
    requires { Opened (length bytes.now) h × (chunk_table_right h bytes.now ≡ true) × (j < h.chunks) }
    ensures { result ≡ first (chunk_row h bytes.now j ∷ []) }
{
    let t = header::setting_in(h);
    let part = chunk_at(h, bytes, j);
    let found = chunk::checked(t, part, count_at(h, j));
    match found {
        Ok(()) => Ok(()),
        Err(group) => Err(Refusal::BrokenChunk(j * 32 + group)),
    }
}

// 10, for every chunk in turn.
fn chunk_steps(h: Header, bytes: &[u8]) -> Result<(), Refusal>
    requires { Opened (length bytes.now) h × (chunk_table_right h bytes.now ≡ true) }
    ensures { result ≡ first (chunk_rows h bytes.now) }
{
    for j in 0..h.chunks {
        chunk_step(h, bytes, j)?;
    }
    Ok(())
}

// 9 8 15 10: the tables, then every chunk.
pub(crate) fn content_step(h: Header, bytes: &[u8]) -> Result<(), Refusal>
    requires { Opened (length bytes.now) h }
    ensures { result ≡ first (content_rows h bytes.now) }
{
    tables::table_step(h, bytes)?;
    chunk_steps(h, bytes)
}

// 9 8 15 10 for probe: the tables, then the chunk of one value.
pub(crate) fn own_step(h: Header, bytes: &[u8], index: usize) -> Result<(), Refusal>
    requires { Opened (length bytes.now) h × (index < h.count) }
    ensures { result ≡ first (own_rows h bytes.now index) }
{
    tables::table_step(h, bytes)?;
    chunk_step(h, bytes, index / 1024)
}
