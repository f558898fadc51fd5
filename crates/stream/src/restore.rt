// The values of a stream that was accepted: each chunk's land in their own stretch of the lent output.
ghost use Rattle.std.specs.Prelude.{◌≡◌, Ok, true, ◌++◌, ◌*◌, ◌+◌, ◌/◌, ◌≤◌, ◌<◌, length, drop};
ghost use Rattle.stream.specs.Setting.{group_size};
ghost use Rattle.stream.specs.Chunk.{good, whole_chunk};
ghost use Rattle.stream.specs.Header.{setting_in};
ghost use Rattle.stream.specs.Lent.{chosen, landed};
ghost use Rattle.stream.specs.Stream.{count_of, chunk_of, chunk_state, chunk_values, values_in, value_in};
ghost use Rattle.stream.specs.Rows.{first};
ghost use Rattle.stream.specs.Operations.{chunk_rows};
ghost use Rattle.stream.specs.Relied.{Placed, Opened, Readable};

use crate::header::Header;
use crate::{chunk, chunks, header, lent};

// The values of chunk j from a place on: in the part of each output from there on, or from its end.
pub(crate) fn restore_chunk(
    h: Header,
    bytes: &[u8],
    j: usize,
    place: usize,
    c32: &mut [u32],
    c64: &mut [u64],
    o32: &mut [u32],
    o64: &mut [u64],
)
    requires opened { Opened (length bytes.now) h × (j < h.chunks) × Placed h bytes.now j × (whole_chunk h.width (group_size (setting_in h)) (count_of h j) (chunk_of h bytes.now j) ≡ true) }
    requires place_bound { (place ≤ 1048576) × (place + count_of h j ≤ length (chosen h.width o32.old o64.old)) × (128 ≤ length (chosen h.width c32.old c64.old)) }
    ensures { chosen h.width o32.new o64.new ≡ landed place (chunk_values h bytes.now j) (chosen h.width o32.old o64.old) }
{
    let t = header::setting_in(h);
    let n = chunks::count_at(h, j);
    let part = chunks::chunk_on(h, bytes, j);
    let a32 = usize::min(place, o32.len());
    let a64 = usize::min(place, o64.len());
    chunk::restored(t, part, n, c32, c64, &mut o32[a32..], &mut o64[a64..]);
}

// Each chunk's values into its own stretch: that from 1,024 times the chunk's number on.
pub(crate) fn restore(
    h: Header,
    bytes: &[u8],
    c32: &mut [u32],
    c64: &mut [u64],
    o32: &mut [u32],
    o64: &mut [u64],
)
    requires { Readable h.width h bytes.now × (first (chunk_rows h bytes.now) ≡ Ok tt) × (h.count ≤ length (chosen h.width o32.old o64.old)) × (128 ≤ length (chosen h.width c32.old c64.old)) }
    ensures { chosen h.width o32.new o64.new ≡ values_in h bytes.now ++ drop h.count (chosen h.width o32.old o64.old) }
{
    for j in 0..h.chunks {
        restore_chunk(h, bytes, j, 1024 * j, c32, c64, o32, o64);
    }
}

// One value, by its index, from its own chunk.
pub(crate) fn value_at(h: Header, bytes: &[u8], i: usize) -> u64
    requires { Readable h.width h bytes.now × (i < h.count) × (chunk_state h bytes.now (i / 1024) ≡ good) }
    ensures { result ≡ value_in h bytes.now i }
{
    let j = i / 1024;
    let t = header::setting_in(h);
    let part = chunks::chunk_at(h, bytes, j);
    chunk::value(t, part, chunks::count_at(h, j), i % 1024)
}
