// The entry of one chunk of a stream that a check has accepted, made of its values.
ghost use Rattle.std.specs.Prelude.{◌≡◌, ◌≤◌, ◌<◌, length};
ghost use Rattle.stream.specs.Setting.{fraction_bits};
ghost use Rattle.stream.specs.Stream.{chunk_values};
ghost use Rattle.stream.specs.Lent.{chosen};
ghost use Rattle.summary.specs.Private.{Accepted, entry_says};

use crate::entry;
use crate::entry::Entry;
use stream::header::Header;
use stream::one_chunk;

// The entry of chunk j. Its values, which an accepted stream has, go through the scratch of the width, which has room for a chunk.
pub(crate) fn entry_of(h: Header, bytes: &[u8], j: usize, v32: &mut [u32], v64: &mut [u64]) -> Entry
    requires { Accepted h bytes.now × (j < h.chunks) × (1024 ≤ length (chosen h.width v32.old v64.old)) }
    ensures { entry_says result h.width (fraction_bits h.width) (chunk_values h bytes.now j) }
{
    if h.width == 32 {
        let n = one_chunk::values32(bytes, j, v32).unwrap();
        return entry::summed(&v32[..n]);
    }
    let n = one_chunk::values64(bytes, j, v64).unwrap();
    entry::summed(&v64[..n])
}
