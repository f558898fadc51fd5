// Blocks read: up to 32 codes of a group whose bytes are there.
ghost use Rattle.std.specs.Prelude.{◌≡◌, ◌+◌, ◌*◌, ◌/◌, ◌≤◌, ◌<◌, length, take};
ghost use Rattle.blocks.specs.Bytes.{number};
ghost use Rattle.stream.specs.Group.{bytes_for};
ghost use Rattle.stream.specs.Block.{block_codes};

use crate::group::Group;
use blocks::bytes;

// The codes of a block, where the bytes go on far enough for the loads of every code: one test for the block, and none for each code.
fn opened(s: &[u8], n: usize, w: usize) -> Group<u64>
    requires { (n ≤ 32) × (1 ≤ w) × (w ≤ 64) × (w * n / 8 + 10 ≤ length s.now) }
    ensures { (result.count ≡ n) × (take n result.codes ≡ block_codes w n s.now) }
{
    let mut codes = [0u64; 32];
    for i in 0..n {
        codes[i] = bytes::code_at(s, 8 + i * w, w);
    }
    Group { count: n, codes }
}

// The same bytes with zeros behind, 272 in all: as many as the widest block and the loads past its end need.
fn padded(s: &[u8]) -> [u8; 272]
    requires { length s.now ≤ 272 }
    ensures { number 256 result ≡ number 256 s.now }
{
    let mut room = [0u8; 272];
    room[..s.len()].copy_from_slice(s);
    room
}

// The codes of a block whose bytes are all there. Only the last blocks of the bytes are near enough to their end to be copied first.
pub(crate) fn codes_of(s: &[u8], w: usize, n: usize) -> Group<u64>
    requires { (n ≤ 32) × (w ≤ 64) × (bytes_for w n < length s.now) }
    ensures { (result.count ≡ n) × (take n result.codes ≡ block_codes w n s.now) }
{
    if w == 0 {
        return Group {
            count: n,
            codes: [0u64; 32],
        };
    }
    if w * n / 8 + 10 <= s.len() {
        return opened(s, n, w);
    }
    let room = padded(s);
    opened(&room, n, w)
}
