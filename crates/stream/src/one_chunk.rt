// One chunk of a stream that a check has accepted, for the libraries above this one: they read a stream chunk by chunk, with room for one.
ghost use Rattle.std.specs.Prelude.{◌≡◌, ◌≤◌, ◌<◌, length};
ghost use Rattle.stream.specs.Access.{chunk_there, chunk_fits, chunk_read, chunk_out};
ghost use Rattle.stream.specs.Lent.{chosen};
ghost use Rattle.stream.specs.Relied.{Opened};

use crate::header::Header;
use crate::{chunk, chunks, header, restore};

// Whether the header has a chunk j, of the width, that the room suffices for.
fn fits(width: usize, h: Header, j: usize, room: usize) -> bool
    requires { h.chunks ≤ 1024 }
    ensures { result ≡ chunk_fits width h j room }
{
    if h.chunks <= j {
        return false;
    }
    (h.width == width) & (chunks::count_at(h, j) <= room)
}

// Whether the chunk's bytes are there to be read. The rest of refusal 10 is the check's.
fn there(h: Header, bytes: &[u8], j: usize) -> bool
    requires { Opened (length bytes.now) h × (j < h.chunks) }
    ensures { result ≡ chunk_there h bytes.now j }
{
    if !chunks::placed(h, bytes, j) {
        return false;
    }
    let t = header::setting_in(h);
    let part = chunks::chunk_at(h, bytes, j);
    chunk::whole(t, part, chunks::count_at(h, j))
}

// How many values the chunk has, if it is there; they land at the front of the output of the width, which else is as it was.
fn read(
    width: usize,
    bytes: &[u8],
    j: usize,
    room: usize,
    c32: &mut [u32],
    c64: &mut [u64],
    o32: &mut [u32],
    o64: &mut [u64],
) -> Option<usize>
    requires { (room ≡ length (chosen width o32.old o64.old)) × (128 ≤ length (chosen width c32.old c64.old)) }
    ensures value { result ≡ chunk_read width bytes.now j (length (chosen width o32.old o64.old)) }
    ensures o64_after { chosen width o32.new o64.new ≡ chunk_out width bytes.now j (chosen width o32.old o64.old) }
{
    if !header::right(bytes) {
        return None;
    }
    let h = header::header_of(bytes);
    if !fits(width, h, j, room) {
        return None;
    }
    if !there(h, bytes, j) {
        return None;
    }
    restore::restore_chunk(h, bytes, j, 0, c32, c64, o32, o64);
    Some(chunks::count_at(h, j))
}

pub fn values32(bytes: &[u8], j: usize, out: &mut [u32]) -> Option<usize>
    ensures value { result ≡ chunk_read 32 bytes.now j (length out.old) }
    ensures out_after { out.new ≡ chunk_out 32 bytes.now j out.old }
{
    let mut none = [0u64; 0];
    let mut c32 = [0u32; 128];
    let mut c64 = [0u64; 0];
    let room = out.len();
    read(32, bytes, j, room, &mut c32, &mut c64, out, &mut none)
}

pub fn values64(bytes: &[u8], j: usize, out: &mut [u64]) -> Option<usize>
    ensures value { result ≡ chunk_read 64 bytes.now j (length out.old) }
    ensures out_after { out.new ≡ chunk_out 64 bytes.now j out.old }
{
    let mut none = [0u32; 0];
    let mut c32 = [0u32; 0];
    let mut c64 = [0u64; 128];
    let room = out.len();
    read(64, bytes, j, room, &mut c32, &mut c64, &mut none, out)
}
