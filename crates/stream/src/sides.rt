// One side part of a stream that a check has accepted, for the libraries above this one.
ghost use Rattle.std.specs.Prelude.{◌≡◌, cond, ◌+◌, ◌*◌, ◌≤◌, length};
ghost use Rattle.stream.specs.Access.{has_id, entry_of, side_part};
ghost use Rattle.stream.specs.Relied.{Layout};
ghost use Rattle.stream.specs.Tables.{ids_in};

use crate::answers::SidePart;
use crate::header;
use crate::header::Header;

// The first entry of the side table that has the id.
fn entry_with(h: Header, bytes: &[u8], id: usize) -> Option<usize>
    requires { Layout (length bytes.now) h × (h.end + 12 * h.sides ≤ length bytes.now) }
    ensures { result ≡ cond (has_id id (ids_in h bytes.now)) (Some (entry_of id (ids_in h bytes.now))) None }
{
    for i in 0..h.sides {
        if header::word_at(bytes, h.end + 12 * i) == id {
            return Some(i);
        }
    }
    None
}

pub fn part(bytes: &[u8], id: u32) -> Option<SidePart>
    ensures { result ≡ side_part bytes.now id }
{
    if !header::right(bytes) {
        return None;
    }
    let h = header::header_of(bytes);
    if bytes.len() < h.end + 12 * h.sides {
        return None;
    }
    let i = entry_with(h, bytes, id as usize)?;
    let at = h.end + 12 * i;
    let place = header::word_at(bytes, at + 4);
    let length = header::word_at(bytes, at + 8);
    if bytes.len() < place + length {
        return None;
    }
    Some(SidePart { place, length })
}
