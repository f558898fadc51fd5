// Packing: the stream of a list of values, and its length.
ghost use Rattle.std.specs.Prelude.{◌≡◌, true, List, [], ◌∷◌, ◌++◌, ℕ, ◌+◌, ◌-◌, ◌*◌, ◌≤◌, ◌<◌, min, length, take, drop, get_or, replicate};
ghost use Rattle.blocks.specs.Bytes.{digits};
ghost use Rattle.stream.specs.Setting.{known_width};
ghost use Rattle.stream.specs.Lent.{chosen};
ghost use Rattle.stream.specs.Relied.{Allowed};
ghost use Rattle.stream.specs.Header.{chunks_in};
ghost use Rattle.stream.specs.Rows.{first};
ghost use Rattle.stream.specs.Writing.{spell, piece, data_of, header_numbers, end_of, stream, unfinished};
ghost use Rattle.stream.specs.Packing.{most_bytes, short_row};
ghost use Rattle.stream.specs.Operations.{length_rows, length_answer, pack_answer, pack_out};

use crate::answers::{Answer, Refusal};
use crate::setting::Setting;
use crate::{chunk, lent, setting};
use blocks::bytes;

// 1 2 3: what is refused before a value is looked at.
fn length_step(
    width: usize,
    level: usize,
    mode: usize,
    k: i32,
    size: usize,
    n: usize,
) -> Result<(), Refusal>
    requires { known_width width ≡ true }
    ensures { result ≡ first (length_rows width level mode k size n) }
{
    if !setting::known_level(level) {
        return Err(Refusal::UnknownLevel);
    }
    if !setting::allowed(width, mode, k, size) {
        return Err(Refusal::NotAllowed);
    }
    if level < setting::need_of(setting::setting_of(width, mode, k, size)) {
        return Err(Refusal::NotAllowed);
    }
    if 1048576 < n {
        return Err(Refusal::TooManyValues);
    }
    Ok(())
}

// "chunk count c = n/1024 rounded up"
fn chunks_of(n: usize) -> usize
    requires { n ≤ 1048576 }
    ensures { (result ≡ chunks_in n) × (result ≤ 1024) }
{
    n.div_ceil(1024)
}

// The longest that a stream of n values gets.
fn most(t: Setting, n: usize) -> usize
    requires { Allowed t × (n ≤ 1048576) }
    ensures { result ≡ most_bytes t n }
{
    let size = setting::group_size(t);
    48 + 4 * chunks_of(n) + n.div_ceil(size) + n * (t.width as usize) / 8
}

// A number in 4 bytes, lowest first.
fn put_word(out: &mut [u8], at: usize, n: u32)
    requires { at + 4 ≤ length out.old }
    ensures { out.new ≡ take at out.old ++ digits 256 4 n ++ drop (at + 4) out.old }
{
    bytes::half(out, at, n as u64);
}

// The number i of a list that goes on with zeros.
fn number_at(numbers: &[u32], i: usize) -> u32
    ensures { result ≡ get_or numbers.now i 0 }
{
    numbers.get(i).copied().unwrap_or(0)
}

// The numbers and then zeros, `count` in all, in 4 bytes each.
fn put_numbers(numbers: &[u32], count: usize, out: &mut [u8])
    requires { (length numbers.now ≤ count) × (4 * count ≤ length out.old) }
    ensures { out.new ≡ spell (numbers.now ++ replicate (count - length numbers.now) 0) ++ drop (4 * count) out.old }
{
    for i in 0..count {
        put_word(out, 4 * i, number_at(numbers, i));
    }
}

// Header and chunk table, as they stand before the first chunk is written: the starts and the end of data are not known yet.
fn put_front(level: u32, t: Setting, n: usize, out: &mut [u8])
    requires { Allowed t × (n ≤ 1048576) × (48 + 4 * chunks_in n ≤ length out.old) }
    ensures { out.new ≡ spell (header_numbers level t n 0 0 ++ replicate (chunks_in n) 0) ++ drop (48 + 4 * chunks_in n) out.old }
{
    let chunks = chunks_of(n);
    let needed = setting::need_of(t);
    let numbers: [u32; 12] = [
        1,
        level,
        needed as u32,
        t.width,
        setting::mode_number(t),
        setting::k_bits(t),
        n as u32,
        chunks as u32,
        48,
        (48 + 4 * chunks) as u32,
        0,
        0,
    ];
    put_numbers(&numbers, 12 + chunks, out);
}

// The values of chunk j, of a list that may be too short to have it.
fn part32(values: &[u32], j: usize) -> &[u32]
    requires { j ≤ 1024 }
    ensures { result.now ≡ piece values.now j }
{
    let from = usize::min(1024 * j, values.len());
    let to = usize::min(from + 1024, values.len());
    &values[from..to]
}

fn part64(values: &[u64], j: usize) -> &[u64]
    requires { j ≤ 1024 }
    ensures { result.now ≡ piece values.now j }
{
    let from = usize::min(1024 * j, values.len());
    let to = usize::min(from + 1024, values.len());
    &values[from..to]
}

// The measuring pass: how long the stream is.
fn measured(t: Setting, v32: &[u32], v64: &[u64], c32: &mut [u32], n: usize) -> usize
    requires { Allowed t × (n ≡ length (chosen t.width v32.now v64.now)) × (n ≤ 1048576) × (min 1024 (length v32.now) ≤ length c32.old) }
    ensures { result ≡ end_of t (chosen t.width v32.now v64.now) (chunks_in (length (chosen t.width v32.now v64.now))) }
{
    let chunks = chunks_of(n);
    let mut end = 48 + 4 * chunks;
    for j in 0..chunks {
        end += chunk::measured(t, part32(v32, j), part64(v64, j), c32);
    }
    end
}

// 4. An output as long as the longest stream of so many values needs no measuring pass.
fn room_step(
    t: Setting,
    v32: &[u32],
    v64: &[u64],
    c32: &mut [u32],
    n: usize,
    room: usize,
) -> Result<(), Refusal>
    requires { Allowed t × (n ≡ length (chosen t.width v32.now v64.now)) × (n ≤ 1048576) × (min 1024 (length v32.now) ≤ length c32.old) }
    ensures { result ≡ first (short_row t (chosen t.width v32.now v64.now) room ∷ []) }
{
    if most(t, n) <= room {
        return Ok(());
    }
    let needed = measured(t, v32, v64, c32, n);
    if room < needed {
        return Err(Refusal::NoRoom(needed));
    }
    Ok(())
}

// Where the first j chunks stand: chunk j, whose start is known, its start into the table and its bytes behind them. The next chunk's start is returned.
fn put_chunk(
    t: Setting,
    v32: &[u32],
    v64: &[u64],
    c32: &mut [u32],
    j: usize,
    start: usize,
    out: &mut [u8],
) -> usize
    requires allowed { Allowed t × (length (chosen t.width v32.now v64.now) ≤ 1048576) × (j < chunks_in (length (chosen t.width v32.now v64.now))) × (min 1024 (length v32.now) ≤ length c32.old) }
    requires start_value { (start ≡ length (data_of t (chosen t.width v32.now v64.now) j)) × (end_of t (chosen t.width v32.now v64.now) (chunks_in (length (chosen t.width v32.now v64.now))) ≤ length out.old) }
    ensures value { result ≡ length (data_of t (chosen t.width v32.now v64.now) (j + 1)) }
    ensures by_index { (level : ℕ) (base : List ℕ) → out.old ≡ unfinished level t (chosen t.width v32.now v64.now) j base
        → out.new ≡ unfinished level t (chosen t.width v32.now v64.now) (j + 1) base }
{
    let at = 48 + 4 * chunks_of(lent::count(t, v32, v64)) + start;
    put_word(out, 48 + 4 * j, start as u32);
    start + chunk::written(t, part32(v32, j), part64(v64, j), c32, &mut out[at..])
}

// The whole stream, into an output that is long enough. The end of data is known last.
fn written(
    level: u32,
    t: Setting,
    v32: &[u32],
    v64: &[u64],
    c32: &mut [u32],
    n: usize,
    out: &mut [u8],
) -> usize
    requires allowed { Allowed t × (n ≡ length (chosen t.width v32.now v64.now)) × (n ≤ 1048576) × (min 1024 (length v32.now) ≤ length c32.old) }
    requires v64_in_bounds { end_of t (chosen t.width v32.now v64.now) (chunks_in (length (chosen t.width v32.now v64.now))) ≤ length out.old }
    ensures value { result ≡ length (stream level t (chosen t.width v32.now v64.now)) }
    ensures out_after { out.new ≡ stream level t (chosen t.width v32.now v64.now) ++ drop result out.old }
{
    let chunks = chunks_of(n);
    put_front(level, t, n, out);
    let mut start: usize = 0;
    for j in 0..chunks {
        start = put_chunk(t, v32, v64, c32, j, start, out);
    }
    let end = 48 + 4 * chunks + start;
    put_word(out, 44, end as u32);
    end
}

// How many bytes pack would use, of a list lent as the one of its width.
fn measured_or_refused(
    width: u32,
    level: u32,
    mode: u32,
    k: i32,
    size: u32,
    v32: &[u32],
    v64: &[u64],
    c32: &mut [u32],
    n: usize,
) -> Answer
    requires { (known_width width ≡ true) × (n ≡ length (chosen width v32.now v64.now)) × (min 1024 (length v32.now) ≤ length c32.old) }
    ensures { result ≡ length_answer width level mode k size (chosen width v32.now v64.now) }
{
    length_step(
        width as usize,
        level as usize,
        mode as usize,
        k,
        size as usize,
        n,
    )?;
    let t = setting::setting_at(level, width as usize, mode as usize, k, size as usize);
    Ok(measured(t, v32, v64, c32, n))
}

// The packed stream at the front of `out`; on a refusal the output is as it was.
fn packed_or_refused(
    width: u32,
    level: u32,
    mode: u32,
    k: i32,
    size: u32,
    v32: &[u32],
    v64: &[u64],
    c32: &mut [u32],
    n: usize,
    out: &mut [u8],
) -> Answer
    requires { (known_width width ≡ true) × (n ≡ length (chosen width v32.now v64.now)) × (min 1024 (length v32.now) ≤ length c32.old) }
    ensures value { result ≡ pack_answer width level mode k size (chosen width v32.now v64.now) (length out.old) }
    ensures out_after { out.new ≡ pack_out width level mode k size (chosen width v32.now v64.now) out.old }
{
    length_step(
        width as usize,
        level as usize,
        mode as usize,
        k,
        size as usize,
        n,
    )?;
    let t = setting::setting_at(level, width as usize, mode as usize, k, size as usize);
    room_step(t, v32, v64, c32, n, out.len())?;
    Ok(written(level, t, v32, v64, c32, n, out))
}

// How many bytes pack would use.
pub fn length32(level: u32, mode: u32, k: i32, size: u32, values: &[u32]) -> Answer
    ensures { result ≡ length_answer 32 level mode k size values.now }
{
    let none = [0u64; 0];
    let mut c32 = [0u32; 1024];
    measured_or_refused(
        32,
        level,
        mode,
        k,
        size,
        values,
        &none,
        &mut c32,
        values.len(),
    )
}

pub fn length64(level: u32, mode: u32, k: i32, size: u32, values: &[u64]) -> Answer
    ensures { result ≡ length_answer 64 level mode k size values.now }
{
    let none = [0u32; 0];
    let mut c32 = [0u32; 0];
    measured_or_refused(
        64,
        level,
        mode,
        k,
        size,
        &none,
        values,
        &mut c32,
        values.len(),
    )
}

// The packed stream at the front of `out`; on a refusal the output is as it was.
pub fn pack32(level: u32, mode: u32, k: i32, size: u32, values: &[u32], out: &mut [u8]) -> Answer
    ensures value { result ≡ pack_answer 32 level mode k size values.now (length out.old) }
    ensures out_after { out.new ≡ pack_out 32 level mode k size values.now out.old }
{
    let none = [0u64; 0];
    let mut c32 = [0u32; 1024];
    packed_or_refused(
        32,
        level,
        mode,
        k,
        size,
        values,
        &none,
        &mut c32,
        values.len(),
        out,
    )
}

pub fn pack64(level: u32, mode: u32, k: i32, size: u32, values: &[u64], out: &mut [u8]) -> Answer
    ensures value { result ≡ pack_answer 64 level mode k size values.now (length out.old) }
    ensures out_after { out.new ≡ pack_out 64 level mode k size values.now out.old }
{
    let none = [0u32; 0];
    let mut c32 = [0u32; 0];
    packed_or_refused(
        64,
        level,
        mode,
        k,
        size,
        &none,
        values,
        &mut c32,
        values.len(),
        out,
    )
}
