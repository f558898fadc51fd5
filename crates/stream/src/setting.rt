// Levels and settings: what a level knows, how a setting is made from a call or a header, and what it says of codes.
ghost use Rattle.std.specs.Prelude.{◌≡◌, true, ◌≤◌, ◌<◌};
ghost use Rattle.bins.specs.Answers.{bin_answer};
ghost use Rattle.stream.specs.Setting.{known_level, known_width, fraction_bits, need, stream_need, allowed_mode, allowed_setting, bin_for, setting_of, halves_at, setting_at};
ghost use Rattle.stream.specs.Setting.{mode_number, k_bits, group_size, limit_of};
ghost use Rattle.stream.specs.Relied.{Allowed};

use bins::bin;

// What everything below the header wants of a setting: natural numbers, with the bin for k. `halves` is the rule for them, which coding alone asks.
#[derive(Clone, Copy)]
pub(crate) struct Setting {
    pub width: u32,
    pub mode: u32,
    pub bin: u32,
    pub size: u32,
    pub halves: u32,
}

pub(crate) const HIGHEST_LEVEL: u32 = 14;

pub fn known_level(level: usize) -> bool
    ensures { result ≡ known_level level }
{
    (8 <= level) & (level <= HIGHEST_LEVEL as usize)
}

pub(crate) fn known_width(width: usize) -> bool
    ensures { result ≡ known_width width }
{
    (width == 32) | (width == 64)
}

// The bin of k at a width, by the number rules of that width.
fn bin_at(width: usize, k: i32) -> Option<u32>
    requires { known_width width ≡ true }
    ensures { result ≡ bin_answer width (fraction_bits width) k }
{
    if width == 32 {
        return bin::bin::<u32>(k);
    }
    bin::bin::<u64>(k)
}

// Whether a mode is allowed, with its k.
fn allowed_mode(width: usize, mode: usize, k: i32) -> bool
    requires { known_width width ≡ true }
    ensures { result ≡ allowed_mode width mode k }
{
    if mode == 1 {
        return bin_at(width, k).is_some();
    }
    ((mode == 0) | (mode == 2)) & (k == 0)
}

// Whether a setting is allowed, at some level.
pub(crate) fn allowed(width: usize, mode: usize, k: i32, size: usize) -> bool
    requires { known_width width ≡ true }
    ensures { result ≡ allowed_setting width mode k size }
{
    allowed_mode(width, mode, k) & ((size == 32) | (size == 128))
}

// The bin of an allowed setting. The lossless modes have none, and count as bin 0.
fn bin_for(width: usize, mode: usize, k: i32) -> u32
    requires { (known_width width ≡ true) × (allowed_mode width mode k ≡ true) }
    ensures { result ≡ bin_for width mode k }
{
    if mode != 1 {
        return 0;
    }
    bin_at(width, k).unwrap_or(0)
}

// Where a setting is made, of a call's numbers or a header's. A reader has no use for the rule for halves, and a writer gets it from `setting_at`.
pub(crate) fn setting_of(width: usize, mode: usize, k: i32, size: usize) -> Setting
    requires { (known_width width ≡ true) × (allowed_setting width mode k size ≡ true) }
    ensures { (result ≡ setting_of width mode k size) × Allowed result }
{
    Setting {
        width: width as u32,
        mode: mode as u32,
        bin: bin_for(width, mode, k),
        size: size as u32,
        halves: 0,
    }
}

// The rule for halves of a level: away from zero, and from 14 on to even.
fn halves_at(level: u32) -> u32
    ensures { result ≡ halves_at level }
{
    if 14 <= level { 1 } else { 0 }
}

// The setting of a writer: the rule for halves is that of the level which it was told.
pub(crate) fn setting_at(level: u32, width: usize, mode: usize, k: i32, size: usize) -> Setting
    requires { (known_width width ≡ true) × (allowed_setting width mode k size ≡ true) }
    ensures { (result ≡ setting_at level width mode k size) × Allowed result }
{
    let t = setting_of(width, mode, k, size);
    Setting {
        halves: halves_at(level),
        ..t
    }
}

// The largest of the needs of the width, the mode and the group size.
pub(crate) fn need_of(t: Setting) -> usize
    ensures { result ≡ need t }
{
    if t.size == 128 {
        return 13;
    }
    if t.mode == 2 {
        return 11;
    }
    if t.width == 64 {
        return 10;
    }
    if t.mode == 1 {
        return 9;
    }
    8
}

// The need of a stream: that of its setting, and with a high id 12 at least.
pub(crate) fn stream_need(t: Setting, high: bool) -> usize
    ensures { result ≡ stream_need t high }
{
    if high { need_of(t).max(12) } else { need_of(t) }
}

// The mode number of the header: "256 is added to the mode number for 128".
pub(crate) fn mode_number(t: Setting) -> u32
    requires { Allowed t }
    ensures { result ≡ mode_number t }
{
    if t.size == 128 {
        return t.mode + 256;
    }
    t.mode
}

// "k in two's complement (0 in mode 0)", and in mode 2: the smallest k, of bin 0, is -150 or -1075.
pub(crate) fn k_bits(t: Setting) -> u32
    requires { Allowed t }
    ensures { result ≡ k_bits t }
{
    if t.mode != 1 {
        return 0;
    }
    if t.width == 32 {
        return t.bin.wrapping_sub(150);
    }
    t.bin.wrapping_sub(1075)
}

// The size of a group.
pub(crate) fn group_size(t: Setting) -> usize
    ensures { (result ≡ group_size t) × (0 < result) × (result ≤ 128) }
{
    if t.size == 128 { 128 } else { 32 }
}

// The largest u that a code may have.
pub(crate) fn limit_of(t: Setting) -> u64
    requires { Allowed t }
    ensures { result ≡ limit_of t }
{
    if t.width == 32 {
        if t.mode != 1 {
            return 0x7FFF_FFFF;
        }
        return bin::largest_u::<u32>(t.bin) as u64;
    }
    if t.mode != 1 {
        return 0x7FFF_FFFF_FFFF_FFFF;
    }
    bin::largest_u(t.bin)
}
