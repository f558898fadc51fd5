// The known values of document 01 that concern streams, and some of mode 2, of groups of 128 and of halves (document 02, R-2, R-6 and R-7), run through the operations; `stdout` beside this folder has what they should be.
#![tactic(auto)]

use std::io;
use stream::answers::{Answer, Refusal, Shown};
use stream::{pack, probe, reading};

fn text(rt: &impl Print, t: &[u8]) -> io::Result<()> {
    rt.write_all(t)
}

fn number(rt: &impl Print, n: usize) -> io::Result<()> {
    text(rt, b" ")?;
    print!(rt; "{n}")
}

fn refused(rt: &impl Print, refusal: Refusal) -> io::Result<()> {
    text(rt, b" refused")?;
    number(rt, refusal.number())?;
    text(rt, b" detail")?;
    number(rt, refusal.detail())
}

fn told(rt: &impl Print, what: &[u8], answer: Answer) -> io::Result<()> {
    text(rt, what)?;
    match answer {
        Ok(n) => number(rt, n),
        Err(refusal) => refused(rt, refusal),
    }?;
    text(rt, b"\n")
}

fn shown(rt: &impl Print, what: &[u8], answer: Result<Shown<f32, u32>, Refusal>) -> io::Result<()> {
    text(rt, what)?;
    match answer {
        Ok(Shown::Finite(_)) => text(rt, b" finite"),
        Ok(Shown::Infinity(_)) => text(rt, b" infinity"),
        Ok(Shown::NotANumber(p)) => {
            text(rt, b" not a number ")?;
            print!(rt; "{p:08x}")
        }
        Err(refusal) => refused(rt, refusal),
    }?;
    text(rt, b"\n")
}

fn pattern(rt: &impl Print, p: u32) -> io::Result<()> {
    text(rt, b" ")?;
    print!(rt; "{p:08x}")
}

fn cut(rt: &impl Print, stream: &[u8]) -> io::Result<()> {
    if 0 < stream.len() {
        told(
            rt,
            b"example cut",
            reading::check(8, &stream[..stream.len() - 1]),
        )?;
    }
    Ok(())
}

// "The list 0, -0, 2^-149, packed at level 8, mode 0, is 55 bytes", and what each operation says of them.
fn example(rt: &impl Print) -> io::Result<()> {
    let list: [u32; 3] = [0, 0x8000_0000, 1];
    let mut out: [u8; 55] = [0xAA; 55];
    told(
        rt,
        b"example packed",
        pack::pack32(8, 0, 0, 32, &list, &mut out),
    )?;
    text(rt, b"example bytes ")?;
    text(rt, &out)?;
    text(rt, b"\n")?;
    told(rt, b"example checked", reading::check(8, &out))?;
    shown(rt, b"example probed", probe::probe32(8, &out, 2))?;
    shown(
        rt,
        b"example probed past its end",
        probe::probe32(8, &out, 3),
    )?;
    cut(rt, &out)?;
    let mut back: [u32; 4] = [7; 4];
    told(
        rt,
        b"example unpacked",
        reading::unpack32(8, &out, &mut back),
    )?;
    text(rt, b"example values")?;
    pattern(rt, back[0])?;
    pattern(rt, back[1])?;
    pattern(rt, back[2])?;
    pattern(rt, back[3])?;
    text(rt, b"\n")
}

fn example_too_short(rt: &impl Print) -> io::Result<()> {
    let list: [u32; 3] = [0, 0x8000_0000, 1];
    let mut short: [u8; 54] = [0x2E; 54];
    told(
        rt,
        b"example in 54 bytes",
        pack::pack32(8, 0, 0, 32, &list, &mut short),
    )?;
    text(rt, b"left as it was ")?;
    text(rt, &short)?;
    text(rt, b"\n")
}

// "Lengths at level 8, mode 0: no values, 48 bytes; 1,024 zeros, 84; 1,025 values have two chunks."
fn lengths(rt: &impl Print) -> io::Result<()> {
    let zeros: [u32; 1025] = [0; 1025];
    told(rt, b"no values", pack::length32(8, 0, 0, 32, &zeros[..0]))?;
    told(
        rt,
        b"1024 zeros",
        pack::length32(8, 0, 0, 32, &zeros[..1024]),
    )?;
    let mut out: [u8; 89] = [0; 89];
    told(
        rt,
        b"1025 zeros",
        pack::pack32(8, 0, 0, 32, &zeros, &mut out),
    )?;
    text(rt, b"1025 zeros, bytes ")?;
    text(rt, &out)?;
    text(rt, b"\n")
}

// The code of the one value in a stream of 57 bytes, one u up.
fn raise(stream: &mut [u8]) {
    if stream.len() == 57 {
        stream[53] = 0x00;
        stream[54] = 0x00;
        stream[55] = 0x00;
        stream[56] = 0x6C;
    }
}

// "u = 905969663 is read, 905969664 refused 10", at k = -2: that of the last not-a-number, and one more.
fn largest_u(rt: &impl Print) -> io::Result<()> {
    let list: [u32; 1] = [0x7FFF_FFFF];
    let mut out: [u8; 57] = [0; 57];
    told(
        rt,
        b"largest u packed",
        pack::pack32(9, 1, -2, 32, &list, &mut out),
    )?;
    text(rt, b"largest u bytes ")?;
    text(rt, &out)?;
    text(rt, b"\n")?;
    told(rt, b"largest u checked", reading::check(9, &out))?;
    shown(rt, b"largest u probed", probe::probe32(9, &out, 0))?;
    told(rt, b"largest u at level 8", reading::check(8, &out))?;
    raise(&mut out);
    told(rt, b"one more checked", reading::check(9, &out))?;
    shown(rt, b"one more probed", probe::probe32(9, &out, 0))
}

// Mode 2: a slow walk with a rest, in two chunks, and dry cells at both sides of the second chunk's start, so that probe shows their patterns.
fn walk() -> [u32; 1026] {
    let mut list: [u32; 1026] = [0x3F80_0000; 1026];
    list[0] = 0x3F7F_FFFE;
    list[1] = 0x3F7F_FFFF;
    list[1023] = 0x7FC0_0001;
    list[1024] = 0x7FC0_0002;
    list[1025] = 0x3F80_0003;
    list
}

fn differences(rt: &impl Print) -> io::Result<()> {
    let list = walk();
    let mut out: [u8; 349] = [0; 349];
    told(
        rt,
        b"differences at level 10",
        pack::pack32(10, 2, 0, 32, &list, &mut out),
    )?;
    told(
        rt,
        b"differences with k 1",
        pack::pack32(11, 2, 1, 32, &list, &mut out),
    )?;
    told(
        rt,
        b"differences packed",
        pack::pack32(11, 2, 0, 32, &list, &mut out),
    )?;
    told(
        rt,
        b"differences measured",
        pack::length32(11, 2, 0, 32, &list),
    )?;
    told(rt, b"differences told level 10", reading::check(10, &out))?;
    told(rt, b"differences checked", reading::check(11, &out))?;
    differences_read(rt, &out)
}

// Probed at the two dry cells, and unpacked.
fn differences_read(rt: &impl Print, stream: &[u8]) -> io::Result<()> {
    shown(
        rt,
        b"differences probed at 1023",
        probe::probe32(11, stream, 1023),
    )?;
    shown(
        rt,
        b"differences probed at 1024",
        probe::probe32(11, stream, 1024),
    )?;
    let mut back: [u32; 1026] = [0; 1026];
    told(
        rt,
        b"differences unpacked",
        reading::unpack32(11, stream, &mut back),
    )?;
    text(rt, b"differences values")?;
    pattern(rt, back[0])?;
    pattern(rt, back[1])?;
    pattern(rt, back[2])?;
    pattern(rt, back[1023])?;
    pattern(rt, back[1024])?;
    pattern(rt, back[1025])?;
    text(rt, b"\n")
}

// The width byte of the last group, in a stream of 1,024 zeros in groups of 128: 33 is above the width.
fn spoil(stream: &mut [u8]) {
    if stream.len() == 60 {
        stream[59] = 33;
    }
}

// Groups of 128: the refusals of a call, and what the levels make of a stream, whole and with its last group spoiled.
fn groups_of_128(rt: &impl Print) -> io::Result<()> {
    let zeros: [u32; 1024] = [0; 1024];
    told(rt, b"groups of 64", pack::length32(13, 0, 0, 64, &zeros))?;
    told(
        rt,
        b"groups of 128 at level 12",
        pack::length32(12, 0, 0, 128, &zeros),
    )?;
    let mut out: [u8; 60] = [0; 60];
    told(
        rt,
        b"1024 zeros in groups of 128",
        pack::pack32(13, 0, 0, 128, &zeros, &mut out),
    )?;
    told(rt, b"the same at level 12", reading::check(12, &out))?;
    told(rt, b"the same at level 13", reading::check(13, &out))?;
    spoil(&mut out);
    told(rt, b"its last group spoiled", reading::check(13, &out))
}

// "Packed length is never above 48 + 4c + (n/32 rounded up) + n·W/8", with the size in place of 32: codes of 32 bits reach it, 48 + 8 + 33 + 4100 and 48 + 8 + 9 + 4100.
fn longest(rt: &impl Print) -> io::Result<()> {
    let noisy: [u32; 1025] = [0x0080_0000; 1025];
    told(
        rt,
        b"1025 codes of 32 bits in groups of 32",
        pack::length32(13, 0, 0, 32, &noisy),
    )?;
    told(
        rt,
        b"1025 codes of 32 bits in groups of 128",
        pack::length32(13, 0, 0, 128, &noisy),
    )
}

// Three halves within 2^-2, written by a level, and what a reader at level 9 makes of them.
fn halves_by(rt: &impl Print, level: u32) -> io::Result<()> {
    let list: [u32; 3] = [0x3E80_0000, 0xBF40_0000, 0xBFA0_0000];
    let mut out: [u8; 55] = [0; 55];
    told(
        rt,
        b"halves packed",
        pack::pack32(level, 1, -2, 32, &list, &mut out),
    )?;
    text(rt, b"halves bytes ")?;
    text(rt, &out)?;
    text(rt, b"\n")?;
    let mut back: [u32; 3] = [0; 3];
    told(
        rt,
        b"halves at level 8",
        reading::unpack32(8, &out, &mut back),
    )?;
    told(
        rt,
        b"halves at level 9",
        reading::unpack32(9, &out, &mut back),
    )?;
    text(rt, b"halves values")?;
    pattern(rt, back[0])?;
    pattern(rt, back[1])?;
    pattern(rt, back[2])?;
    text(rt, b"\n")
}

fn main(rt: HostRuntime) -> io::Result<()> {
    example(&rt)?;
    example_too_short(&rt)?;
    lengths(&rt)?;
    largest_u(&rt)?;
    differences(&rt)?;
    groups_of_128(&rt)?;
    longest(&rt)?;
    halves_by(&rt, 13)?;
    halves_by(&rt, 14)?;
    halves_by(&rt, 15)
}
