// The listing of a stream: the text that the listing program prints for the bytes of its standard input.
ghost use Rattle.std.specs.Prelude.{◌≡◌, true, ◌∷◌, [], ◌++◌, ◌+◌, ◌*◌, ◌≤◌, ◌<◌, length, drop};
ghost use Rattle.stream.specs.Header.{header_of};
ghost use Rattle.stream.specs.Relied.{Opened, Words};
ghost use Rattle.stream.specs.Tables.{chunk_table_right};
ghost use Rattle.stream.specs.Stream.{joined};
ghost use Rattle.stream.specs.Listing.{digit, decimal, signed_decimal, labelled, format_line, setting_line, count_line, chunk_line};
ghost use Rattle.stream.specs.Listing.{stream_lines, refused_line, listing, Appends};

use crate::header::Header;
use crate::{chunks, header, reading, setting, tables};
use numbers::signed;

// "at most 65,536 bytes"
const MOST_INPUT: usize = 65536;

// Each of the functions below writes a piece of the text at the place `at`, and answers the place behind it.
fn put_byte(b: u8, text: &mut [u8], at: usize) -> usize
    requires { at < length text.old }
    ensures { Appends (b ∷ []) at result text.old text.new }
{
    text[at] = b;
    at + 1
}

fn put_text(piece: &[u8], text: &mut [u8], at: usize) -> usize
    requires { at + length piece.now ≤ length text.old }
    ensures { Appends piece.now at result text.old text.new }
{
    text[at..at + piece.len()].copy_from_slice(piece);
    at + piece.len()
}

fn put_digit(d: usize, text: &mut [u8], at: usize) -> usize
    requires { (d < 10) × (at < length text.old) }
    ensures { Appends (digit d ∷ []) at result text.old text.new }
{
    put_byte(48 + d as u8, text, at)
}

// The highest digit comes first, so the number without its last digit is written before that digit.
fn put_number(n: usize, text: &mut [u8], at: usize) -> usize
    requires { at + length (decimal n) ≤ length text.old }
    ensures { Appends (decimal n) at result text.old text.new }
{
    if n < 10 {
        return put_digit(n, text, at);
    }
    let next = put_number(n / 10, text, at);
    put_digit(n % 10, text, next)
}

// A number of the machine has at most 20 digits.
fn put_signed(x: i32, text: &mut [u8], at: usize) -> usize
    requires { at + 21 ≤ length text.old }
    ensures { Appends (signed_decimal x) at result text.old text.new × (result ≤ at + 21) }
{
    let size = signed::size32(x) as usize;
    if x < 0 {
        let next = put_byte(b'-', text, at);
        return put_number(size, text, next);
    }
    put_number(size, text, at)
}

fn put_labelled(word: &[u8], n: usize, text: &mut [u8], at: usize) -> usize
    requires { at + length word.now + 20 ≤ length text.old }
    ensures appends { Appends (labelled word.now n) at result text.old text.new }
    ensures upper_bound { result ≤ at + length word.now + 20 }
{
    let next = put_text(word, text, at);
    put_number(n, text, next)
}

fn put_format_line(h: Header, text: &mut [u8], at: usize) -> usize
    requires { at + 100 ≤ length text.old }
    ensures { Appends (format_line h) at result text.old text.new × (result ≤ at + 100) }
{
    let next = put_labelled(b"format ", h.major, text, at);
    let next = put_labelled(b".", h.written, text, next);
    let next = put_labelled(b" needs ", h.major, text, next);
    let next = put_labelled(b".", h.needed, text, next);
    put_byte(b'\n', text, next)
}

fn put_setting_line(h: Header, text: &mut [u8], at: usize) -> usize
    requires { Words h × (at + 100 ≤ length text.old) }
    ensures { Appends (setting_line h) at result text.old text.new × (result ≤ at + 100) }
{
    let k = header::exponent_of(h);
    let next = put_labelled(b"width ", h.width, text, at);
    let next = put_labelled(b" mode ", h.mode, text, next);
    let next = put_text(b" bound ", text, next);
    let next = put_signed(k, text, next);
    put_byte(b'\n', text, next)
}

fn put_count_line(h: Header, text: &mut [u8], at: usize) -> usize
    requires { at + 100 ≤ length text.old }
    ensures { Appends (count_line h) at result text.old text.new × (result ≤ at + 100) }
{
    let next = put_labelled(b"values ", h.count, text, at);
    let next = put_labelled(b" chunks ", h.chunks, text, next);
    let next = put_labelled(b" sides ", h.sides, text, next);
    put_byte(b'\n', text, next)
}

// A chunk's number is below 1,024 and its groups are no more than its values, so the line has at most 80 bytes.
fn put_chunk_line(h: Header, bytes: &[u8], j: usize, text: &mut [u8], at: usize) -> usize
    requires { Opened (length bytes.now) h × (chunk_table_right h bytes.now ≡ true) × (j < h.chunks) × (at + 120 ≤ length text.old) }
    ensures { Appends (chunk_line h bytes.now j) at result text.old text.new × (result ≤ at + 80) }
{
    let start = tables::start_at(h, bytes, j);
    let end = tables::start_at(h, bytes, j + 1);
    let groups = chunks::groups_at(h, j);
    let next = put_labelled(b"chunk ", j, text, at);
    let next = put_labelled(b" at ", start, text, next);
    let next = put_labelled(b" bytes ", end - start, text, next);
    let next = put_labelled(b" groups ", groups, text, next);
    put_byte(b'\n', text, next)
}

fn put_chunk_lines(h: Header, bytes: &[u8], text: &mut [u8], at: usize) -> usize
    requires { Opened (length bytes.now) h × (chunk_table_right h bytes.now ≡ true) × (at + 80 * h.chunks + 120 ≤ length text.old) }
    ensures { Appends (joined (chunk_line h bytes.now) h.chunks) at result text.old text.new }
{
    let mut next = at;
    for j in 0..h.chunks {
        next = put_chunk_line(h, bytes, j, text, next);
    }
    next
}

fn put_stream(bytes: &[u8], text: &mut [u8]) -> usize
    requires opened { Opened (length bytes.now) (header_of bytes.now) × (chunk_table_right (header_of bytes.now) bytes.now ≡ true) }
    requires in_bounds { 82432 ≤ length text.old }
    ensures { Appends (stream_lines (header_of bytes.now) bytes.now) 0 result text.old text.new }
{
    let h = header::header_of(bytes);
    let next = put_format_line(h, text, 0);
    let next = put_setting_line(h, text, next);
    let next = put_count_line(h, text, next);
    put_chunk_lines(h, bytes, text, next)
}

fn put_refused_line(number: usize, detail: usize, text: &mut [u8]) -> usize
    requires { 100 ≤ length text.old }
    ensures { Appends (refused_line number detail) 0 result text.old text.new }
{
    let next = put_labelled(b"refused ", number, text, 0);
    let next = put_labelled(b" detail ", detail, text, next);
    put_byte(b'\n', text, next)
}

fn put_listing(bytes: &[u8], text: &mut [u8]) -> usize
    requires { 82432 ≤ length text.old }
    ensures { Appends (listing bytes.now) 0 result text.old text.new }
{
    if MOST_INPUT < bytes.len() {
        return put_text(b"too long\n", text, 0);
    }
    let found = reading::check(setting::HIGHEST_LEVEL, bytes);
    match found {
        Ok(_) => put_stream(bytes, text),
        Err(refusal) => put_refused_line(refusal.number(), refusal.detail(), text),
    }
}

// The text of the bytes, at the front of `text`, and how long it is. There is room for 1,024 chunk lines and 512 bytes for the others.
pub fn listing(bytes: &[u8], text: &mut [u8; 82432]) -> usize
    ensures value { result ≡ length (listing bytes.now) }
    ensures text_after { text.new ≡ listing bytes.now ++ drop (length (listing bytes.now)) text.old }
    ensures upper_bound { result ≤ length text.new }
{
    put_listing(bytes, text)
}
