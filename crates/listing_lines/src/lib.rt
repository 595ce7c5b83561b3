// The lines that the program `listing` prints, laid into a buffer: each function gives the place where its line ends.
#![tactic(auto)]

ghost use Rattle.std.specs.Prelude.{[], ◌∷◌, ◌++◌, ◌≡◌, ◌+◌, ◌<◌, ◌≤◌, ◌*◌, length};
ghost use Rattle.protocol.specs.Bytes.{ascii};
ghost use Rattle.protocol.specs.Decimal.{decimal};
ghost use Rattle.protocol.specs.Modes.{octal};
ghost use Rattle.format_record.specs.Told.{told_stat};
ghost use Rattle.listing_lines.specs.Lines.{hex_digit, hexadecimal, numbers, heading, entry_line, end_line, laid_in, heading_room, entry_room, end_room, Laid};

use decimal::format_u32;
use format_number::put_bytes;
use format_record::StatV1;

const DIGITS: [u8; 16] = *b"0123456789ABCDEF";

fn put_byte(out: &mut [u8], at: usize, b: u8) -> usize
    requires { at < length out.old }
    ensures { Laid out.old at (b ∷ []) out.new result }
{
    out[at] = b;
    at + 1
}

fn put_text(out: &mut [u8], at: usize, text: &[u8]) -> usize
    requires { at + length text.now ≤ length out.old }
    ensures { Laid out.old at text.now out.new result }
{
    put_bytes(out, at, text);
    at + text.len()
}

fn put_octal(out: &mut [u8], at: usize, n: u32) -> usize
    requires { at + length (octal n) ≤ length out.old }
    ensures { Laid out.old at (octal n) out.new result }
{
    if n < 8 {
        return put_byte(out, at, b'0' + n as u8);
    }
    let last = put_octal(out, at, n / 8);
    put_byte(out, last, b'0' + (n % 8) as u8)
}

fn put_decimal(out: &mut [u8], at: usize, n: u32) -> usize
    requires { at + length (decimal n) ≤ length out.old }
    ensures { Laid out.old at (decimal n) out.new result }
{
    at + format_u32(n, &mut out[at..]).unwrap()
}

fn hex_digit(d: u8) -> u8
    requires { d < 16 }
    ensures { result ≡ hex_digit d }
{
    DIGITS[d as usize]
}

// The two digits of a byte.
fn put_pair(out: &mut [u8], at: usize, b: u8) -> usize
    requires { at + 2 ≤ length out.old }
    ensures { Laid out.old at (hexadecimal (b ∷ [])) out.new result }
{
    let half = put_byte(out, at, hex_digit(b / 16));
    put_byte(out, half, hex_digit(b % 16))
}

fn put_hex(out: &mut [u8], at: usize, bytes: &[u8]) -> usize
    requires { at + 2 * length bytes.now ≤ length out.old }
    ensures { Laid out.old at (hexadecimal bytes.now) out.new result }
{
    let mut end = at;
    for &b in bytes {
        end = put_pair(out, end, b);
    }
    end
}

// A comma and a number behind it.
fn put_field(out: &mut [u8], at: usize, n: u32) -> usize
    requires { at + (1 + length (decimal n)) ≤ length out.old }
    ensures { Laid out.old at (ascii "," ++ decimal n) out.new result }
{
    let next = put_byte(out, at, b',');
    put_decimal(out, next, n)
}

// A comma, the bytes in hexadecimal and the line's end.
fn put_name(out: &mut [u8], at: usize, name: &[u8]) -> usize
    requires { at + (2 + 2 * length name.now) ≤ length out.old }
    ensures { Laid out.old at (ascii "," ++ hexadecimal name.now ++ 10 ∷ []) out.new result }
{
    let next = put_byte(out, at, b',');
    let end = put_hex(out, next, name);
    put_byte(out, end, b'\n')
}

fn put_numbers(out: &mut [u8], at: usize, mode: u32, size: u32, mtime: u32) -> usize
    requires { at + 33 ≤ length out.old }
    ensures { Laid out.old at (numbers mode size mtime) out.new result }
{
    let first = put_octal(out, at, mode);
    let second = put_field(out, first, size);
    put_field(out, second, mtime)
}

// The lines: each where there is room for the longest of its kind, nothing where not.

pub fn put_heading(out: &mut [u8], at: usize) -> usize
    ensures { (out.new, result) ≡ laid_in heading_room out.old at heading }
{
    if out.len().saturating_sub(at) < 21 {
        return at;
    }
    put_text(out, at, b"mode,size,mtime,name\n")
}

pub fn put_entry(out: &mut [u8], at: usize, stat: StatV1, name: &[u8]) -> usize
    ensures { (out.new, result) ≡ laid_in (entry_room name.now) out.old at (entry_line (told_stat stat) name.now) }
{
    let free = out.len().saturating_sub(at);
    if free < 35 || (free - 35) / 2 < name.len() {
        return at;
    }
    let next = put_numbers(out, at, stat.mode.0, stat.size, stat.mtime);
    put_name(out, next, name)
}

// The last line: 0 or the answer's number.
pub fn put_end(out: &mut [u8], at: usize, number: u8) -> usize
    ensures { (out.new, result) ≡ laid_in end_room out.old at (end_line number) }
{
    if out.len().saturating_sub(at) < 15 {
        return at;
    }
    let next = put_text(out, at, b"end,");
    let end = put_decimal(out, next, number as u32);
    put_byte(out, end, b'\n')
}
