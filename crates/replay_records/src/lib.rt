// A recording of calls, as numbers: its text is lines of hexadecimal digits, its bytes a record behind the other. What a record holds
// stands at the top of rust/oracle/src/record.rs.
#![tactic(auto)]

ghost use Rattle.std.specs.Prelude.{◌≡◌, ◌+◌, ◌-◌, ◌<◌, ◌≤◌, length};
ghost use Rattle.replay_records.specs.Kinds.{byte_of};

use format_number::{put_bytes, u32_at};
use session::Fault;

// ---- the text

// What is no digit counts as 0.
fn digit(b: u8) -> u8
    ensures { result ≤ 15 }
{
    match b {
        b'0'..=b'9' => b - b'0',
        b'A'..=b'F' => b - b'A' + 10,
        _ => 0,
    }
}

// The bytes that the text spells, at the front of out; as many as it has room for.
pub fn decode(text: &[u8], out: &mut [u8]) -> usize
    ensures { result ≤ length out.new }
{
    let mut n = 0;
    let mut left = text;
    // no `for`: a byte is two digits, an end of line one
    while let [first, rest @ ..] = left {
        left = rest;
        if *first == b'\n' {
            continue;
        }
        if out.len() <= n {
            return n;
        }
        let mut second = 0;
        if let [next, behind @ ..] = rest {
            second = *next;
            left = behind;
        }
        out[n] = 16 * digit(*first) + digit(second);
        n += 1;
    }
    n
}

// ---- the fields of a record

// The records that are still to be read. Behind the last there is nothing, and a number there is 0.
#[derive(Clone, Copy)]
struct Rest<'a> {
    bytes: &'a [u8],
}

impl<'a> Rest<'a> {
    fn byte(&mut self) -> u8
        ensures { length (self.new).bytes.now ≡ length (self.old).bytes.now - 1 }
    {
        match self.bytes {
            [first, rest @ ..] => {
                self.bytes = rest;
                *first
            }
            [] => 0,
        }
    }

    // The next n bytes; all that are left where they are fewer.
    fn take(&mut self, n: usize) -> &'a [u8]
        ensures { length (self.new).bytes.now ≤ length (self.old).bytes.now }
    {
        let (part, rest) = self.bytes.split_at(n.min(self.bytes.len()));
        self.bytes = rest;
        part
    }

    fn number(&mut self) -> u32
        ensures { length (self.new).bytes.now ≤ length (self.old).bytes.now }
    {
        u32_at(self.take(4), 0)
    }

    // What was reported: 0 accepted, 1 closed, 2 an error with its code.
    fn report(&mut self) -> Result<(), Fault>
        ensures { length (self.new).bytes.now ≤ length (self.old).bytes.now }
    {
        match self.byte() {
            0 => Ok(()),
            1 => Err(Fault::Closed),
            2 => Err(Fault::Error(self.number())),
            _ => Err(Fault::Error(0)),
        }
    }

    // A part of some packed bytes, put behind the first len of out: a byte repeated, or the bytes. How many out has then.
    fn unpack_part(&mut self, out: &mut [u8], len: usize) -> usize
        requires { len ≤ length out.old }
        ensures { (length (self.new).bytes.now ≤ length (self.old).bytes.now) × (result ≤ length out.new) }
    {
        let word = self.number();
        let count = (word % 0x8000_0000) as usize;
        let end = len + count.min(out.len() - len);
        if 0x8000_0000 <= word {
            let b = self.byte();
            out[len..end].fill(b);
        } else {
            put_bytes(out, len, self.take(count));
        }
        end
    }

    // Packed bytes to the front of out: how many.
    fn unpack(&mut self, out: &mut [u8]) -> usize
        ensures { length (self.new).bytes.now ≤ length (self.old).bytes.now }
    {
        let mut len = 0;
        for _ in 0..self.byte() {
            len = self.unpack_part(out, len);
        }
        len
    }
}

// ---- the records

// What a record is: a list starts, a call, what was asked and reported, an answer, or a list ends.
#[derive(Clone, Copy, PartialEq, Eq)]
pub enum Kind {
    Blank,
    List,
    Call,
    Read,
    Write,
    Close,
    Answer,
    End,
    Other,
}

// A record's kind, by its first byte.
fn kind_of(b: u8) -> Kind
    ensures { (b ≤ 7 → byte_of result ≡ b) × (7 < b → byte_of result ≡ 8) }
{
    match b {
        0 => Kind::Blank,
        1 => Kind::List,
        2 => Kind::Call,
        3 => Kind::Read,
        4 => Kind::Write,
        5 => Kind::Close,
        6 => Kind::Answer,
        7 => Kind::End,
        _ => Kind::Other,
    }
}

// A record's numbers, how many bytes it gave, and where it ends. Its number is the call's, what is asked, or the byte that fills the buffers;
// a and b are the call's two numbers, where a window or a piece starts and how long the window is, or how long the buffers are.
#[derive(Clone, Copy)]
pub struct Record {
    pub kind: Kind,
    pub number: u8,
    pub a: u32,
    pub b: u32,
    pub report: Result<(), Fault>,
    pub len: usize,
    pub end: usize,
}

const BLANK: Record = Record {
    kind: Kind::Blank,
    number: 0,
    a: 0,
    b: 0,
    report: Ok(()),
    len: 0,
    end: 0,
};

// Each reads a record of its kind, but for where it ends.

// A list starts: how long both buffers are, the banner, and the byte that fills the buffers.
fn list(s: &mut Rest<'_>, out: &mut [u8]) -> Record
    ensures { length (s.new).bytes.now ≤ length (s.old).bytes.now }
{
    let a = s.number();
    let len = s.unpack(out);
    Record {
        number: s.byte(),
        a,
        len,
        ..BLANK
    }
}

// A call: its number, its two numbers, and what is lent to it.
fn call(s: &mut Rest<'_>, out: &mut [u8]) -> Record
    ensures { length (s.new).bytes.now ≤ length (s.old).bytes.now }
{
    Record {
        number: s.byte(),
        a: s.number(),
        b: s.number(),
        len: s.unpack(out),
        ..BLANK
    }
}

// A read: where the window starts, how long it is, what was reported, and the bytes that came.
fn read(s: &mut Rest<'_>, out: &mut [u8]) -> Record
    ensures { length (s.new).bytes.now ≤ length (s.old).bytes.now }
{
    let a = s.number();
    let b = s.number();
    let report = s.report();
    let len = if report.is_ok() { s.unpack(out) } else { 0 };
    Record {
        number: 1,
        a,
        b,
        report,
        len,
        ..BLANK
    }
}

// A write: what it is a part of, where the piece starts, its bytes, and what was reported.
fn write(s: &mut Rest<'_>, out: &mut [u8]) -> Record
    ensures { length (s.new).bytes.now ≤ length (s.old).bytes.now }
{
    Record {
        number: s.byte(),
        a: s.number(),
        len: s.unpack(out),
        report: s.report(),
        ..BLANK
    }
}

// The close: what was reported.
fn close(s: &mut Rest<'_>) -> Record
    ensures { length (s.new).bytes.now ≤ length (s.old).bytes.now }
{
    Record {
        number: 5,
        report: s.report(),
        ..BLANK
    }
}

// An answer: its number and kind, how many numbers it carries, those, its bytes.
fn answer(s: &mut Rest<'_>, out: &mut [u8]) -> Record
    ensures { length (s.new).bytes.now ≤ length (s.old).bytes.now }
{
    s.take(2);
    let count = s.byte() as usize;
    s.take(8 * count);
    Record {
        len: s.unpack(out),
        ..BLANK
    }
}

// The end of a list: how many bytes are held, and every byte of the receive buffer.
fn end(s: &mut Rest<'_>, out: &mut [u8]) -> Record
    ensures { length (s.new).bytes.now ≤ length (s.old).bytes.now }
{
    s.take(4);
    Record {
        len: s.unpack(out),
        ..BLANK
    }
}

// The record behind the first at bytes: the bytes that are lent to a call at the front of lent, those of any other record at the front of
// spare. Where there is one, it ends further on.
pub fn next(s: &[u8], at: usize, lent: &mut [u8], spare: &mut [u8]) -> Record
    ensures { at < length s.now → at < result.end }
{
    let mut rest = Rest {
        bytes: &s[at.min(s.len())..],
    };
    let kind = kind_of(rest.byte());
    let record = match kind {
        Kind::List => list(&mut rest, spare),
        Kind::Call => call(&mut rest, lent),
        Kind::Read => read(&mut rest, spare),
        Kind::Write => write(&mut rest, spare),
        Kind::Close => close(&mut rest),
        Kind::Answer => answer(&mut rest, spare),
        Kind::Blank | Kind::End | Kind::Other => end(&mut rest, spare),
    };
    Record {
        kind,
        end: s.len() - rest.bytes.len(),
        ..record
    }
}
