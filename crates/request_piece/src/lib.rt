// A message that goes out in pieces: the header, then each nonempty part (000's sync.rs, `write_message`).
#![tactic(auto)]

ghost use Rattle.std.specs.Prelude.{ℕ, ◌≡◌, length, get_or};
ghost use Rattle.std.proofs.Math.ListN.{get_elem?};
ghost use Rattle.protocol.specs.Messages.{apart};
ghost use Rattle.request.specs.Meaning.{meant};
ghost use Rattle.request_message.specs.Composed.{only, placed};
ghost use Rattle.request_piece.specs.Pieces.{low32, send_count, arg_of, parts_of, piece_of, by_value, shown};

use decimal::format_u32;
use format_flags::FileMode;
use format_number::put_bytes;
use request::Request;
use request_message::write_header;

// What is lent goes out as it lies; the rest goes by value, an id by its number.
#[derive(Clone, Copy)]
pub enum Piece {
    Header(u32, u32),
    Lent,
    Comma,
    Digits(FileMode),
    Inner(u32),
    Word(u32),
    End,
}

// (The low half by its remainder: an `as` loses no bits here.)
fn low(n: usize) -> u32
    ensures { result ≡ low32 n }
{
    (n % 0x1_0000_0000) as u32
}

// The arg of SEND: it counts path, comma and digits.
fn send_count(path: &[u8], mode: FileMode) -> u32
    ensures { result ≡ send_count (length path.now) mode.0 }
{
    let mut digits = [0u8; 10];
    let n = format_u32(mode.0, &mut digits).unwrap();
    let rest = 1 + n;
    low(path.len() + rest)
}

// The arg of a request's header.
fn arg(q: Request, lent: &[u8]) -> u32
    ensures { result ≡ arg_of q (length lent.now) }
{
    match q {
        Request::Send(mode) => send_count(lent, mode),
        Request::Done(mtime) => mtime,
        Request::Quit => 0,
        _ => low(lent.len()),
    }
}

// The parts, empty or not, and End behind the last.
fn parts(id: u32, q: Request) -> [Piece; 4]
    ensures { (j : ℕ) → get_or result j Piece.End ≡ get_or (parts_of id q) j Piece.End }
{
    match q {
        Request::Rcv2(flags) => [
            Piece::Lent,
            Piece::Inner(id),
            Piece::Word(flags.0),
            Piece::End,
        ],
        Request::Send(mode) => [Piece::Lent, Piece::Comma, Piece::Digits(mode), Piece::End],
        Request::Snd2(mode, flags) => [
            Piece::Lent,
            Piece::Inner(id),
            Piece::Word(mode.0),
            Piece::Word(flags.0),
        ],
        Request::Done(_) | Request::Quit => [Piece::End; 4],
        _ => [Piece::Lent, Piece::End, Piece::End, Piece::End],
    }
}

// The j-th part; End behind the last.
fn part(id: u32, q: Request, j: usize) -> Piece
    ensures { result ≡ get_or (parts_of id q) j Piece.End }
{
    parts(id, q).get(j).copied().unwrap_or(Piece::End)
}

// The k-th piece, from 0; End behind the last.
pub fn piece_at(id: u32, q: Request, lent: &[u8], k: usize) -> Piece
    ensures value { result ≡ piece_of id q (length lent.now) k }
    ensures result_value { shown lent.now result ≡ get_elem? (apart (only id) (meant q lent.now)) k }
{
    if k == 0 {
        return Piece::Header(id, arg(q, lent));
    }
    if lent.len() == 0 {
        return part(id, q, k);
    }
    let j = k - 1;
    part(id, q, j)
}

fn place(out: &mut [u8], src: &[u8]) -> Option<usize>
    ensures { (out.new, result) ≡ placed out.old 0 src.now }
{
    if out.len() < src.len() {
        return None;
    }
    put_bytes(out, 0, src);
    Some(src.len())
}

// A piece that goes by value, at the front of out, and its length; none, and nothing altered, where it does not fit.
pub fn piece_bytes(p: Piece, out: &mut [u8]) -> Option<usize>
    ensures { (out.new, result) ≡ placed out.old 0 (by_value p) }
{
    match p {
        Piece::Header(id, arg) => write_header(out, id, arg),
        Piece::Lent | Piece::End => Some(0),
        Piece::Comma => place(out, b","),
        Piece::Digits(mode) => format_u32(mode.0, out),
        Piece::Inner(x) | Piece::Word(x) => place(out, &x.to_le_bytes()),
    }
}
