// What a step asks or tells, as it crosses to the host: a number, and bytes at the front of a lent slice.
#![tactic(auto)]

ghost use Rattle.std.specs.Prelude.{List, [], ◌∷◌, ◌++◌, ◌≡◌, ℕ, ◌≤◌, length};
ghost use Rattle.protocol.specs.Bytes.{put};
ghost use Rattle.protocol.specs.Decimal.{decimal};
ghost use Rattle.protocol.specs.Messages.{word};
ghost use Rattle.request_message.specs.Composed.{placed};
ghost use Rattle.request_piece.specs.Pieces.{by_value};
ghost use Rattle.record.specs.Record.{words};
ghost use Rattle.boundary.specs.Told.{stat_words, stat_v2_words, answer_number, answer_words, reply_number, reply_bytes};

use decimal::format_u32;
use format_flags::FileMode;
use format_number::{put_u32, put_u64, put_u64s};
use format_record::{StatV1, StatV2};
use request_piece::{Piece, piece_bytes};
use session::{Answer, Reply};

// Document 01's number of an answer.
fn number(a: Answer) -> u8
    ensures { result ≡ answer_number a }
{
    match a {
        Answer::Done
        | Answer::End
        | Answer::StatV1(_)
        | Answer::StatV2(_)
        | Answer::EntryV1 { .. }
        | Answer::EntryV2 { .. }
        | Answer::Chunk { .. } => 0,
        Answer::Refused(n) => n,
        Answer::Missing(_) => 10,
        Answer::Closed => 12,
        Answer::Error(_) => 13,
        Answer::Fail(_) => 14,
        Answer::Unexpected(..) => 15,
        Answer::Errno(_) => 16,
        Answer::TooLarge => 17,
    }
}

// Kind, start and length, then the numbers of a stat.
pub fn put_stat(out: &mut [u8], kind: u64, at: u64, len: u64, s: StatV1)
    ensures { out.new ≡ put out.old 0 (words (kind ∷ at ∷ len ∷ stat_words s)) }
{
    let numbers = [
        kind,
        at,
        len,
        s.mode.0 as u64,
        s.size as u64,
        s.mtime as u64,
    ];
    put_u64s(out, 0, numbers);
}

pub fn put_stat_v2(out: &mut [u8], kind: u64, at: u64, len: u64, s: StatV2)
    ensures { out.new ≡ put out.old 0 (words (kind ∷ at ∷ len ∷ stat_v2_words s)) }
{
    let atime = s.atime.cast_unsigned();
    let mtime = s.mtime.cast_unsigned();
    let ctime = s.ctime.cast_unsigned();
    let numbers = [
        kind,
        at,
        len,
        s.error as u64,
        s.dev,
        s.ino,
        s.mode.0 as u64,
        s.nlink as u64,
        s.uid as u64,
        s.gid as u64,
        s.size,
        atime,
        mtime,
        ctime,
    ];
    put_u64s(out, 0, numbers);
}

fn put_answer(out: &mut [u8], a: Answer)
    ensures { out.new ≡ put out.old 0 (words (answer_words a)) }
{
    match a {
        Answer::Done => put_u64s(out, 0, [0, 0, 0]),
        Answer::End => put_u64s(out, 0, [1, 0, 0]),
        Answer::StatV1(s) => put_stat(out, 2, 0, 0, s),
        Answer::StatV2(s) => put_stat_v2(out, 3, 0, 0, s),
        Answer::EntryV1 { stat, at, len } => put_stat(out, 4, at as u64, len as u64, stat),
        Answer::EntryV2 { stat, at, len } => put_stat_v2(out, 5, at as u64, len as u64, stat),
        Answer::Chunk { at, len } => put_u64s(out, 0, [6, at as u64, len as u64]),
        Answer::Refused(_) | Answer::Closed | Answer::TooLarge => put_u64s(out, 0, [7, 0, 0]),
        Answer::Missing(n) => put_u64s(out, 0, [7, 0, 0, n as u64]),
        Answer::Error(code) | Answer::Errno(code) => put_u64s(out, 0, [7, 0, 0, code as u64]),
        Answer::Fail(len) => put_u64s(out, 0, [7, 0, len as u64]),
        Answer::Unexpected(a, b, c, d) => {
            let id = u32::from_le_bytes([a, b, c, d]);
            put_u64s(out, 0, [7, 0, 0, id as u64])
        }
    }
}

fn digits(mode: FileMode) -> usize
    ensures { (result ≡ length (decimal mode.0)) × (result ≤ 10) }
{
    let mut digits = [0u8; 10];
    format_u32(mode.0, &mut digits).unwrap()
}

// How many bytes a piece that goes by value has.
fn piece_len(p: Piece) -> usize
    ensures { (result ≡ length (by_value p)) × (result ≤ 10) }
{
    match p {
        Piece::Header(_, _) => 8,
        Piece::Lent | Piece::End => 0,
        Piece::Comma => 1,
        Piece::Digits(mode) => digits(mode),
        Piece::Inner(_) | Piece::Word(_) => 4,
    }
}

// A piece behind the number of its bytes.
fn piece_behind(out: &mut [u8], p: Piece) -> Option<usize>
    ensures { (out.new, result) ≡ placed out.old 8 (by_value p) }
{
    if out.len() < 8 {
        return None;
    }
    piece_bytes(p, &mut out[8..])
}

// How many bytes, then the bytes.
pub fn put_piece(out: &mut [u8], p: Piece)
    ensures { out.new ≡ put out.old 0 (words (length (by_value p) ∷ []) ++ by_value p) }
{
    let n = piece_len(p);
    let all = 8 + n;
    if out.len() < all {
        return;
    }
    put_u64(out, 0, n as u64);
    piece_behind(out, p);
}

// The same of a header, by its two numbers.
pub fn put_header_piece(out: &mut [u8], id: u32, arg: u32)
    ensures { out.new ≡ put out.old 0 (words (8 ∷ []) ++ word id ++ word arg) }
{
    if out.len() < 16 {
        return;
    }
    put_u64(out, 0, 8);
    put_u32(out, 8, id);
    put_u32(out, 12, arg);
}

// The bytes of a reply at the front of out, and its number; nothing altered where the bytes do not fit.
pub fn tell(reply: Reply, out: &mut [u8]) -> u32
    ensures { ◌≡◌ {A = List ℕ × ℕ} (out.new, result) (put out.old 0 (reply_bytes reply), reply_number reply) }
{
    match reply {
        Reply::Told(a) => {
            put_answer(out, a);
            256 * number(a) as u32
        }
        Reply::Read { at, len } => {
            put_u64s(out, 0, [at as u64, len as u64]);
            1
        }
        Reply::WriteRx { at, len } => {
            put_u64s(out, 0, [at as u64, len as u64]);
            2
        }
        Reply::WriteLent { at, len } => {
            put_u64s(out, 0, [at as u64, len as u64]);
            3
        }
        Reply::WriteBytes(p) => {
            put_piece(out, p);
            4
        }
        Reply::Close => 5,
    }
}
