// A request as the bytes that go out: whole, at the front of a lent slice or from tail on (000's sync.rs, `write_header` and `write_message`).
#![tactic(auto)]

ghost use Rattle.std.specs.Prelude.{List, [], ◌∷◌, ◌++◌, ◌≡◌, ◌+◌, ◌≤◌, length, IfSome};
ghost use Rattle.protocol.specs.Bytes.{put};
ghost use Rattle.protocol.specs.Messages.{rcv2, send, snd2, word, comma, joined, bytes_of_request};
ghost use Rattle.format_id.specs.Ids.{id_of};
ghost use Rattle.request.specs.Meaning.{meant};
ghost use Rattle.request_message.specs.Composed.{only, asked, placed, begun};

use decimal::format_u32;
use format_flags::{FileMode, SyncFlags};
use format_id::SyncId;
use format_number::{put_bytes, put_u32};
use request::Request;

// As much data as is worth an aligned start.
const MUCH: usize = 4096;

// The id of a request's message.
pub fn request_id(q: Request) -> SyncId
    ensures { id_of result ≡ asked q }
{
    match q {
        Request::Stat => SyncId::Stat,
        Request::Sta2 => SyncId::Sta2,
        Request::List => SyncId::List,
        Request::Lis2 => SyncId::Lis2,
        Request::Recv => SyncId::Recv,
        Request::Rcv2(_) => SyncId::Rcv2,
        Request::Send(_) => SyncId::Send,
        Request::Snd2(_, _) => SyncId::Snd2,
        Request::Data => SyncId::Data,
        Request::Done(_) => SyncId::Done,
        Request::Quit => SyncId::Quit,
    }
}

// Id, by its number, and arg at the front of out, and their length; none, and nothing altered, where they do not fit.
pub fn write_header(out: &mut [u8], id: u32, arg: u32) -> Option<usize>
    ensures { (out.new, result) ≡ placed out.old 0 (word id ++ word arg) }
{
    if out.len() < 8 {
        return None;
    }
    put_u32(out, 0, id);
    put_u32(out, 4, arg);
    Some(8)
}

// What is lent, behind the header. Of much, the first eight bytes go by themselves: a wide store of the others then falls on a whole
// word of 16 bytes, where out does.
fn put_lent(out: &mut [u8], lent: &[u8])
    requires { 8 + length lent.now ≤ length out.old }
    ensures { out.new ≡ put out.old 8 lent.now }
{
    if lent.len() < MUCH {
        put_bytes(out, 8, lent);
        return;
    }
    put_bytes(out, 8, &lent[0..8]);
    put_bytes(out, 16, &lent[8..]);
}

// The header and what is lent, where rest bytes more fit behind them. The arg is the low 32 bits of count.
fn begin(out: &mut [u8], id: u32, count: usize, lent: &[u8], rest: usize) -> Option<usize>
    requires { rest ≤ 12 }
    ensures result_after { (out.new, result) ≡ begun out.old rest (word id ++ word count ++ lent.now) }
    ensures upper_bound { IfSome result (λ at. at ≤ length out.old) }
{
    if out.len() < 8 + lent.len() + rest {
        return None;
    }
    // by a remainder: an `as` loses no bits here
    let arg = (count % 0x1_0000_0000) as u32;
    write_header(out, id, arg);
    put_lent(out, lent);
    Some(8 + lent.len())
}

// STAT, STA2, LIST, LIS2, RECV and DATA: the path, or the data, and nothing else.
pub fn compose_lent(out: &mut [u8], id: u32, lent: &[u8]) -> Option<usize>
    ensures { (out.new, result) ≡ placed out.old 0 (word id ++ word (length lent.now) ++ joined (lent.now ∷ [])) }
{
    begin(out, id, lent.len(), lent, 0)
}

// RCV2 and SND2: the path, the id again and the first word, where rest bytes more fit behind them.
fn begin_v2(out: &mut [u8], id: u32, path: &[u8], first: u32, rest: usize) -> Option<usize>
    requires { rest ≤ 4 }
    ensures result_after { (out.new, result) ≡ begun out.old rest (word id ++ word (length path.now) ++ path.now ++ (word id ++ word first)) }
    ensures upper_bound { IfSome result (λ at. at ≤ length out.old) }
{
    let more = 8 + rest;
    let at = begin(out, id, path.len(), path, more)?;
    put_u32(out, at, id);
    let first_at = at + 4;
    put_u32(out, first_at, first);
    Some(at + 8)
}

fn compose_rcv2(out: &mut [u8], id: u32, path: &[u8], flags: SyncFlags) -> Option<usize>
    ensures { (out.new, result) ≡ placed out.old 0 (bytes_of_request (only id) (rcv2 path.now flags.0)) }
{
    begin_v2(out, id, path, flags.0, 0)
}

// SEND: the path, a comma and the mode's digits, which the arg counts too.
fn compose_digits(out: &mut [u8], id: u32, path: &[u8], digits: &[u8]) -> Option<usize>
    requires { length digits.now ≤ 10 }
    ensures { (out.new, result) ≡ placed out.old 0 (word id ++ word (length path.now + (1 + length digits.now)) ++ path.now ++ (comma ++ digits.now)) }
{
    let rest = 1 + digits.len();
    let count = path.len() + rest;
    let at = begin(out, id, count, path, rest)?;
    put_bytes(out, at, b",");
    let digits_at = at + 1;
    put_bytes(out, digits_at, digits);
    Some(at + rest)
}

fn compose_send(out: &mut [u8], id: u32, path: &[u8], mode: FileMode) -> Option<usize>
    ensures { (out.new, result) ≡ placed out.old 0 (bytes_of_request (only id) (send path.now mode.0)) }
{
    let mut digits = [0u8; 10];
    let n = format_u32(mode.0, &mut digits)?;
    compose_digits(out, id, path, &digits[..n])
}

fn compose_snd2(
    out: &mut [u8],
    id: u32,
    path: &[u8],
    mode: FileMode,
    flags: SyncFlags,
) -> Option<usize>
    ensures { (out.new, result) ≡ placed out.old 0 (bytes_of_request (only id) (snd2 path.now mode.0 flags.0)) }
{
    let at = begin_v2(out, id, path, mode.0, 4)?;
    put_u32(out, at, flags.0);
    Some(at + 4)
}

// The whole message at the front of out, and its length; none, and nothing altered, where it does not fit.
#[tactic(auto, unfolding(protocol::specs::Messages::bytes_of_request, protocol::specs::Messages::message_of))]
pub fn compose(out: &mut [u8], id: u32, q: Request, lent: &[u8]) -> Option<usize>
    ensures { (out.new, result) ≡ placed out.old 0 (bytes_of_request (only id) (meant q lent.now)) }
{
    match q {
        Request::Rcv2(flags) => compose_rcv2(out, id, lent, flags),
        Request::Send(mode) => compose_send(out, id, lent, mode),
        Request::Snd2(mode, flags) => compose_snd2(out, id, lent, mode, flags),
        Request::Done(mtime) => write_header(out, id, mtime),
        Request::Quit => write_header(out, id, 0),
        _ => compose_lent(out, id, lent),
    }
}

// The same from tail on: what lies before it is held, and stays.
pub fn compose_at(buf: &mut [u8], tail: usize, id: u32, q: Request, lent: &[u8]) -> Option<usize>
    ensures { (buf.new, result) ≡ placed buf.old tail (bytes_of_request (only id) (meant q lent.now)) }
{
    if buf.len() < tail {
        return None;
    }
    compose(&mut buf[tail..], id, q, lent)
}
