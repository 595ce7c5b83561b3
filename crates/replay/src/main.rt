// Replays recorded lists of calls through the session and prints what each step answers: its number and kind, the numbers that it carries and
// its bytes in hexadecimal; behind each list, how many bytes are held. Where the session asks for another read, another piece or the close at
// another place, or leaves other bytes, a line says so. What the records hold stands in docs/PROMISES.md, "Outside facts that are run".
// What can't be written is left out.
#![tactic(auto)]

ghost use Rattle.std.specs.Prelude.{◌≤◌};

use boundary_reply::tell;
use features::Features;
use format_flags::{FileMode, SyncFlags};
use format_number::{put_bytes, u64_at};
use ids::Ids;
use program_io::{digits, read_full};
use recv_buf::RecvBuf;
use replay_records::{Kind, Record, decode, next};
use request::Request;
use session::{Pending, Reply, Session, Stepped, Version};
use session_calls::{next_entry, open, recv_next, start};
use session_part::part;

// ---- printing

// Each text is one write, and where it fails the next is tried all the same: a line by one `println!` would end there.
fn print(rt: &impl Print, text: &[u8]) {
    let _ = rt.write_all(text);
}

fn print_decimal(rt: &impl Print, n: u64) {
    let _ = print!(rt; "{n}");
}

fn print_hex(rt: &impl Print, bytes: &[u8]) {
    for &b in bytes {
        print(rt, &digits(b));
    }
}

fn print_field(rt: &impl Print, n: u64) {
    print(rt, b",");
    print_decimal(rt, n);
}

// A line where the session does not do what was recorded.
fn agree(rt: &impl Print, same: bool) {
    if !same {
        print(rt, b"otherwise\n");
    }
}

// ---- parts of a buffer

// The first n bytes of s; all where it has fewer.
fn front(s: &[u8], n: usize) -> &[u8] {
    &s[..n.min(s.len())]
}

// The bytes of s from at on, so many; none where they do not all lie in it.
fn between(s: &[u8], at: u64, len: u64) -> &[u8] {
    let size = s.len() as u64;
    if size < at || size - at < len {
        return &[];
    }
    &s[at as usize..(at + len) as usize]
}

// ---- a list starts

fn ended() -> Session {
    Session {
        capacity: 0,
        message: 0,
        buf: RecvBuf::new(),
        lent: 0,
        features: Features::of(b""),
        ids: Ids::published(),
        ended: true,
        pending: Pending::Idle,
    }
}

// A session on buffers of one length.
fn opened(banner: &[u8], capacity: usize) -> Stepped {
    let session = open(banner, Ids::published(), capacity, capacity).unwrap_or(ended());
    Stepped {
        session,
        reply: Reply::Close,
    }
}

// ---- a call: its number at the boundary, and its two numbers

fn request(number: u8, a: u32, b: u32) -> Request {
    match number {
        1 => Request::Stat,
        2 => Request::Sta2,
        3 => Request::List,
        4 => Request::Lis2,
        5 => Request::Recv,
        6 => Request::Rcv2(SyncFlags(b)),
        7 => Request::Send(FileMode(a)),
        8 => Request::Snd2(FileMode(a), SyncFlags(b)),
        9 => Request::Data,
        10 => Request::Done(a),
        _ => Request::Quit,
    }
}

fn call(s: Session, rx: &mut [u8], msg: &mut [u8], r: Record, lent: &[u8]) -> Stepped {
    match r.number {
        0..=11 => start(s, rx, msg, request(r.number, r.a, r.b), lent),
        12 => next_entry(s, rx, msg, Version::V1, lent.len()),
        13 => next_entry(s, rx, msg, Version::V2, lent.len()),
        _ => recv_next(s, rx, msg, lent.len()),
    }
}

// ---- what a step asks, and what was reported of it

// Whether the words of a reply hold this place.
fn placed(words: &[u8], r: Record) -> bool {
    u64_at(words, 0) == r.a as u64 && u64_at(words, 8) == r.b as u64
}

// Whether the words of a reply name this piece: a part of the receive buffer, of what is lent, or bytes by value.
fn names(words: &[u8], r: Record, piece: &[u8], rx: &[u8], lent: &[u8]) -> bool {
    let first = u64_at(words, 0);
    if r.number == 4 {
        return between(words, 8, first) == piece;
    }
    let len = u64_at(words, 8);
    let all = if r.number == 2 { rx } else { lent };
    first == r.a as u64 && between(all, first, len) == piece
}

// Whether a reply asks what was recorded.
fn asks(reply: Reply, r: Record, piece: &[u8], rx: &[u8], lent: &[u8]) -> bool {
    let mut words = [0u8; 128];
    if tell(reply, &mut words) != r.number as u32 {
        return false;
    }
    match r.kind {
        Kind::Read => placed(&words, r),
        Kind::Write => names(&words, r, piece, rx, lent),
        _ => true,
    }
}

fn report(s: Session, rx: &mut [u8], msg: &mut [u8], r: Record, lent: &[u8]) -> Stepped {
    match r.report {
        Err(fault) => session_faults::fault(s, rx, msg, lent.len(), fault),
        Ok(()) if r.kind == Kind::Read => session_reports::read(s, rx, msg, lent.len(), r.len),
        Ok(()) => session_reports::wrote(s, rx, msg, lent),
    }
}

// ---- a step ends

// How many numbers an answer carries, by its kind and number.
fn carried(kind: u64, number: u32) -> usize
    ensures { result ≤ 11 }
{
    match (kind, number) {
        (2 | 4, _) => 3,
        (3 | 5, _) => 11,
        (7, 10 | 13 | 15 | 16) => 1,
        _ => 0,
    }
}

fn print_part<'a>(rt: &impl Print, reply: Reply, rx: &'a [u8], msg: &'a [u8]) {
    match reply {
        Reply::Told(a) => print_hex(rt, part(a, rx, msg)),
        _ => agree(rt, false),
    }
}

fn print_answer<'a>(rt: &impl Print, reply: Reply, rx: &'a [u8], msg: &'a [u8]) {
    let mut words = [0u8; 128];
    let number = tell(reply, &mut words) / 256;
    let kind = u64_at(&words, 0);
    print_decimal(rt, number as u64);
    print_field(rt, kind);
    for i in 0..carried(kind, number) {
        print_field(rt, u64_at(&words, 24 + 8 * i));
    }
    print(rt, b",");
    print_part(rt, reply, rx, msg);
    print(rt, b"\n");
}

fn held(session: Session) -> usize {
    if session.ended { 0 } else { session.buf.held() }
}

// The list ends: how many bytes are held, and every byte of the receive buffer.
fn print_end(rt: &impl Print, held: usize, rx: &[u8], all: &[u8]) {
    print(rt, b"held,");
    print_decimal(rt, held as u64);
    print(rt, b"\n");
    agree(rt, rx == all);
}

// ---- the records

// What a record says of the reply before it, or of the list at its end. The bytes that came go into the window.
fn on_reply(
    rt: &impl Print,
    step: Stepped,
    rx: &mut [u8],
    msg: &[u8],
    r: Record,
    lent: &[u8],
    bytes: &[u8],
) {
    match r.kind {
        Kind::Read => {
            agree(rt, asks(step.reply, r, bytes, rx, lent));
            put_bytes(rx, r.a as usize, bytes)
        }
        Kind::Write | Kind::Close => agree(rt, asks(step.reply, r, bytes, rx, lent)),
        Kind::Answer => print_answer(rt, step.reply, rx, msg),
        Kind::End => print_end(rt, held(step.session), rx, bytes),
        Kind::Blank | Kind::List | Kind::Call | Kind::Other => (),
    }
}

fn follow(
    rt: &impl Print,
    step: Stepped,
    rx: &mut [u8],
    msg: &mut [u8],
    r: Record,
    lent: &[u8],
    bytes: &[u8],
) -> Stepped {
    on_reply(rt, step, rx, msg, r, lent, bytes);
    match r.kind {
        Kind::Answer | Kind::End | Kind::Other => step,
        Kind::Call => call(step.session, rx, msg, r, lent),
        Kind::Blank | Kind::List | Kind::Read | Kind::Write | Kind::Close => {
            report(step.session, rx, msg, r, lent)
        }
    }
}

// The records of a list behind its first, and where they end.
fn list(
    rt: &impl Print,
    s: &[u8],
    first: Record,
    rx: &mut [u8],
    msg: &mut [u8],
    lent: &mut [u8],
    spare: &mut [u8],
) -> usize
    ensures { first.end ≤ result }
{
    let mut step = opened(front(spare, first.len), rx.len());
    let mut at = first.end;
    let mut n = 0;
    // no `for`: each record says where the next one begins
    while at < s.len() {
        let r = next(s, at, lent, spare);
        at = r.end;
        if r.kind == Kind::Call {
            n = r.len;
        }
        step = follow(rt, step, rx, msg, r, front(lent, n), front(spare, r.len));
        if r.kind == Kind::End {
            return at;
        }
    }
    at
}

// A list on both buffers, filled with one byte, and where it ends.
fn on_list(
    rt: &impl Print,
    s: &[u8],
    first: Record,
    rx: &mut [u8],
    msg: &mut [u8],
    lent: &mut [u8],
    spare: &mut [u8],
) -> usize
    ensures { first.end ≤ result }
{
    let n = first.a as usize;
    rx.fill(first.number);
    msg.fill(first.number);
    if rx.len() < n || msg.len() < n {
        return first.end;
    }
    list(rt, s, first, &mut rx[..n], &mut msg[..n], lent, spare)
}

fn replay(
    rt: &impl Print,
    s: &[u8],
    rx: &mut [u8],
    msg: &mut [u8],
    lent: &mut [u8],
    spare: &mut [u8],
) {
    let mut at = 0;
    // no `for`: each list says where the next one begins
    while at < s.len() {
        let first = next(s, at, lent, spare);
        at = on_list(rt, s, first, rx, msg, lent, spare);
    }
}

fn main(rt: HostRuntime) {
    let mut text = [0u8; 131072];
    let mut records = [0u8; 65536];
    let mut rx = [0u8; 65544];
    let mut msg = [0u8; 65544];
    let mut lent = [0u8; 65544];
    let mut spare = [0u8; 65544];
    let n = read_full(&mut rt.stdin(), &mut text);
    let count = decode(&text[..n], &mut records);
    replay(
        &rt,
        &records[..count],
        &mut rx,
        &mut msg,
        &mut lent,
        &mut spare,
    );
}
