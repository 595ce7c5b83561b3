// Sends the messages of a call: whole in the free end of the receive buffer, or in pieces (000's sync.rs, `write_message`).
#![tactic(auto)]

ghost use Rattle.std.specs.Prelude.{false, ◌≡◌, ◌<◌, length};
ghost use Rattle.session.specs.Calls.{guarded};
ghost use Rattle.session.specs.State.{st, out, half, Fits};
ghost use Rattle.session.specs.Steps.{read_on};
ghost use Rattle.session.specs.Sends.{tidied, id_for, piece_reply, send_piece, message_out, sent, resumed, wrote_on};
ghost use Rattle.session_sender.specs.Pieces.{piece_sent, data_on, closing};

use request::Request;
use request_message::{compose_at, request_id};
use request_piece::{Piece, piece_at};
use session::{Answer, Misuse, Pending, Phase, Reply, Session, Stepped, Version, Want};
use session_messages::carried;
use session_pump::{read_on, tidy};

// The number of a request's id, in the session's table.
fn id_for(s: Session, q: Request) -> u32
    ensures { result ≡ id_for s q }
{
    s.ids.number(request_id(q))
}

fn piece_reply(from: usize, n: usize, p: Piece) -> Reply
    ensures { result ≡ piece_reply from n p }
{
    match p {
        Piece::Lent => Reply::WriteLent { at: from, len: n },
        bytes => Reply::WriteBytes(bytes),
    }
}

// The piece p goes out, as the k-th of its message (k + 1 in the session: 0 says that a message is out whole).
fn send_piece(s: Session, q: Request, from: usize, n: usize, k: usize, p: Piece) -> Stepped
    requires { k < 5 }
    ensures { result ≡ piece_sent s q from n k p }
{
    let pending = Pending::Writing {
        request: q,
        at: from,
        piece: k + 1,
    };
    Stepped {
        session: s.at(s.buf, pending),
        reply: piece_reply(from, n, p),
    }
}

// A message: after compaction whole in the free end where it fits, or its first piece.
fn message_out(s: Session, rx: &mut [u8], q: Request, from: usize, part: &[u8]) -> Stepped
    ensures { half result rx.new ≡ message_out s rx.old q from part.now }
{
    let buf = s.buf.compact(rx);
    let id = id_for(s, q);
    let Some(len) = compose_at(rx, buf.tail, id, q, part) else {
        let idle = s.at(buf, Pending::Idle);
        return send_piece(idle, q, from, part.len(), 0, piece_at(id, q, part, 0));
    };
    let pending = Pending::Writing {
        request: q,
        at: from,
        piece: 0,
    };
    Stepped {
        session: s.at(buf, pending),
        reply: Reply::WriteRx { at: buf.tail, len },
    }
}

// A message of nothing but its header.
fn send_header(s: Session, q: Request) -> Stepped
    ensures { result ≡ send_piece s q 0 0 0 }
{
    send_piece(s, q, 0, 0, 0, piece_at(id_for(s, q), q, b"", 0))
}

// A call's message: DONE and QUIT are header only, and empty data writes nothing.
#[tactic(auto, unfolding(session::specs::Sends::sent))]
pub fn send(s: Session, rx: &mut [u8], q: Request, from: usize, part: &[u8]) -> Stepped
    ensures { half result rx.new ≡ sent s rx.old q from part.now }
{
    match q {
        Request::Data if part.is_empty() => s.answering(Answer::Done),
        Request::Done(_) | Request::Quit => send_header(s, q),
        _ => message_out(s, rx, q, from, part),
    }
}

// The next message of a data call, or its end.
#[tactic(auto, using(crate::proofs::Laws::data_next))]
fn next_data(s: Session, rx: &mut [u8], from: usize, lent: &[u8]) -> Stepped
    ensures { half result rx.new ≡ data_on s rx.old from lent.now }
{
    let next = from + carried(Request::Data, from, lent).len();
    let part = carried(Request::Data, next, lent);
    send(s, rx, Request::Data, next, part)
}

// QUIT is out, or its write met an error: the close.
pub fn closing(s: Session, failed: bool, code: u32) -> Stepped
    ensures { result ≡ closing s failed code }
{
    Stepped {
        session: s.at(s.buf, Pending::Closing { failed, code }),
        reply: Reply::Close,
    }
}

// OKAY is read behind what is held.
fn read_okay(s: Session, rx: &mut [u8], msg: &mut [u8]) -> Stepped
    requires { Fits s (length rx.old) (length msg.old) }
    ensures { out result rx.new msg.new ≡ read_on (tidied (st s rx.old msg.old)) (Phase.Header Want.Okay) false }
{
    let front = tidy(s, rx);
    read_on(front, Phase::Header(Want::Okay), false, rx, msg)
}

// What follows a message that was accepted whole.
#[tactic(auto, using(session_pump::proofs::Parts::fitting), unfolding(session::specs::Sends::resumed))]
fn resume(
    s: Session,
    rx: &mut [u8],
    msg: &mut [u8],
    q: Request,
    from: usize,
    lent: &[u8],
) -> Stepped
    requires { Fits s (length rx.old) (length msg.old) }
    ensures { out result rx.new msg.new ≡ resumed (st s rx.old msg.old) q from lent.now }
{
    match q {
        Request::Stat => read_on(s, Phase::Header(Want::Stat(Version::V1)), false, rx, msg),
        Request::Sta2 => read_on(s, Phase::Header(Want::Stat(Version::V2)), false, rx, msg),
        Request::Data => next_data(s, rx, from, lent),
        Request::Done(_) => read_okay(s, rx, msg),
        Request::Quit => closing(s, false, 0),
        _ => s.answering(Answer::Done),
    }
}

// A piece was accepted: 0, the whole message; k, its k-th piece.
#[tactic(auto, using(crate::proofs::Laws::accepted), unfolding(session::specs::Calls::guarded))]
pub fn wrote(
    s: Session,
    rx: &mut [u8],
    msg: &mut [u8],
    q: Request,
    from: usize,
    k: usize,
    lent: &[u8],
) -> Stepped
    ensures { out result rx.new msg.new ≡ guarded (st s rx.old msg.old) (wrote_on (st s rx.old msg.old) q from k lent.now) }
{
    if s.misfit(rx.len(), msg.len()) {
        return s.misused(Misuse::Misplaced);
    }
    if k == 0 {
        return resume(s, rx, msg, q, from, lent);
    }
    let part = carried(q, from, lent);
    match piece_at(id_for(s, q), q, part, k) {
        Piece::End => resume(s, rx, msg, q, from, lent),
        p => send_piece(s, q, from, part.len(), k, p),
    }
}
