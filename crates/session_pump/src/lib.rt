// Reading on: turns through the phases, until there is an answer or a read is asked for (000's sync.rs).
#![tactic(auto)]

ghost use Rattle.std.specs.Prelude.{List, ◌≡◌, ℕ, ◌+◌, ◌≤◌, ◌<◌, length};
ghost use Rattle.session.specs.Calls.{guarded};
ghost use Rattle.session.specs.State.{st, out, half, Fits};
ghost use Rattle.session.specs.Steps.{reading, asked, kept, hop_out, hopped, read_on};
ghost use Rattle.session.specs.Sends.{tidied};

use format_number::put_bytes;
use recv_buf::RecvBuf;
use recv_buf_cursor::taking;
use session::{Answer, Hop, Misuse, Pending, Phase, Reply, Session, Stepped, Then};
use session_phases::{turn_at, wants};

// The read that a phase waits for, with the held bytes where buf says.
fn awaiting(s: Session, buf: RecvBuf, p: Phase, lost: bool) -> Stepped
    requires { (buf.head ≤ buf.tail) × (buf.tail ≤ s.capacity) × (s.capacity < 0x8000_0000_0000_0000) }
    ensures { result ≡ reading s buf.head buf.tail p lost }
{
    let until = buf.head + wants(s.capacity, p);
    let pending = Pending::Reading {
        phase: p,
        until,
        lost,
    };
    Stepped {
        session: s.at(buf, pending),
        reply: Reply::Read {
            at: buf.tail,
            len: s.capacity - buf.tail,
        },
    }
}

// Asks for a read into the free end. The held bytes move only where tail meets the end.
#[tactic(auto, using(crate::proofs::Hops::compactions), unfolding(session::specs::Steps::asked))]
fn ask(s: Session, p: Phase, lost: bool, rx: &mut [u8]) -> Stepped
    requires { (s.buf.head ≤ s.buf.tail) × (s.buf.tail ≤ s.capacity) × (length rx.old ≡ s.capacity) }
    ensures { half result rx.new ≡ asked s rx.old p lost }
{
    let buf = if s.buf.tail < s.capacity {
        s.buf
    } else {
        s.buf.compact(rx)
    };
    awaiting(s, buf, p, lost)
}

// The n bytes of rx from head on become the first of msg.
#[tactic(auto, unfolding(session::specs::Steps::kept))]
fn keep_text(rx: &[u8], head: usize, n: usize, msg: &mut [u8])
    requires { (head + n ≤ length rx.now) × (n ≤ length msg.old) }
    ensures { msg.new ≡ kept rx.now head n msg.old }
{
    put_bytes(msg, 0, &rx[head..head + n]);
}

// One turn at a phase: 17, or a read, or what the held bytes say. Hop and Then are no ControlFlow: `hop_out` and `followed` speak of them. The session
// and the two lent buffers stay apart: a struct of them would be taken apart at each call.
#[tactic(auto, using(crate::proofs::Hops::turns))]
fn hop(s: Session, p: Phase, lost: bool, rx: &mut [u8], msg: &mut [u8]) -> Hop
    requires { Fits s (length rx.old) (length msg.old) }
    ensures { hop_out result rx.new msg.new ≡ hopped (st s rx.old msg.old) p lost }
{
    let n = wants(s.capacity, p);
    if s.capacity < n {
        return Hop::Over(s.answering(Answer::TooLarge));
    }
    if s.buf.held() < n {
        return Hop::Over(ask(s, p, lost, rx));
    }
    let head = s.buf.head;
    let turn = turn_at(s.ids, s.capacity, p, rx, head);
    keep_text(rx, head, turn.keeps, msg);
    let next = s.at(taking(s.buf, turn.drops), Pending::Idle);
    match turn.then {
        Then::Stop(a) => Hop::Over(next.answering(a)),
        Then::Go(q) => Hop::On(next, q),
    }
}

// Turns until the step is over: never more than four.
#[tactic(auto, using(crate::proofs::Hops::pumps), unfolding(session::specs::Steps::pumped))]
fn pump(s: Session, p: Phase, lost: bool, rx: &mut [u8], msg: &mut [u8]) -> Stepped
    requires { Fits s (length rx.old) (length msg.old) }
    ensures { out result rx.new msg.new ≡ read_on (st s rx.old msg.old) p lost }
{
    let mut session = s;
    let mut phase = p;
    for _ in 0..4usize {
        match hop(session, phase, lost, rx, msg) {
            Hop::Over(stepped) => return stepped,
            Hop::On(next, q) => {
                session = next;
                phase = q;
            }
        }
    }
    ask(session, phase, lost, rx)
}

// Reads on from a phase. A session that does not fit its buffers is answered 3, and nothing changes.
#[tactic(auto, using(crate::proofs::Parts::fitting), unfolding(session::specs::Calls::guarded))]
pub fn read_on(s: Session, p: Phase, lost: bool, rx: &mut [u8], msg: &mut [u8]) -> Stepped
    ensures { out result rx.new msg.new ≡ guarded (st s rx.old msg.old) (read_on (st s rx.old msg.old) p lost) }
{
    if s.misfit(rx.len(), msg.len()) {
        return s.misused(Misuse::Misplaced);
    }
    pump(s, p, lost, rx, msg)
}

// Moves the held bytes to the front, as before a read.
pub fn tidy(s: Session, rx: &mut [u8]) -> Session
    ensures { (msg : List ℕ) → st result rx.new msg ≡ tidied (st s rx.old msg) }
{
    s.at(s.buf.compact(rx), Pending::Idle)
}
