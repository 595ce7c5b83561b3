// Opens a session and starts its calls: the refusals in their order, then the first step (000's sync.rs, `SyncSession`).
#![tactic(auto)]

ghost use Rattle.std.specs.Prelude.{◌≡◌, length};
ghost use Rattle.protocol.specs.Features.{features_of};
ghost use Rattle.session.specs.Core.{features_from};
ghost use Rattle.session.specs.Calls.{fresh, open_refusal, call_refusal, answer_of, start_call, entry_call, chunk_call};
ghost use Rattle.session.specs.State.{st, out, half, begun};
ghost use Rattle.session.specs.Sends.{carried, sent};
ghost use Rattle.request_refusal.specs.Meaning.{told_as};
ghost use Rattle.session.specs.Misuse.{refused_by};
ghost use Rattle.session_calls.specs.Opening.{opened, opening};

use features::Features;
use ids::Ids;
use recv_buf::RecvBuf;
use request::Request;
use request_refusal::{Refusal, check_request};
use session::{Answer, Misuse, Pending, Phase, Session, Stepped, Version, Want};
use session_messages::carried;
use session_pump::{read_on, tidy};
use session_sender::send;

// A receive buffer has 8 bytes at least, and a message buffer is not shorter than it.
pub fn check_open(capacity: usize, message: usize) -> Result<(), Misuse>
    ensures { refused_by result ≡ open_refusal capacity message }
{
    if capacity < 8 {
        return Err(Misuse::ReceiveTooShort);
    }
    if message < capacity {
        return Err(Misuse::MessageTooShort);
    }
    Ok(())
}

// A session of that banner and those ids, for buffers of these lengths.
pub fn fresh(banner: &[u8], ids: Ids, capacity: usize, message: usize) -> Session
    ensures { result ≡ fresh capacity message (features_from (features_of banner.now)) ids }
{
    Session {
        capacity,
        message,
        buf: RecvBuf::new(),
        lent: 0,
        features: Features::of(banner),
        ids,
        ended: false,
        pending: Pending::Idle,
    }
}

// The same, where the lengths are not refused.
pub fn open(banner: &[u8], ids: Ids, capacity: usize, message: usize) -> Result<Session, Misuse>
    ensures { opening result ≡ opened banner.now ids capacity message }
{
    check_open(capacity, message)?;
    Ok(fresh(banner, ids, capacity, message))
}

// Other buffers, an ended session and a pending call are refused, in this order.
pub fn check_call(s: Session, rx: usize, msg: usize) -> Result<(), Misuse>
    ensures { refused_by result ≡ call_refusal s rx msg }
{
    if s.misfit(rx, msg) {
        return Err(Misuse::Misplaced);
    }
    if s.ended {
        return Err(Misuse::Ended);
    }
    match s.pending {
        Pending::Idle => Ok(()),
        _ => Err(Misuse::Pending),
    }
}

// The first message of a call, with its path or data.
fn first(s: Session, rx: &mut [u8], q: Request, lent: &[u8]) -> Stepped
    ensures { half result rx.new ≡ sent (begun s (length lent.now)) rx.old q 0 (carried q 0 lent.now) }
{
    send(s.begun(lent.len()), rx, q, 0, carried(q, 0, lent))
}

// A request's refusal, as the session answers it.
fn answer(refusal: Refusal) -> Answer
    ensures { result ≡ answer_of (told_as refusal) }
{
    match refusal {
        Refusal::Path(path) => Answer::Refused(path.number()),
        Refusal::Flags => Answer::Refused(9),
        Refusal::Missing(feature) => Answer::Missing(feature.number()),
    }
}

// stat, list, recv, send, data, send_done and quit: q says which, and its path or data is lent.
pub fn start(s: Session, rx: &mut [u8], msg: &mut [u8], q: Request, lent: &[u8]) -> Stepped
    ensures { out result rx.new msg.new ≡ start_call (st s rx.old msg.old) q lent.now }
{
    if let Err(misuse) = check_call(s, rx.len(), msg.len()) {
        return s.misused(misuse);
    }
    match check_request(s.features, q, lent) {
        Ok(()) => first(s, rx, q, lent),
        Err(refusal) => s.refusing(answer(refusal)),
    }
}

// A listing step.
pub fn next_entry(s: Session, rx: &mut [u8], msg: &mut [u8], v: Version, lent: usize) -> Stepped
    ensures { out result rx.new msg.new ≡ entry_call (st s rx.old msg.old) v lent }
{
    if let Err(misuse) = check_call(s, rx.len(), msg.len()) {
        return s.misused(misuse);
    }
    read_on(s.begun(lent), Phase::Header(Want::Entry(v)), false, rx, msg)
}

// The next chunk of a pull: the held bytes move to the front first, so that a chunk fits behind them.
pub fn recv_next(s: Session, rx: &mut [u8], msg: &mut [u8], lent: usize) -> Stepped
    ensures { out result rx.new msg.new ≡ chunk_call (st s rx.old msg.old) lent }
{
    if let Err(misuse) = check_call(s, rx.len(), msg.len()) {
        return s.misused(misuse);
    }
    let begun = s.begun(lent);
    let front = tidy(begun, rx);
    read_on(front, Phase::Header(Want::Chunk), false, rx, msg)
}
