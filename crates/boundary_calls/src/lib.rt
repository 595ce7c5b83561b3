// Calls and faults by the numbers that cross.
#![tactic(auto)]

ghost use Rattle.std.specs.Prelude.{◌≡◌};
ghost use Rattle.boundary.specs.Crossing.{request_numbered, call_numbered, step_numbered, unknown_call, fault_numbered};
ghost use Rattle.session.specs.State as S;
ghost use Rattle.boundary_calls.specs.Numbered.{asked};

use format_flags::{FileMode, SyncFlags};
use request::Request;
use session::{Fault, Misuse, Session, Stepped, Version};
use session_calls::{check_call, next_entry, recv_next, start};

// The request that a call's number stands for, with its mode or time and its flags.
fn request(call: u32, a: u32, b: u32) -> Option<Request>
    ensures { asked result ≡ request_numbered call a b }
{
    match call {
        1 => Some(Request::Stat),
        2 => Some(Request::Sta2),
        3 => Some(Request::List),
        4 => Some(Request::Lis2),
        5 => Some(Request::Recv),
        6 => Some(Request::Rcv2(SyncFlags(b))),
        7 => Some(Request::Send(FileMode(a))),
        8 => Some(Request::Snd2(FileMode(a), SyncFlags(b))),
        9 => Some(Request::Data),
        10 => Some(Request::Done(a)),
        11 => Some(Request::Quit),
        _ => None,
    }
}

// What came to a fault: 0 the channel is closed, any other an error with its code.
pub fn fault_of(kind: u32, code: u32) -> Fault
    ensures { result ≡ fault_numbered kind code }
{
    match kind {
        0 => Fault::Closed,
        _ => Fault::Error(code),
    }
}

// A listing step, the next chunk, or no call at all: 5, after 3, 6 and 4.
fn step(s: Session, rx: &mut [u8], msg: &mut [u8], call: u32, lent: &[u8]) -> Stepped
    ensures { S.out result rx.new msg.new ≡ step_numbered call (S.st s rx.old msg.old) lent.now (unknown_call (S.st s rx.old msg.old)) }
{
    match call {
        12 => next_entry(s, rx, msg, Version::V1, lent.len()),
        13 => next_entry(s, rx, msg, Version::V2, lent.len()),
        14 => recv_next(s, rx, msg, lent.len()),
        _ => {
            if let Err(misuse) = check_call(s, rx.len(), msg.len()) {
                return s.misused(misuse);
            }
            s.misused(Misuse::NothingPending)
        }
    }
}

// Starts the call that a number stands for.
pub fn begin(
    s: Session,
    rx: &mut [u8],
    msg: &mut [u8],
    call: u32,
    a: u32,
    b: u32,
    lent: &[u8],
) -> Stepped
    ensures { S.out result rx.new msg.new ≡ call_numbered call a b (S.st s rx.old msg.old) lent.now (request_numbered call a b) (unknown_call (S.st s rx.old msg.old)) }
{
    match request(call, a, b) {
        Some(q) => start(s, rx, msg, q, lent),
        None => step(s, rx, msg, call, lent),
    }
}
