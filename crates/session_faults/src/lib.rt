// What a fault comes to that the host reports of a read, a write or the close: the other half of each wait of 000's sync.rs.
#![tactic(auto)]

ghost use Rattle.std.specs.Prelude.{List, ◌≡◌, ℕ, length};
ghost use Rattle.protocol.specs.Bytes.{pick};
ghost use Rattle.session.specs.Reports.{fault_answer, push_fault, quit_fault, write_fault, report_fault};
ghost use Rattle.session.specs.State.{st, out, answering, Fits};

use request::Request;
use session::{Answer, Fault, Misuse, Pending, Phase, Session, Stepped, Want};
use session_pump::read_on;
use session_refusal::{check_report, close};
use session_sender::closing;

fn fault_answer(e: Fault) -> Answer
    ensures { result ≡ fault_answer e }
{
    match e {
        Fault::Closed => Answer::Closed,
        Fault::Error(code) => Answer::Error(code),
    }
}

// A push write that finds the channel closed: the device may have said why.
fn push_fault(s: Session, e: Fault, rx: &mut [u8], msg: &mut [u8]) -> Stepped
    requires { Fits s (length rx.old) (length msg.old) }
    ensures { out result rx.new msg.new ≡ push_fault (st s rx.old msg.old) e }
{
    match e {
        Fault::Closed => read_on(s, Phase::Header(Want::Nothing), true, rx, msg),
        Fault::Error(code) => s.answering(Answer::Error(code)),
    }
}

// The write of QUIT: a closed channel is taken as done.
fn quit_fault(s: Session, e: Fault) -> Stepped
    ensures { (rx msg : List ℕ) → out result rx msg ≡ quit_fault (st s rx msg) e }
{
    match e {
        Fault::Closed => closing(s, false, 0),
        Fault::Error(code) => closing(s, true, code),
    }
}

fn write_fault(s: Session, q: Request, e: Fault, rx: &mut [u8], msg: &mut [u8]) -> Stepped
    requires { Fits s (length rx.old) (length msg.old) }
    ensures { out result rx.new msg.new ≡ write_fault (st s rx.old msg.old) q e }
{
    match q {
        Request::Stat
        | Request::Sta2
        | Request::List
        | Request::Lis2
        | Request::Recv
        | Request::Rcv2(_) => s.answering(fault_answer(e)),
        Request::Send(_) | Request::Snd2(..) | Request::Data | Request::Done(_) => push_fault(
            s, e, rx, msg,
        ),
        Request::Quit => quit_fault(s, e),
    }
}

// A read: behind a push write that found the channel closed, every fault is closed.
fn read_fault(s: Session, lost: bool, e: Fault) -> Stepped
    ensures { result ≡ answering s (pick lost Answer.Closed (fault_answer e)) }
{
    s.answering(if lost {
        Answer::Closed
    } else {
        fault_answer(e)
    })
}

// A read, a write or the close came to a fault.
pub fn fault(s: Session, rx: &mut [u8], msg: &mut [u8], lent: usize, e: Fault) -> Stepped
    ensures { out result rx.new msg.new ≡ report_fault (st s rx.old msg.old) lent e }
{
    if let Err(misuse) = check_report(s, rx.len(), msg.len(), lent) {
        return s.misused(misuse);
    }
    match s.pending {
        Pending::Reading { lost, .. } => read_fault(s, lost, e),
        Pending::Writing { request, .. } => write_fault(s, request, e, rx, msg),
        Pending::Closing { failed, code } => close(s, failed, code, fault_answer(e)),
        Pending::Idle => s.misused(Misuse::NothingPending),
    }
}
