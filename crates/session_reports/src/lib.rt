// What the host reports of a read, of a write or of the close that was accepted: the other half of each wait of 000's sync.rs.
#![tactic(auto)]

ghost use Rattle.std.specs.Prelude.{◌≡◌, ◌≤◌, length};
ghost use Rattle.session.specs.Reports.{read_in, report_read, report_wrote};
ghost use Rattle.session.specs.State.{st, out, at, Fits};
ghost use Rattle.session.specs.Steps.{read_on};

use recv_buf::RecvBuf;
use recv_buf_cursor::filling;
use session::{Answer, Misuse, Pending, Phase, Reply, Session, Stepped};
use session_pump::read_on;
use session_refusal::{check_report, close};

// Reads on from a phase, with the held bytes where buf says.
fn read_to(
    s: Session,
    buf: RecvBuf,
    phase: Phase,
    lost: bool,
    rx: &mut [u8],
    msg: &mut [u8],
) -> Stepped
    requires { Fits s (length rx.old) (length msg.old) × (buf.head ≤ buf.tail) × (buf.tail ≤ s.capacity) }
    ensures { out result rx.new msg.new ≡ read_on (st (at s buf Pending.Idle) rx.old msg.old) phase lost }
{
    read_on(s.at(buf, Pending::Idle), phase, lost, rx, msg)
}

// n bytes came into the window: none, or more than it has, is a bad count. Where the need is still short, only tail moves.
fn read_in(
    s: Session,
    phase: Phase,
    until: usize,
    lost: bool,
    rx: &mut [u8],
    msg: &mut [u8],
    n: usize,
) -> Stepped
    requires { Fits s (length rx.old) (length msg.old) }
    ensures { out result rx.new msg.new ≡ read_in (st s rx.old msg.old) phase until lost n }
{
    let held = s.buf;
    if n == 0 || s.capacity - held.tail < n {
        return s.misused(Misuse::BadCount);
    }
    let buf = filling(held, n, s.capacity);
    if buf.tail < until && buf.tail < s.capacity {
        return Stepped {
            session: s.at(buf, Pending::Reading { phase, until, lost }),
            reply: Reply::Read {
                at: buf.tail,
                len: s.capacity - buf.tail,
            },
        };
    }
    read_to(s, buf, phase, lost, rx, msg)
}

// n bytes were read into the window.
pub fn read(s: Session, rx: &mut [u8], msg: &mut [u8], lent: usize, n: usize) -> Stepped
    ensures { out result rx.new msg.new ≡ report_read (st s rx.old msg.old) lent n }
{
    if let Err(misuse) = check_report(s, rx.len(), msg.len(), lent) {
        return s.misused(misuse);
    }
    match s.pending {
        Pending::Reading { phase, until, lost } => read_in(s, phase, until, lost, rx, msg, n),
        _ => s.misused(Misuse::NothingPending),
    }
}

// A write, or the close, was accepted.
pub fn wrote(s: Session, rx: &mut [u8], msg: &mut [u8], lent: &[u8]) -> Stepped
    ensures { out result rx.new msg.new ≡ report_wrote (st s rx.old msg.old) lent.now }
{
    if let Err(misuse) = check_report(s, rx.len(), msg.len(), lent.len()) {
        return s.misused(misuse);
    }
    match s.pending {
        Pending::Writing { request, at, piece } => session_sender::wrote(
            s, rx, msg, request, at, piece, lent,
        ),
        Pending::Closing { failed, code } => close(s, failed, code, Answer::Done),
        _ => s.misused(Misuse::NothingPending),
    }
}
