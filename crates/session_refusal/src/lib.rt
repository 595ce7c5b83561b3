// Whether a report is refused, and what a reported close comes to.
#![tactic(auto)]

ghost use Rattle.std.specs.Prelude.{List, ◌≡◌, ℕ};
ghost use Rattle.session.specs.Misuse.{refused_by};
ghost use Rattle.session.specs.Reports.{report_refusal, closed_out};
ghost use Rattle.session.specs.State.{st, out};

use session::{Answer, Misuse, Pending, Reply, Session, Stepped};

// Other buffers, or another length of what is lent with a pending call; then an ended session; then nothing pending.
pub fn check_report(s: Session, rx: usize, msg: usize, lent: usize) -> Result<(), Misuse>
    ensures { refused_by result ≡ report_refusal s rx msg lent }
{
    if s.misfit(rx, msg) {
        return Err(Misuse::Misplaced);
    }
    match s.pending {
        Pending::Idle if s.ended => Err(Misuse::Ended),
        Pending::Idle => Err(Misuse::NothingPending),
        _ if lent != s.lent => Err(Misuse::Misplaced),
        _ if s.ended => Err(Misuse::Ended),
        _ => Ok(()),
    }
}

// The channel is closed: the write's error, else what the close came to.
pub fn close(s: Session, failed: bool, code: u32, a: Answer) -> Stepped
    ensures { (rx msg : List ℕ) → out result rx msg ≡ closed_out (st s rx msg) failed code a }
{
    let answer = if failed { Answer::Error(code) } else { a };
    Stepped {
        session: s.shut(),
        reply: Reply::Told(answer),
    }
}
