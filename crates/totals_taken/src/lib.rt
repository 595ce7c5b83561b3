// Whether the session in a record would take a report: none of the numbers 1 to 11 would be told. Nothing is altered.
#![tactic(auto)]

ghost use Rattle.std.specs.Prelude.{◌≡◌, ◌-◌, ◌≤◌, eqb};
ghost use Rattle.record.specs.Record.{loaded};
ghost use Rattle.session.specs.Reports.{report_refusal};
ghost use Rattle.totals_taken.specs.Taken.{awaits_read, awaits_write, takes_read, takes_wrote};

use record_load::load;
use session::{Pending, Session};
use session_refusal::check_report;

// None of 3, 6 and 5 refuses a report.
fn admitted(s: Session, rx: usize, msg: usize, lent: usize) -> bool
    ensures { result ≡ eqb (report_refusal s rx msg lent) 0 }
{
    check_report(s, rx, msg, lent).is_ok()
}

// A read is pending, and count is from 1 to what its window has.
fn awaits_read(s: Session, count: usize) -> bool
    requires { s.buf.tail ≤ s.capacity }
    ensures { result ≡ awaits_read s.pending (s.capacity - s.buf.tail) count }
{
    let free = s.capacity - s.buf.tail;
    matches!(s.pending, Pending::Reading { .. }) && 0 < count && count <= free
}

// A write or the close is pending.
fn awaits_write(s: Session) -> bool
    ensures { result ≡ awaits_write s.pending }
{
    matches!(s.pending, Pending::Writing { .. } | Pending::Closing { .. })
}

// The session in a record takes a read of count bytes; rx, msg and lent are the lengths of what is lent with the report.
#[tactic(auto, unfolding(crate::specs::Taken::takes_read, crate::specs::Taken::takes_wrote))]
pub fn takes_read(rec: &[u8], rx: usize, msg: usize, lent: usize, count: usize) -> bool
    ensures { result ≡ takes_read (loaded rec.now) rx msg lent count }
{
    let Some(s) = load(rec) else {
        return false;
    };
    admitted(s, rx, msg, lent) && awaits_read(s, count)
}

// It takes the report that a write or the close was accepted.
#[tactic(auto, unfolding(crate::specs::Taken::takes_read, crate::specs::Taken::takes_wrote))]
pub fn takes_wrote(rec: &[u8], rx: usize, msg: usize, lent: usize) -> bool
    ensures { result ≡ takes_wrote (loaded rec.now) rx msg lent }
{
    let Some(s) = load(rec) else {
        return false;
    };
    admitted(s, rx, msg, lent) && awaits_write(s)
}
