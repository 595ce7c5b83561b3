// The slow path of a step: the session is loaded from its record, steps, and is stored again.
#![tactic(auto)]

ghost use Rattle.std.specs.Prelude.{◌≡◌, ltb, length};
ghost use Rattle.std.proofs.Math.Option.{none};
ghost use Rattle.protocol.specs.Bytes.{pick};
ghost use Rattle.boundary.specs.Crossing.{crossed, cross_start, cross_wrote, cross_fault};
ghost use Rattle.boundary.specs.Told.{out_size};
ghost use Rattle.record.specs.Record.{loaded};
ghost use Rattle.record_load.specs.Found.{found};
ghost use Rattle.boundary_slow_path.specs.Slow.{slow_read};

use boundary::REPLY;
use boundary_calls::{begin, fault_of};
use boundary_write_back::give_back;
use record_load::load;
use session::Session;
use session_faults::fault;
use session_reports::{read, wrote};

// 3, told, as the number that crosses to C: that slice, or a record that holds no session.
const AWAY: u32 = 768;

// The session in the record; none where the slice is too short for a reply. Each step below is called for itself, and not as a closure: no clause can
// say what a closure leaves in the two buffers that it would capture.
fn entered(rec: &[u8], out: &[u8]) -> Option<Session>
    ensures { found result ≡ pick (ltb (length out.now) out_size) none (loaded rec.now) }
{
    if out.len() < REPLY { None } else { load(rec) }
}

// A call is started, by its number.
#[tactic(auto, using(crate::proofs::Crossings::cross_away), unfolding(boundary::specs::Crossing::cross_start))]
pub fn slow_start(
    rec: &mut [u8],
    rx: &mut [u8],
    msg: &mut [u8],
    lent: &[u8],
    call: u32,
    a: u32,
    b: u32,
    out: &mut [u8],
) -> u32
    ensures { crossed rec.new rx.new msg.new out.new result ≡ cross_start rec.old rx.old msg.old lent.now call a b out.old }
{
    let Some(s) = entered(rec, out) else {
        return AWAY;
    };
    give_back(begin(s, rx, msg, call, a, b, lent), rec, out)
}

// count bytes were read into the window.
#[tactic(auto, using(crate::proofs::Crossings::cross_away), unfolding(crate::specs::Slow::slow_read))]
pub fn slow_read(
    rec: &mut [u8],
    rx: &mut [u8],
    msg: &mut [u8],
    lent: &[u8],
    count: usize,
    out: &mut [u8],
) -> u32
    ensures { crossed rec.new rx.new msg.new out.new result ≡ slow_read rec.old rx.old msg.old lent.now count out.old }
{
    let Some(s) = entered(rec, out) else {
        return AWAY;
    };
    give_back(read(s, rx, msg, lent.len(), count), rec, out)
}

// The write or the close that was asked for was accepted.
#[tactic(auto, using(crate::proofs::Crossings::cross_away), unfolding(boundary::specs::Crossing::cross_wrote))]
pub fn slow_wrote(rec: &mut [u8], rx: &mut [u8], msg: &mut [u8], lent: &[u8], out: &mut [u8]) -> u32
    ensures { crossed rec.new rx.new msg.new out.new result ≡ cross_wrote rec.old rx.old msg.old lent.now out.old }
{
    let Some(s) = entered(rec, out) else {
        return AWAY;
    };
    give_back(wrote(s, rx, msg, lent), rec, out)
}

// What was asked for came to a fault: kind 0 closed, any other an error with its code.
#[tactic(auto, using(crate::proofs::Crossings::cross_away), unfolding(boundary::specs::Crossing::cross_fault))]
pub fn slow_fault(
    rec: &mut [u8],
    rx: &mut [u8],
    msg: &mut [u8],
    lent: &[u8],
    kind: u32,
    code: u32,
    out: &mut [u8],
) -> u32
    ensures { crossed rec.new rx.new msg.new out.new result ≡ cross_fault rec.old rx.old msg.old lent.now kind code out.old }
{
    let Some(s) = entered(rec, out) else {
        return AWAY;
    };
    give_back(
        fault(s, rx, msg, lent.len(), fault_of(kind, code)),
        rec,
        out,
    )
}
