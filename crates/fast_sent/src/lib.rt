// A stat's message is out: the header of its reply is awaited at once, on the numbers of a lent record (as in `fast_replies`).
#![tactic(auto)]

ghost use Rattle.std.specs.Prelude.{◌≡◌, ◌≤◌, length};
ghost use Rattle.boundary.specs.Crossing.{crossed, cross_wrote};
ghost use Rattle.fast_replies.specs.Direct.{tried};
ghost use Rattle.record.specs.Record.{size};
ghost use Rattle.fast_record.specs.Standing.{number_in};
ghost use Rattle.fast_sent.specs.Asking.{header_done, sent_now};

use fast_record::{Step, fits, number, store_step};
use format_number::put_u64s;
use record::{HEAD, LENT, PIECE, STAT_HEADER, STAT_OUT, STAT_V2_OUT, STATE, TAIL};

// A stat's header is awaited in the state so far behind the one in which its message is out.
const HEADER_AFTER: usize = STAT_HEADER - STAT_OUT;

// ---- a stat's message is out

// Asks for the header of its reply, where fewer than 8 bytes are held and there is room behind them; nothing where not.
fn ask_header(rec: &mut [u8], rx: &[u8], state: usize, out: &mut [u8]) -> bool
    requires { (length rec.old ≡ size) × (number_in rec.old 2 ≤ number_in rec.old 3) }
    ensures { (result, rec.new, out.new) ≡ header_done rec.old rx.now state out.old }
{
    let head = number(rec, HEAD);
    let tail = number(rec, TAIL);
    let held = tail - head;
    if 8 <= held || rx.len() <= tail {
        return false;
    }
    let lent = number(rec, LENT);
    let len = rx.len() - tail;
    let until = head + 8;
    put_u64s(out, 0, [tail as u64, len as u64]);
    let step = Step {
        state,
        until,
        ..Step::IDLE
    };
    store_step(rec, head, tail, lent, step);
    true
}

// The whole message of a stat was accepted.
pub fn sent(rec: &mut [u8], rx: &[u8], msg: &[u8], lent: &[u8], out: &mut [u8]) -> bool
    ensures { (result, crossed rec.new rx.now msg.now out.new 1) ≡ tried (sent_now rec.old rx.now msg.now lent.now out.old) (cross_wrote rec.old rx.now msg.now lent.now out.old) (crossed rec.old rx.now msg.now out.old 1) }
{
    let state = number(rec, STATE);
    if STAT_OUT <= state
        && state <= STAT_V2_OUT
        && number(rec, PIECE) == 0
        && fits(rec, rx.len(), msg.len(), lent.len(), out.len())
    {
        return ask_header(rec, rx, state + HEADER_AFTER, out);
    }
    false
}
