// A call that carries a path alone (stat, stat_v2, list, list_v2, recv) started at once, on the numbers of a lent record (as in `fast_replies`):
// its message goes out whole, behind the held bytes. Where it is refused or does not fit nothing is altered, and the slow path follows.
#![tactic(auto)]

ghost use Rattle.std.specs.Prelude.{◌≡◌, ℕ, ◌≤◌, length};
ghost use Rattle.boundary.specs.Crossing.{crossed, cross_start};
ghost use Rattle.fast_replies.specs.Direct.{tried};
ghost use Rattle.format_id.specs.Ids.{id_of};
ghost use Rattle.protocol.specs.Messages.{path_id};
ghost use Rattle.record.specs.Record.{size};
ghost use Rattle.fast_record.specs.Standing.{number_in};
ghost use Rattle.fast_request.specs.Starting.{path_of, offered, is_path, asked_in, ask_done, ask_now};

use fast_record::{Step, id_in, is_idle, number, store_step};
use format_id::SyncId;
use format_number::put_u64s;
use record::{FEATURES, HEAD, TAIL};
use recv_buf::RecvBuf;
use request_message::compose_lent;
use request_path::check_path;

// The id of a call's message.
fn path_id(call: u32) -> SyncId
    ensures { id_of result ≡ path_id (path_of call) }
{
    match call {
        1 => SyncId::Stat,
        2 => SyncId::Sta2,
        3 => SyncId::List,
        4 => SyncId::Lis2,
        _ => SyncId::Recv,
    }
}

// Whether the feature that a call needs is among those whose bits are set.
fn is_offered(features: usize, call: u32) -> bool
    ensures { result ≡ offered features call }
{
    match call {
        2 => features % 2 == 1,
        4 => features / 2 % 2 == 1,
        _ => true,
    }
}

// Neither 8 nor 7.
fn is_path(path: &[u8]) -> bool
    ensures { result ≡ is_path path.now }
{
    check_path(path).is_ok()
}

// The held bytes to the front, and the message behind them, its id by the record.
fn put_request(rec: &[u8], rx: &mut [u8], head: usize, tail: usize, call: u32, path: &[u8])
    requires { (head ≤ tail) × (tail ≤ length rx.old) }
    ensures { rx.new ≡ asked_in rec.now rx.old head tail call path.now }
{
    let id = id_in(rec, path_id(call));
    let held = tail - head;
    RecvBuf { head, tail }.compact(rx);
    compose_lent(&mut rx[held..], id, path);
}

// The message of a call, and the record and the reply that say so; nothing where it does not fit.
fn write(rec: &mut [u8], rx: &mut [u8], lent: &[u8], call: u32, out: &mut [u8]) -> bool
    requires { (length rec.old ≡ size) × (number_in rec.old 2 ≤ number_in rec.old 3) × (number_in rec.old 3 ≤ length rx.old) }
    ensures { (result, rec.new, rx.new, out.new) ≡ ask_done rec.old rx.old lent.now call out.old }
{
    let head = number(rec, HEAD);
    let tail = number(rec, TAIL);
    let held = tail - head;
    let room = rx.len() - held;
    let n = 8 + lent.len();
    if room < n {
        return false;
    }
    put_request(rec, rx, head, tail, call, lent);
    put_u64s(out, 0, [held as u64, n as u64]);
    let step = Step {
        state: call as usize,
        ..Step::IDLE
    };
    store_step(rec, 0, held, lent.len(), step);
    true
}

// Calls 1 to 5: true where the step is taken, false where nothing is altered.
pub fn request(
    rec: &mut [u8],
    rx: &mut [u8],
    msg: &[u8],
    lent: &[u8],
    call: u32,
    out: &mut [u8],
) -> bool
    ensures { (a b : ℕ) → (result, crossed rec.new rx.new msg.now out.new 2) ≡ tried (ask_now rec.old rx.old msg.now lent.now call out.old) (cross_start rec.old rx.old msg.now lent.now call a b out.old) (crossed rec.old rx.old msg.now out.old 2) }
{
    if 1 <= call
        && call <= 5
        && is_idle(rec, rx.len(), msg.len(), out.len())
        && is_offered(number(rec, FEATURES), call)
        && is_path(lent)
    {
        return write(rec, rx, lent, call, out);
    }
    false
}
