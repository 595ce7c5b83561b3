// The steps of a pull's chunk, taken at once on the numbers of a lent record (as in `fast_replies`): its header is awaited, its body is awaited,
// and it is told.
#![tactic(auto)]

ghost use Rattle.std.specs.Prelude.{◌≡◌, ℕ, ◌≤◌, length};
ghost use Rattle.boundary.specs.Crossing.{crossed, cross_start, cross_read};
ghost use Rattle.fast_replies.specs.Direct.{tried, dialect_held};
ghost use Rattle.record.specs.Record.{size};
ghost use Rattle.fast_record.specs.Found.{found};
ghost use Rattle.fast_record.specs.Standing.{number_in};
ghost use Rattle.fast_pull.specs.Chunks.{next_done, next_now, short_length, header_done, header_now, body_done, body_now};

use fast_record::{Step, fits, id_in, is_idle, number, store_step};
use fast_replies::{heads, met};
use format_id::SyncId;
use format_number::{put_u64s, u32_at};
use record::{CHUNK_BODY, CHUNK_HEADER, FLAG, HEAD, LENT, REGISTER, STATE, TAIL};

// ---- the header is awaited

// Asks for a read into the whole buffer, of rx bytes, where nothing is held; nothing where something is.
fn await_header(rec: &mut [u8], rx: usize, lent: usize, out: &mut [u8]) -> bool
    requires { length rec.old ≡ size }
    ensures { (result, rec.new, out.new) ≡ next_done rec.old rx lent out.old }
{
    if number(rec, HEAD) != number(rec, TAIL) {
        return false;
    }
    put_u64s(out, 0, [0, rx as u64]);
    let step = Step {
        state: CHUNK_HEADER,
        until: 8,
        ..Step::IDLE
    };
    store_step(rec, 0, 0, lent, step);
    true
}

// Call 14: true where the step is taken, false where nothing is altered.
pub fn next(rec: &mut [u8], rx: &[u8], msg: &[u8], lent: &[u8], call: u32, out: &mut [u8]) -> bool
    ensures { (a b : ℕ) → (result, crossed rec.new rx.now msg.now out.new 1) ≡ tried (next_now rec.old rx.now msg.now call out.old) (cross_start rec.old rx.now msg.now lent.now call a b out.old) (crossed rec.old rx.now msg.now out.old 1) }
{
    if call == 14 && is_idle(rec, rx.len(), msg.len(), out.len()) {
        return await_header(rec, rx.len(), lent.len(), out);
    }
    false
}

// ---- a read that completes the header

// How many bytes the chunk at the front of x takes, its header included, where it fits capacity and x has not all of it.
fn short_len(rec: &[u8], x: &[u8], capacity: usize) -> Option<usize>
    ensures { result ≡ found (short_length (dialect_held rec.now) x.now capacity) }
{
    if !heads(rec, id_in(rec, SyncId::Data), x) {
        return None;
    }
    let n = u32_at(x, 4) as usize;
    let whole = 8 + n;
    if capacity < whole || whole <= x.len() {
        return None;
    }
    Some(whole)
}

// Asks for the rest of the chunk at head, with count more bytes behind tail; nothing where there is no header, or no rest, or no room.
fn await_body(rec: &mut [u8], rx: &[u8], count: usize, out: &mut [u8]) -> bool
    requires { (length rec.old ≡ size) × (number_in rec.old 2 ≤ number_in rec.old 3) × (number_in rec.old 3 ≤ length rx.now) }
    ensures { (result, rec.new, out.new) ≡ header_done rec.old rx.now count out.old }
{
    let Some(end) = met(rec, rx, count) else {
        return false;
    };
    if rx.len() <= end {
        return false;
    }
    let head = number(rec, HEAD);
    let Some(whole) = short_len(rec, &rx[head..end], rx.len()) else {
        return false;
    };
    let lent = number(rec, LENT);
    let flag = number(rec, FLAG);
    let until = head + whole;
    let register = whole - 8;
    let len = rx.len() - end;
    put_u64s(out, 0, [end as u64, len as u64]);
    let step = Step {
        state: CHUNK_BODY,
        flag,
        until,
        register,
        ..Step::IDLE
    };
    store_step(rec, head, end, lent, step);
    true
}

// count bytes were read into the window of a chunk whose header is awaited. Two functions, this and `body`, since their clauses speak of two
// definitions, `header_now` and `body_now`: with the step as a closure both would be no shorter.
pub fn header(
    rec: &mut [u8],
    rx: &[u8],
    msg: &[u8],
    lent: &[u8],
    count: usize,
    out: &mut [u8],
) -> bool
    ensures { (result, crossed rec.new rx.now msg.now out.new 1) ≡ tried (header_now rec.old rx.now msg.now lent.now count out.old) (cross_read rec.old rx.now msg.now lent.now count out.old) (crossed rec.old rx.now msg.now out.old 1) }
{
    if number(rec, STATE) == CHUNK_HEADER && fits(rec, rx.len(), msg.len(), lent.len(), out.len()) {
        return await_body(rec, rx, count, out);
    }
    false
}

// ---- a read that completes the chunk

// The chunk behind the header at head, with count more bytes behind tail, and head moved past it; nothing where it is not whole.
fn tell_chunk(rec: &mut [u8], rx: &[u8], count: usize, out: &mut [u8]) -> bool
    requires { (length rec.old ≡ size) × (number_in rec.old 2 ≤ number_in rec.old 3) × (number_in rec.old 3 ≤ length rx.now) }
    ensures { (result, rec.new, out.new) ≡ body_done rec.old rx.now count out.old }
{
    let Some(end) = met(rec, rx, count) else {
        return false;
    };
    let head = number(rec, HEAD);
    let held = end - head;
    let n = number(rec, REGISTER) % 0x1_0000_0000;
    let whole = 8 + n;
    if held < whole {
        return false;
    }
    let lent = number(rec, LENT);
    let at = head + 8;
    let next = head + whole;
    put_u64s(out, 0, [6, at as u64, n as u64]);
    store_step(rec, next, end, lent, Step::IDLE);
    true
}

// count bytes were read into the window of a chunk whose body is awaited.
pub fn body(
    rec: &mut [u8],
    rx: &[u8],
    msg: &[u8],
    lent: &[u8],
    count: usize,
    out: &mut [u8],
) -> bool
    ensures { (result, crossed rec.new rx.now msg.now out.new 0) ≡ tried (body_now rec.old rx.now msg.now lent.now count out.old) (cross_read rec.old rx.now msg.now lent.now count out.old) (crossed rec.old rx.now msg.now out.old 0) }
{
    if number(rec, STATE) == CHUNK_BODY && fits(rec, rx.len(), msg.len(), lent.len(), out.len()) {
        return tell_chunk(rec, rx, count, out);
    }
    false
}
