// Steps that are taken at once, on the numbers of a lent record (as in `fast_replies`): what follows an accepted write of a DATA message.
#![tactic(auto)]

ghost use Rattle.std.specs.Prelude.{◌≡◌, ◌≤◌, eqb, length};
ghost use Rattle.protocol.specs.Bytes.{pick};
ghost use Rattle.protocol.specs.Messages.{data_most};
ghost use Rattle.boundary.specs.Crossing.{crossed, cross_wrote};
ghost use Rattle.fast_replies.specs.Direct.{tried};
ghost use Rattle.record.specs.Record.{size, words};
ghost use Rattle.fast_record.specs.Standing.{number_in, moved_numbers};
ghost use Rattle.fast_push.specs.Pushing.{accepted, has_room, next_in, push_step, part_done, part_now, header_done, header_now, whole_done, whole_now};

use boundary_reply::put_header_piece;
use fast_record::{Step, fits, id_in, number, store_step};
use format_id::SyncId;
use format_number::put_u64s;
use record::{DATA_OUT, FROM, HEAD, LENT, PIECE, STATE, TAIL};
use request::Request;
use request_message::compose_at;
use session_messages::carried;

// Whether a session that stands has the k-th piece of a DATA message out; 0, the whole message.
fn accepted(rec: &[u8], rx: usize, msg: usize, lent: usize, k: usize, out: usize) -> bool
    ensures { result ≡ accepted rec.now rx msg lent k out }
{
    number(rec, STATE) == DATA_OUT && number(rec, PIECE) == k && fits(rec, rx, msg, lent, out)
}

// Data from `from` on, with the k-th piece out, is what is pending; a record of another length is left alone.
fn store_push(rec: &mut [u8], from: usize, k: usize)
    ensures { rec.new ≡ pick (eqb (length rec.old) size) (words (moved_numbers rec.old (number_in rec.old 2) (number_in rec.old 3) (number_in rec.old 4) (push_step from k))) rec.old }
{
    let head = number(rec, HEAD);
    let tail = number(rec, TAIL);
    let lent = number(rec, LENT);
    let step = Step {
        state: DATA_OUT,
        from,
        piece: k,
        ..Step::IDLE
    };
    store_step(rec, head, tail, lent, step);
}

// ---- the header was accepted: the data

// The data of the message that is out; nothing where there is none.
fn put_part(rec: &mut [u8], lent: &[u8], out: &mut [u8]) -> bool
    requires { length rec.old ≡ size }
    ensures { (result, rec.new, out.new) ≡ part_done rec.old lent.now out.old }
{
    let from = number(rec, FROM);
    let part = carried(Request::Data, from, lent);
    let n = part.len();
    if n == 0 {
        return false;
    }
    put_u64s(out, 0, [from as u64, n as u64]);
    store_push(rec, from, 2);
    true
}

// The header of a DATA message was accepted.
pub fn part_out(rec: &mut [u8], rx: &[u8], msg: &[u8], lent: &[u8], out: &mut [u8]) -> bool
    ensures { (result, crossed rec.new rx.now msg.now out.new 3) ≡ tried (part_now rec.old rx.now msg.now lent.now out.old) (cross_wrote rec.old rx.now msg.now lent.now out.old) (crossed rec.old rx.now msg.now out.old 3) }
{
    accepted(rec, rx.len(), msg.len(), lent.len(), 1, out.len()) && put_part(rec, lent, out)
}

// ---- a message was accepted: the next one

// Where it starts.
fn next(rec: &[u8], lent: &[u8]) -> usize
    ensures { result ≡ next_in rec.now lent.now }
{
    let from = number(rec, FROM);
    let part = carried(Request::Data, from, lent);
    let n = part.len();
    from + n
}

// Whether a message of n bytes of data fits the free end.
fn has_room(rec: &[u8], rx: usize, n: usize) -> bool
    requires { (number_in rec.now 3 ≤ rx) × (n ≤ data_most) }
    ensures { result ≡ has_room rec.now rx n }
{
    let free = rx - number(rec, TAIL);
    let whole = 8 + n;
    whole <= free
}

// Its header; nothing where the message fits, or would after a compaction.
fn put_header(rec: &mut [u8], rx: &[u8], lent: &[u8], out: &mut [u8]) -> bool
    requires { (length rec.old ≡ size) × (number_in rec.old 3 ≤ length rx.now) }
    ensures { (result, rec.new, out.new) ≡ header_done rec.old rx.now lent.now out.old }
{
    if number(rec, HEAD) != 0 {
        return false;
    }
    let from = next(rec, lent);
    let part = carried(Request::Data, from, lent);
    let n = part.len();
    if n == 0 || has_room(rec, rx.len(), n) {
        return false;
    }
    // by a remainder: an `as` loses no bits here
    let arg = (n % 0x1_0000_0000) as u32;
    let id = id_in(rec, SyncId::Data);
    put_header_piece(out, id, arg);
    store_push(rec, from, 1);
    true
}

// The data of a DATA message was accepted.
pub fn header_out(rec: &mut [u8], rx: &[u8], msg: &[u8], lent: &[u8], out: &mut [u8]) -> bool
    ensures { (result, crossed rec.new rx.now msg.now out.new 4) ≡ tried (header_now rec.old rx.now msg.now lent.now out.old) (cross_wrote rec.old rx.now msg.now lent.now out.old) (crossed rec.old rx.now msg.now out.old 4) }
{
    accepted(rec, rx.len(), msg.len(), lent.len(), 2, out.len()) && put_header(rec, rx, lent, out)
}

// It whole, composed behind what is held; nothing where it does not fit, or would only after a compaction.
fn put_whole(rec: &mut [u8], rx: &mut [u8], lent: &[u8], out: &mut [u8]) -> bool
    requires { (length rec.old ≡ size) × (number_in rec.old 3 ≤ length rx.old) }
    ensures { (result, rec.new, rx.new, out.new) ≡ whole_done rec.old rx.old lent.now out.old }
{
    if number(rec, HEAD) != 0 {
        return false;
    }
    let from = next(rec, lent);
    let part = carried(Request::Data, from, lent);
    let n = part.len();
    if n == 0 || !has_room(rec, rx.len(), n) {
        return false;
    }
    let tail = number(rec, TAIL);
    let id = id_in(rec, SyncId::Data);
    let len = compose_at(rx, tail, id, Request::Data, part).unwrap();
    put_u64s(out, 0, [tail as u64, len as u64]);
    store_push(rec, from, 0);
    true
}

// A DATA message that was composed whole was accepted.
pub fn whole_out(rec: &mut [u8], rx: &mut [u8], msg: &[u8], lent: &[u8], out: &mut [u8]) -> bool
    ensures { (result, crossed rec.new rx.new msg.now out.new 2) ≡ tried (whole_now rec.old rx.old msg.now lent.now out.old) (cross_wrote rec.old rx.old msg.now lent.now out.old) (crossed rec.old rx.old msg.now out.old 2) }
{
    accepted(rec, rx.len(), msg.len(), lent.len(), 0, out.len()) && put_whole(rec, rx, lent, out)
}
