// What the numbers of a lent record say of its session, and a session put back by them: for a step that need not load it.
#![tactic(auto)]

ghost use Rattle.std.specs.Prelude.{◌≡◌, eqb, length};
ghost use Rattle.protocol.specs.Bytes.{pick};
ghost use Rattle.format_id.specs.Ids.{id_of};
ghost use Rattle.ids.specs.Ids.{number_of};
ghost use Rattle.record.specs.Record.{size, words, loaded};
ghost use Rattle.fast_record.specs.Standing.{number_in, standing, idle, fits, place_of, ids_held, moved_numbers, step_of};

use boundary::REPLY;
use format_id::SyncId;
use format_number::{put_u64s, u32_at, u64_at};
use record::{
    CAPACITY, ENDED, FEATURES, FLAG, HEAD, IDLE, LENT, MESSAGE, SIZE, STATE, STATES, TAIL,
};
use record_load::step_in;

// The i-th number of a record; 31, which is no state, where it is not 256 bytes long.
pub fn number(rec: &[u8], i: u8) -> usize
    ensures { result ≡ number_in rec.now i }
{
    if rec.len() == SIZE {
        return u64_at(rec, 8 * (i as usize)) as usize;
    }
    STATES
}

// ---- its ids

// Where a record has an id: four bytes for each, behind its other numbers.
fn place(id: SyncId) -> usize
    ensures { result ≡ place_of (id_of id) }
{
    192 + 4 * (id as usize)
}

// The number of an id, by the table that a record holds. Each number of a record of another length is 31: so is its lower half.
pub fn id_in(rec: &[u8], id: SyncId) -> u32
    ensures { result ≡ number_of (ids_held rec.now) (id_of id) }
{
    let at = place(id);
    if rec.len() == SIZE {
        return u32_at(rec, at);
    }
    if at % 8 == 0 {
        return STATES as u32;
    }
    0
}

// ---- whether its session stands

// Whether a record holds a session of buffers of these lengths that has not ended.
pub fn stands(rec: &[u8], rx: usize, msg: usize) -> bool
    ensures { result ≡ standing (loaded rec.now) rx msg }
{
    let capacity = number(rec, CAPACITY);
    let message = number(rec, MESSAGE);
    let head = number(rec, HEAD);
    let tail = number(rec, TAIL);
    let features = number(rec, FEATURES);
    let ended = number(rec, ENDED);
    let state = number(rec, STATE);
    let flag = number(rec, FLAG);
    // The last test stands apart: with it in the chain the proof didn't close.
    if state < STATES
        && features < 128
        && flag < 2
        && tail <= capacity
        && head <= tail
        && 8 <= capacity
        && capacity <= message
        && ended == 0
        && rx == capacity
        && msg == message
    {
        return step_in(rec);
    }
    false
}

// Whether a call is let in: nothing is pending in a session that stands, and a reply fits its slice.
pub fn is_idle(rec: &[u8], rx: usize, msg: usize, out: usize) -> bool
    ensures { result ≡ idle rec.now rx msg out }
{
    number(rec, STATE) == IDLE && stands(rec, rx, msg) && REPLY <= out
}

// Whether a report is let in where something is pending: the session stands, as many bytes are lent as its call had, and a reply fits its
// slice.
pub fn fits(rec: &[u8], rx: usize, msg: usize, lent: usize, out: usize) -> bool
    ensures { result ≡ fits rec.now rx msg lent out }
{
    stands(rec, rx, msg) && lent == number(rec, LENT) && REPLY <= out
}

// ---- its session at another place

// The numbers of a pending step that keeps at most one register, each 0 where it has none.
#[derive(Clone, Copy)]
pub struct Step {
    pub state: usize,
    pub flag: usize,
    pub until: usize,
    pub from: usize,
    pub piece: usize,
    pub register: usize,
}

impl Step {
    // Nothing is pending.
    pub const IDLE: Step = Step {
        state: IDLE,
        flag: 0,
        until: 0,
        from: 0,
        piece: 0,
        register: 0,
    };
}

// The session at another place of its buffer, with so many bytes lent and a pending step, into its record, its ids as they were; a record of
// another length is left alone.
pub fn store_step(rec: &mut [u8], head: usize, tail: usize, lent: usize, step: Step)
    ensures { rec.new ≡ pick (eqb (length rec.old) size) (words (moved_numbers rec.old head tail lent (step_of step.state step.flag step.until step.from step.piece step.register))) rec.old }
{
    let Step {
        state,
        flag,
        until,
        from,
        piece,
        register,
    } = step;
    if rec.len() == SIZE {
        let capacity = number(rec, CAPACITY) as u64;
        let message = number(rec, MESSAGE) as u64;
        let features = number(rec, FEATURES) as u64;
        let ended = number(rec, ENDED) as u64;
        let numbers = [
            capacity,
            message,
            head as u64,
            tail as u64,
            lent as u64,
            features,
            ended,
            state as u64,
            flag as u64,
            until as u64,
            from as u64,
            piece as u64,
            register as u64,
            0,
            0,
            0,
            0,
            0,
            0,
            0,
            0,
            0,
            0,
            0,
        ];
        put_u64s(rec, 0, numbers);
    }
}
