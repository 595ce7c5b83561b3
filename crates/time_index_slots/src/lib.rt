// The index of a listing's entries by their times, in lent bytes (document 02, [1]).
#![tactic(auto)]

ghost use Rattle.std.specs.Prelude.{true, ◌&&◌, [], ◌∷◌, ◌≡◌, ◌+◌, ◌-◌, ◌≤◌, ◌<◌, leb, length, take, drop};
ghost use Rattle.protocol.specs.Bytes.{signed, over, put};
ghost use Rattle.boundary.specs.Told.{out_size};
ghost use Rattle.record.specs.Record.{words};
ghost use Rattle.time_index.specs.Index.{most_entries, most_names, room_in, entry};
ghost use Rattle.time_index.specs.Slots.{slots_size, is_index, count_in, slot_size, ranks, below, slot_of, slots_with};
ghost use Rattle.time_index.specs.Crossing.{laid, indexed, added, cross_index_open, cross_index_add, cross_index_between, cross_index_latest, cross_index_entry};
ghost use Rattle.time_index_slots.specs.Keys.{keyed, key_to};
ghost use Rattle.time_index_slots.specs.Standing.{Standing};

use boundary::REPLY;
use format_number::{put_bytes, put_u32, put_u64, put_u64s, u32_at, u64_at};
use time_index_offers::{NoReply, offered_by};

// The length of the slots: four numbers, then the slots themselves.
const SLOTS: usize = 65568;

const MARK: u64 = 0x7865_646e_6967_7579;

const HEAD: usize = 32;

const SLOT: usize = 16;

// Where a slot has the start of the name, and its length with the entry's number.
const START: usize = 8;

const LAST: usize = 12;

// Where the four numbers stand.
const AREA_AT: usize = 8;

const COUNT_AT: usize = 16;

const USED_AT: usize = 24;

const MOST_ENTRIES: usize = 4096;

const MOST_COUNT: u64 = 4096;

const MOST_NAMES: usize = 65536;

// The answers, by the numbers that cross to C: lent bytes are not what they were; no slot or no room for a name.
const MISPLACED: u32 = 3;

const FULL: u32 = 19;

// The sign of a time.
const SIGN: u64 = 0x8000_0000_0000_0000;

// The 64 bits of a time as a number that compares as the time does.
fn key(x: u64) -> u64
    ensures { result ≡ keyed x }
{
    if x < SIGN {
        return x + SIGN;
    }
    x - SIGN
}

// The bytes of an area that names may take.
fn room_in(area: usize) -> usize
    ensures { result ≡ room_in area }
{
    area.min(MOST_NAMES)
}

// Whether the slots hold an index beside an area of that length.
fn is_index(slots: &[u8], area: usize) -> bool
    ensures { result ≡ is_index slots.now area }
{
    if slots.len() != SLOTS {
        return false;
    }
    if u64_at(slots, 0) != MARK {
        return false;
    }
    if u64_at(slots, AREA_AT) != area as u64 {
        return false;
    }
    if MOST_COUNT < u64_at(slots, COUNT_AT) {
        return false;
    }
    let room = room_in(area) as u64;
    u64_at(slots, USED_AT) <= room
}

// Whether the slots hold an index, and the slice of a reply is long enough.
fn is_answered(slots: &[u8], area: usize, room: usize) -> bool
    ensures { result ≡ is_index slots.now area && leb out_size room }
{
    is_index(slots, area) && REPLY <= room
}

// How many of the first n ranks stand up to the last whose time has at most that key.
fn ranks_to(slots: &[u8], n: usize, most: u64) -> usize
    requires { (length slots.now ≡ slots_size) × (n ≤ most_entries) }
    ensures { (result ≡ ranks (key_to most) slots.now n) × (result ≤ n) }
{
    for i in (0..n).rev() {
        if key(u64_at(slots, HEAD + SLOT * i)) <= most {
            return i + 1;
        }
    }
    0
}

// How many up to the last that is earlier than the time.
fn ranks_below(slots: &[u8], n: usize, time: u64) -> usize
    requires { (length slots.now ≡ slots_size) × ((n ≤ most_entries) × (n ≡ count_in slots.now)) }
    ensures { (result ≡ below slots.now (signed time)) × (result ≤ n) }
{
    let k = key(time);
    if k == 0 {
        return 0;
    }
    ranks_to(slots, n, k - 1)
}

// How many ranks stand from the one to the other; none where the other is lower.
fn ranks_from(first: usize, end: usize) -> usize
    ensures { result ≡ end - first }
{
    end.saturating_sub(first)
}

// The bytes from `from` to `to`, one slot further.
fn make_room(slots: &mut [u8], from: usize, to: usize)
    requires { (from ≤ to) × (to + slot_size ≤ length slots.old) }
    ensures { slots.new ≡ over slots.old (from + slot_size) (take (to - from) (drop from slots.old)) }
{
    for at in (from..to).rev() {
        slots[at + SLOT] = slots[at];
    }
}

// A slot's sixteen bytes at `at`.
fn put_slot(slots: &mut [u8], at: usize, time: u64, start: usize, len: usize, number: usize)
    requires { (at + slot_size ≤ length slots.old) × ((start ≤ most_names) × ((len ≤ most_names) × (number < most_entries))) }
    ensures { slots.new ≡ over slots.old at (slot_of (signed time) start len number) }
{
    put_u64(slots, at, time);
    put_u32(slots, at + START, start as u32);
    let last = MOST_ENTRIES * len + number;
    put_u32(slots, at + LAST, last as u32);
}

// One entry more, of n, with its name from `used` on in the area.
fn insert(slots: &mut [u8], n: usize, used: usize, time: u64, len: usize)
    requires { Standing slots.old n used × ((n < most_entries) × ((used ≤ most_names) × (len ≤ most_names))) }
    ensures { slots.new ≡ slots_with slots.old (signed time) len }
{
    let rank = ranks_to(slots, n, key(time));
    let from = HEAD + SLOT * rank;
    make_room(slots, from, HEAD + SLOT * n);
    put_slot(slots, from, time, used, len, n);
    put_u64(slots, COUNT_AT, (n + 1) as u64);
    put_u64(slots, USED_AT, (used + len) as u64);
}

// An entry into an index: 0, or 19 where there is no slot or no room for its name, and nothing is altered.
fn take_entry(slots: &mut [u8], area: &mut [u8], time: u64, name: &[u8]) -> u32
    requires { is_index slots.old (length area.old) ≡ true }
    ensures { indexed slots.new area.new result ≡ added slots.old area.old (entry (signed time) name.now) }
{
    let n = u64_at(slots, COUNT_AT) as usize;
    let used = u64_at(slots, USED_AT) as usize;
    if n == MOST_ENTRIES {
        return FULL;
    }
    let left = room_in(area.len()) - used;
    if left < name.len() {
        return FULL;
    }
    put_bytes(area, used, name);
    insert(slots, n, used, time, name.len());
    0
}

// An index that holds nothing, beside an area of that length: 0, or 3 for slots of another length, which are left alone.
pub fn index_open(slots: &mut [u8], area: usize) -> u32
    ensures { laid slots.new result ≡ cross_index_open slots.old area }
{
    if slots.len() != SLOTS {
        return MISPLACED;
    }
    put_u64s(slots, 0, [MARK, area as u64, 0, 0]);
    0
}

// What a told reply offers, into the index: 0, or 3 or 19, and nothing is altered.
pub fn index_add(slots: &mut [u8], area: &mut [u8], told: u32, reply: &[u8], rx: &[u8]) -> u32
    ensures { indexed slots.new area.new result ≡ cross_index_add slots.old area.old told reply.now rx.now }
{
    if !is_answered(slots, area.len(), reply.len()) {
        return MISPLACED;
    }
    match offered_by(told, reply, rx) {
        Ok(Some(e)) => {
            let end = e.at + e.len;
            take_entry(slots, area, e.time, &rx[e.at..end])
        }
        Ok(None) => 0,
        Err(NoReply) => MISPLACED,
    }
}

// How many entries have a time from `from` to `to`, and the rank of the first, into out. 0, or 3 and nothing is altered.
pub fn index_between(slots: &[u8], area: usize, from: i64, to: i64, out: &mut [u8]) -> u32
    ensures { laid out.new result ≡ cross_index_between slots.now area from to out.old }
{
    if !is_answered(slots, area, out.len()) {
        return MISPLACED;
    }
    let n = u64_at(slots, COUNT_AT) as usize;
    let first = ranks_below(slots, n, from.cast_unsigned());
    let end = ranks_to(slots, n, key(to.cast_unsigned()));
    let count = ranks_from(first, end);
    put_u64s(out, 0, [count as u64, first as u64]);
    0
}

// The same of the latest at or before the time, of equal ones the first listed.
pub fn index_latest(slots: &[u8], area: usize, time: i64, out: &mut [u8]) -> u32
    ensures { laid out.new result ≡ cross_index_latest slots.now area time out.old }
{
    if !is_answered(slots, area, out.len()) {
        return MISPLACED;
    }
    let n = u64_at(slots, COUNT_AT) as usize;
    let end = ranks_to(slots, n, key(time.cast_unsigned()));
    if end == 0 {
        put_u64s(out, 0, [0, 0]);
        return 0;
    }
    let last = HEAD + SLOT * (end - 1);
    let first = ranks_below(slots, n, u64_at(slots, last));
    put_u64s(out, 0, [1, first as u64]);
    0
}

// The entry of a rank into out: whether there is one, where its name lies in the area, its number and its time. 0, or 3 and nothing is altered.
pub fn index_entry(slots: &[u8], area: usize, rank: usize, out: &mut [u8]) -> u32
    ensures { laid out.new result ≡ cross_index_entry slots.now area rank out.old }
{
    if !is_answered(slots, area, out.len()) {
        return MISPLACED;
    }
    let n = u64_at(slots, COUNT_AT) as usize;
    if n <= rank {
        put_u64s(out, 0, [0, 0, 0, 0, 0]);
        return 0;
    }
    let at = HEAD + SLOT * rank;
    let start = u32_at(slots, at + START) as u64;
    let last = u32_at(slots, at + LAST) as u64;
    let len = last / MOST_COUNT;
    let end = start + len;
    if u64_at(slots, USED_AT) < end {
        return MISPLACED;
    }
    put_u64s(
        out,
        0,
        [1, start, len, last % MOST_COUNT, u64_at(slots, at)],
    );
    0
}
