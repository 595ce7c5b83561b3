// Steps that are taken at once, on the numbers of a lent record: the fast path for loading its session, stepping it and storing it again.
// Each is tried first. Where it is not taken nothing is altered, and the slow path follows.
#![tactic(auto)]

ghost use Rattle.std.specs.Prelude.{List, ◌≡◌, ℕ, ◌≤◌, length};
ghost use Rattle.protocol.specs.Bytes.{bytes_of, put};
ghost use Rattle.boundary.specs.Crossing.{crossed, cross_start, cross_read};
ghost use Rattle.boundary.specs.Told.{reply_bytes, out_size};
ghost use Rattle.record.specs.Record.{size};
ghost use Rattle.ids.specs.Ids.{number_of};
ghost use Rattle.session.specs.Phases.{stat_size_of, entry_size_of, stat_id_of, entry_id_of};
ghost use Rattle.session.specs.declared.Reply.TheVariants.{Told};
ghost use Rattle.fast_record.specs.Found.{found};
ghost use Rattle.fast_record.specs.Standing.{number_in, ids_held};
ghost use Rattle.fast_replies.specs.Direct.{tried, dialect_held, heads, name_length_of, entry_length, entry_told, entry_version, entry_done, entry_now, errorless, is_stat, end_of, stat_told, stat_done, stat_version, stat_now};

use boundary_reply::{put_stat, put_stat_v2};
use fast_record::{Step, fits, id_in, is_idle, number, store_step};
use format_id::SyncId;
use format_number::u32_at;
use format_record::{HEADER_SIZE, stat_v1_at, stat_v2_at};
use record::{HEAD, LENT, STAT_HEADER, STAT_V2_HEADER, STATE, TAIL, UNTIL};
use session::Version;
use session_phases::{entry_size, stat_size};

// Whether x begins with a header of this number. Where a record's table has the same for FAIL it does not: FAIL goes first.
pub fn heads(rec: &[u8], id: u32, x: &[u8]) -> bool
    ensures { result ≡ heads (dialect_held rec.now) (bytes_of 4 id) x.now }
{
    if x.len() < HEADER_SIZE {
        return false;
    }
    let n = u32_at(x, 0);
    n != id_in(rec, SyncId::Fail) && n == id
}

// ---- a listing step whose entry is held whole

// The number, the version and the telling of an entry, and those of a stat below, are functions apart: their clauses speak of `entry_id_of` and
// `stat_id_of`, and so on, and one function for both would have the arms of both.
fn entry_number(rec: &[u8], v: Version) -> u32
    ensures { result ≡ number_of (ids_held rec.now) (entry_id_of v) }
{
    match v {
        Version::V1 => id_in(rec, SyncId::Dent),
        Version::V2 => id_in(rec, SyncId::Dnt2),
    }
}

// How many bytes the entry at the front of x takes, its name included, where it is whole.
fn entry_len(rec: &[u8], x: &[u8], v: Version) -> Option<usize>
    ensures { result ≡ found (entry_length (dialect_held rec.now) v x.now) }
{
    let size = entry_size(v);
    if x.len() < size || !heads(rec, entry_number(rec, v), x) {
        return None;
    }
    let name = u32_at(x, size - 4) as usize;
    let left = x.len() - size;
    if left < name {
        return None;
    }
    Some(size + name)
}

// The entry at the front of x, with its name of len bytes from at on.
fn tell_entry(out: &mut [u8], v: Version, at: usize, len: usize, x: &[u8])
    requires { (entry_size_of v ≤ length x.now) × (len ≡ name_length_of v x.now) }
    ensures { out.new ≡ put out.old 0 (reply_bytes (Told (entry_told v x.now at))) }
{
    match v {
        Version::V1 => put_stat(out, 4, at as u64, len as u64, stat_v1_at(x, 0)),
        Version::V2 => put_stat_v2(out, 5, at as u64, len as u64, stat_v2_at(x, 0)),
    }
}

// The entry at head, and head moved past it; nothing where it is not whole.
fn entry_at(rec: &mut [u8], rx: &[u8], lent: usize, v: Version, out: &mut [u8]) -> bool
    requires { (length rec.old ≡ size) × (number_in rec.old 2 ≤ number_in rec.old 3) × (number_in rec.old 3 ≤ length rx.now) }
    ensures { (result, rec.new, out.new) ≡ entry_done rec.old rx.now lent v out.old }
{
    let head = number(rec, HEAD);
    let tail = number(rec, TAIL);
    let x = &rx[head..tail];
    let Some(n) = entry_len(rec, x, v) else {
        return false;
    };
    let size = entry_size(v);
    let at = head + size;
    let len = n - size;
    let next = head + n;
    tell_entry(out, v, at, len, x);
    store_step(rec, next, tail, lent, Step::IDLE);
    true
}

fn version(call: u32) -> Version
    ensures { result ≡ entry_version call }
{
    match call {
        12 => Version::V1,
        _ => Version::V2,
    }
}

// Calls 12 and 13: true where the step is taken, false where nothing is altered.
pub fn entry(rec: &mut [u8], rx: &[u8], msg: &[u8], lent: &[u8], call: u32, out: &mut [u8]) -> bool
    ensures { (a b : ℕ) → (result, crossed rec.new rx.now msg.now out.new 0) ≡ tried (entry_now rec.old rx.now msg.now call out.old) (cross_start rec.old rx.now msg.now lent.now call a b out.old) (crossed rec.old rx.now msg.now out.old 0) }
{
    if 12 <= call && call <= 13 && is_idle(rec, rx.len(), msg.len(), out.len()) {
        return entry_at(rec, rx, lent.len(), version(call), out);
    }
    false
}

// ---- a read that completes a stat's reply

// Where tail comes to with count more bytes, where they meet the need.
pub fn met(rec: &[u8], rx: &[u8], count: usize) -> Option<usize>
    ensures { result ≡ found (end_of rec.now rx.now count) }
{
    let tail = number(rec, TAIL);
    let free = rx.len().saturating_sub(tail);
    if count == 0 || free < count {
        return None;
    }
    let end = tail + count;
    if end < number(rec, UNTIL) {
        return None;
    }
    Some(end)
}

fn stat_number(rec: &[u8], v: Version) -> u32
    ensures { result ≡ number_of (ids_held rec.now) (stat_id_of v) }
{
    match v {
        Version::V1 => id_in(rec, SyncId::Stat),
        Version::V2 => id_in(rec, SyncId::Sta2),
    }
}

// A stat of version 2 can carry an error instead.
fn errorless(x: &[u8], v: Version) -> bool
    requires { stat_size_of v ≤ length x.now }
    ensures { result ≡ errorless v x.now }
{
    match v {
        Version::V1 => true,
        Version::V2 => u32_at(x, 4) == 0,
    }
}

// Whether x begins with a stat's reply.
fn is_stat(rec: &[u8], x: &[u8], v: Version) -> bool
    ensures { result ≡ is_stat (dialect_held rec.now) v x.now }
{
    if x.len() < stat_size(v) {
        return false;
    }
    heads(rec, stat_number(rec, v), x) && errorless(x, v)
}

// The stat at the front of x.
fn tell_stat(out: &mut [u8], v: Version, x: &[u8])
    requires { stat_size_of v ≤ length x.now }
    ensures { out.new ≡ put out.old 0 (reply_bytes (Told (stat_told v x.now))) }
{
    match v {
        Version::V1 => put_stat(out, 2, 0, 0, stat_v1_at(x, 0)),
        Version::V2 => put_stat_v2(out, 3, 0, 0, stat_v2_at(x, 0)),
    }
}

// The stat at head, with count more bytes behind tail, and head moved past it; nothing where it is not whole.
fn stat_at(rec: &mut [u8], rx: &[u8], count: usize, v: Version, out: &mut [u8]) -> bool
    requires { (length rec.old ≡ size) × (number_in rec.old 2 ≤ number_in rec.old 3) × (number_in rec.old 3 ≤ length rx.now) }
    ensures { (result, rec.new, out.new) ≡ stat_done rec.old rx.now count v out.old }
{
    let Some(end) = met(rec, rx, count) else {
        return false;
    };
    let head = number(rec, HEAD);
    let x = &rx[head..end];
    if !is_stat(rec, x, v) {
        return false;
    }
    let lent = number(rec, LENT);
    let next = head + stat_size(v);
    tell_stat(out, v, x);
    store_step(rec, next, end, lent, Step::IDLE);
    true
}

fn stat_version(state: usize) -> Version
    ensures { result ≡ stat_version state }
{
    match state {
        STAT_HEADER => Version::V1,
        _ => Version::V2,
    }
}

// count bytes were read into the window of a stat that awaits its reply.
pub fn stat(
    rec: &mut [u8],
    rx: &[u8],
    msg: &[u8],
    lent: &[u8],
    count: usize,
    out: &mut [u8],
) -> bool
    ensures { (result, crossed rec.new rx.now msg.now out.new 0) ≡ tried (stat_now rec.old rx.now msg.now lent.now count out.old) (cross_read rec.old rx.now msg.now lent.now count out.old) (crossed rec.old rx.now msg.now out.old 0) }
{
    let state = number(rec, STATE);
    if STAT_HEADER <= state
        && state <= STAT_V2_HEADER
        && fits(rec, rx.len(), msg.len(), lent.len(), out.len())
    {
        return stat_at(rec, rx, count, stat_version(state), out);
    }
    false
}
