// The phases of a session: how many bytes each wants, and the turn it takes once they are held (000's sync.rs).
#![tactic(auto)]

ghost use Rattle.std.specs.Prelude.{◌≡◌, ◌+◌, ◌-◌, ◌<◌, ◌≤◌, min, max, length, drop};
ghost use Rattle.protocol.specs.Bytes.{same};
ghost use Rattle.protocol.specs.Records.{id_at, arg_at};
ghost use Rattle.format_id.specs.Ids.{id_of};
ghost use Rattle.ids.specs.Ids.{table_of, dialect_of};
ghost use Rattle.session.specs.Phases.{wants, stat_size_of, entry_size_of, stopping, going, strange, stat_id_of, entry_id_of, proceed, headed, stat_turn, entry_turn, drained, turn_at, turn_in};

use format_id::SyncId;
use format_number::u32_at;
use format_record::{
    DENT_V1_SIZE, DENT_V2_SIZE, DentV1, DentV2, HEADER_SIZE, STAT_V1_SIZE, STAT_V2_SIZE,
    dent_v1_at, dent_v2_at, stat_v1_at, stat_v2_at,
};
use ids::Ids;
use session::{Answer, Phase, Then, Turn, Version, Want};

// A size and an id for each kind of record and version: one function of the kind would be the same four arms.
pub fn stat_size(v: Version) -> usize
    ensures { result ≡ stat_size_of v }
{
    match v {
        Version::V1 => STAT_V1_SIZE,
        Version::V2 => STAT_V2_SIZE,
    }
}

pub fn entry_size(v: Version) -> usize
    ensures { result ≡ entry_size_of v }
{
    match v {
        Version::V1 => DENT_V1_SIZE,
        Version::V2 => DENT_V2_SIZE,
    }
}

// How many bytes a phase wants.
#[tactic(auto, unfolding(session::specs::Phases::wants))]
pub fn wants(capacity: usize, p: Phase) -> usize
    ensures value { result ≡ wants capacity p }
    ensures upper_bound { result ≤ max capacity 0x1_0000_0007 }
{
    match p {
        Phase::Header(_) => HEADER_SIZE,
        Phase::Stat(v) => stat_size(v),
        Phase::Entry(v) | Phase::Last(v) => entry_size(v),
        Phase::NameV1(DentV1 { namelen, .. }) | Phase::NameV2(DentV2 { namelen, .. }) =>
            namelen as usize,
        Phase::Body(n) => HEADER_SIZE + (n as usize),
        Phase::Text(n) => (n as usize).min(capacity),
        Phase::Rest { left, .. } => left.min(capacity),
    }
}

fn stops(drops: usize, a: Answer) -> Turn
    ensures { result ≡ stopping drops a }
{
    Turn {
        drops,
        keeps: 0,
        then: Then::Stop(a),
    }
}

fn goes(drops: usize, p: Phase) -> Turn
    ensures { result ≡ going drops p }
{
    Turn {
        drops,
        keeps: 0,
        then: Then::Go(p),
    }
}

// ---- a header

pub fn stat_id(v: Version) -> SyncId
    ensures { id_of result ≡ stat_id_of v }
{
    match v {
        Version::V1 => SyncId::Stat,
        Version::V2 => SyncId::Sta2,
    }
}

pub fn entry_id(v: Version) -> SyncId
    ensures { id_of result ≡ entry_id_of v }
{
    match v {
        Version::V1 => SyncId::Dent,
        Version::V2 => SyncId::Dnt2,
    }
}

// Whether the id of the header at head is this one's. (The buffer and a place, since the definitions of specs/Phases drop head bytes of it.)
#[tactic(auto, using(protocol::proofs::Bytes::whole_in, crate::proofs::Ids::same_id))]
fn is_id(ids: Ids, id: SyncId, rx: &[u8], head: usize) -> bool
    requires { head + 4 ≤ length rx.now }
    ensures { result ≡ same (id_at (drop head rx.now)) (table_of ids (id_of id)) }
{
    u32_at(rx, head) == ids.number(id)
}

// An id that is not allowed: the header is left.
fn unexpected(rx: &[u8], head: usize) -> Turn
    requires { head + 4 ≤ length rx.now }
    ensures { result ≡ strange (id_at (drop head rx.now)) }
{
    let id = &rx[head..head + 4];
    stops(0, Answer::Unexpected(id[0], id[1], id[2], id[3]))
}

// A header that is no FAIL.
fn proceeds(ids: Ids, w: Want, arg: u32, rx: &[u8], head: usize) -> Turn
    requires { head + 4 ≤ length rx.now }
    ensures { result ≡ proceed (dialect_of ids) w (id_at (drop head rx.now)) arg }
{
    match w {
        Want::Stat(v) if is_id(ids, stat_id(v), rx, head) => goes(0, Phase::Stat(v)),
        Want::Entry(v) if is_id(ids, entry_id(v), rx, head) => goes(0, Phase::Entry(v)),
        Want::Entry(v) if is_id(ids, SyncId::Done, rx, head) => goes(0, Phase::Last(v)),
        Want::Chunk if is_id(ids, SyncId::Data, rx, head) => goes(0, Phase::Body(arg)),
        Want::Chunk if is_id(ids, SyncId::Done, rx, head) => stops(HEADER_SIZE, Answer::End),
        Want::Okay if is_id(ids, SyncId::Okay, rx, head) => stops(HEADER_SIZE, Answer::Done),
        Want::Nothing => stops(0, Answer::Closed),
        _ => unexpected(rx, head),
    }
}

#[tactic(auto, using(protocol::proofs::Records::u32_field), unfolding(session::specs::Phases::headed))]
fn header(ids: Ids, w: Want, rx: &[u8], head: usize) -> Turn
    requires { head + 8 ≤ length rx.now }
    ensures { result ≡ headed (dialect_of ids) w (id_at (drop head rx.now)) (arg_at (drop head rx.now)) }
{
    let arg = u32_at(rx, head + 4);
    if is_id(ids, SyncId::Fail, rx, head) {
        return goes(HEADER_SIZE, Phase::Text(arg));
    }
    proceeds(ids, w, arg, rx, head)
}

// ---- the other phases

fn stat(v: Version, rx: &[u8], head: usize) -> Turn
    requires { head + stat_size_of v ≤ length rx.now }
    ensures { result ≡ stat_turn v (drop head rx.now) }
{
    match v {
        Version::V1 => stops(STAT_V1_SIZE, Answer::StatV1(stat_v1_at(rx, head))),
        Version::V2 => {
            let s = stat_v2_at(rx, head);
            let answer = if s.error == 0 {
                Answer::StatV2(s)
            } else {
                Answer::Errno(s.error)
            };
            stops(STAT_V2_SIZE, answer)
        }
    }
}

fn entry(v: Version, rx: &[u8], head: usize) -> Turn
    requires { head + entry_size_of v ≤ length rx.now }
    ensures { result ≡ entry_turn v (drop head rx.now) }
{
    match v {
        Version::V1 => goes(DENT_V1_SIZE, Phase::NameV1(dent_v1_at(rx, head))),
        Version::V2 => goes(DENT_V2_SIZE, Phase::NameV2(dent_v2_at(rx, head))),
    }
}

// A part of a FAIL text is dropped, and its beginning kept.
#[tactic(auto, unfolding(session::specs::Phases::drained))]
fn drains(drops: usize, keeps: usize, left: usize, text: usize) -> Turn
    ensures { result ≡ drained drops keeps left text }
{
    let then = if left == 0 {
        Then::Stop(Answer::Fail(text))
    } else {
        Then::Go(Phase::Rest { left, text })
    };
    Turn { drops, keeps, then }
}

// An entry's name, from head on. Two functions: the answers are two constructors over two kinds of record.
fn name_v1(d: DentV1, head: usize) -> Turn
    ensures { result ≡ stopping d.namelen (Answer.EntryV1 d.stat head d.namelen) }
{
    let len = d.namelen as usize;
    stops(
        len,
        Answer::EntryV1 {
            stat: d.stat,
            at: head,
            len,
        },
    )
}

fn name_v2(d: DentV2, head: usize) -> Turn
    ensures { result ≡ stopping d.namelen (Answer.EntryV2 d.stat head d.namelen) }
{
    let len = d.namelen as usize;
    stops(
        len,
        Answer::EntryV2 {
            stat: d.stat,
            at: head,
            len,
        },
    )
}

// A DATA message of n bytes, its header at head.
fn body(n: u32, head: usize) -> Turn
    requires { head + 8 < 0x8000_0000_0000_0000 }
    ensures { result ≡ stopping (8 + n) (Answer.Chunk (head + 8) n) }
{
    let len = n as usize;
    stops(
        HEADER_SIZE + len,
        Answer::Chunk {
            at: head + HEADER_SIZE,
            len,
        },
    )
}

// A FAIL text of n bytes, of which the buffer holds the first.
fn text(n: u32, capacity: usize) -> Turn
    ensures { result ≡ drained (min n capacity) (min n capacity) (n - min n capacity) (min n capacity) }
{
    let n = n as usize;
    let m = n.min(capacity);
    drains(m, m, n - m, m)
}

// What is left of one that is longer.
fn rest(left: usize, text: usize, capacity: usize) -> Turn
    ensures { result ≡ drained (min left capacity) 0 (left - min left capacity) text }
{
    let m = left.min(capacity);
    drains(m, 0, left - m, text)
}

// The turn at a phase whose bytes are held from head on.
#[tactic(auto, unfolding(session::specs::Phases::turn_at, session::specs::Phases::wants))]
fn turn(ids: Ids, capacity: usize, p: Phase, rx: &[u8], head: usize) -> Turn
    requires { head + wants capacity p ≤ length rx.now }
    ensures { result ≡ turn_at (dialect_of ids) capacity p rx.now head }
{
    match p {
        Phase::Header(w) => header(ids, w, rx, head),
        Phase::Stat(v) => stat(v, rx, head),
        Phase::Entry(v) => entry(v, rx, head),
        // the record of the DONE that ends a listing
        Phase::Last(v) => stops(entry_size(v), Answer::End),
        Phase::NameV1(d) => name_v1(d, head),
        Phase::NameV2(d) => name_v2(d, head),
        Phase::Body(n) => body(n, head),
        Phase::Text(n) => text(n, capacity),
        Phase::Rest { left, text } => rest(left, text, capacity),
    }
}

// The turn at a phase; nothing where its bytes are not there.
#[tactic(auto, unfolding(session::specs::Phases::turn_in))]
pub fn turn_at(ids: Ids, capacity: usize, p: Phase, rx: &[u8], head: usize) -> Turn
    ensures { result ≡ turn_in (dialect_of ids) capacity p rx.now head }
{
    let n = wants(capacity, p);
    match rx.get(head..) {
        Some(held) if n <= held.len() => turn(ids, capacity, p, rx, head),
        _ => stops(0, Answer::TooLarge),
    }
}
