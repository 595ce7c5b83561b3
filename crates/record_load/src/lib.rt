// The session that a lent record holds.
#![tactic(auto)]

ghost use Rattle.std.specs.Prelude.{◌≡◌, ◌%◌, ◌<◌, length, false, eqb};
ghost use Rattle.protocol.specs.Bytes.{pick, signed};
ghost use Rattle.session.specs.Core.{features_from};
ghost use Rattle.record.specs.Fields.{is_one, bits_of, low, dent_from, dent2_from, ids_from, known, pending_of, session_of, step_in};
ghost use Rattle.record.specs.Record.{size, word_of, loaded};
ghost use Rattle.record_load.specs.Found.{found};
ghost use Rattle.session.specs.declared.Pending.TheVariants.{Reading, Writing};

use features::Features;
use format_flags::{FileMode, SyncFlags};
use format_number::{i64_at, u64_at};
use format_record::{DentV1, DentV2, StatV1, StatV2};
use ids::Ids;
use record::{
    CAPACITY, CLOSING, DATA_OUT, ENDED, FAIL_REST, FEATURES, FLAG, FROM, HEAD, IDLE, IDS, KEPT,
    LENT, MESSAGE, PIECE, QUIT_OUT, SIZE, STATE, STATES, TAIL, UNTIL,
};
use recv_buf::RecvBuf;
use request::Request;
use session::{Pending, Phase, Session, Version, Want};

// The i-th number of a record.
fn word(rec: &[u8; SIZE], i: u8) -> u64
    requires { i < 32 }
    ensures { result ≡ word_of rec.now i }
{
    u64_at(rec, 8 * (i as usize))
}

// ... as a place or a length.
fn place(rec: &[u8; SIZE], i: u8) -> usize
    requires { i < 32 }
    ensures { result ≡ word_of rec.now i }
{
    word(rec, i) as usize
}

// ... its low 32 bits, by a remainder: an `as` loses no bits here.
fn half(rec: &[u8; SIZE], i: u8) -> u32
    requires { i < 32 }
    ensures { result ≡ low (word_of rec.now i) }
{
    (word(rec, i) % 0x1_0000_0000) as u32
}

// ... as a signed number.
fn time(rec: &[u8; SIZE], i: u8) -> i64
    requires { i < 32 }
    ensures { result ≡ signed (word_of rec.now i) }
{
    i64_at(rec, 8 * (i as usize))
}

fn odd(n: u64) -> bool
    ensures { result ≡ is_one (n % 2) }
{
    n % 2 == 1
}

// The features whose bits are set, the first the lowest.
fn features(n: u64) -> Features
    ensures { result ≡ features_from (bits_of 7 n) }
{
    Features {
        stat_v2: odd(n),
        ls_v2: odd(n >> 1),
        sendrecv_v2: odd(n >> 2),
        brotli: odd(n >> 3),
        lz4: odd(n >> 4),
        zstd: odd(n >> 5),
        dry_run_send: odd(n >> 6),
    }
}

fn dent_v1(rec: &[u8; SIZE]) -> DentV1
    ensures { result ≡ dent_from (word_of rec.now) }
{
    let stat = StatV1 {
        mode: FileMode(half(rec, 12)),
        size: half(rec, 13),
        mtime: half(rec, 14),
    };
    DentV1 {
        stat,
        namelen: half(rec, 15),
    }
}

fn dent_v2(rec: &[u8; SIZE]) -> DentV2
    ensures { result ≡ dent2_from (word_of rec.now) }
{
    let stat = StatV2 {
        error: half(rec, 12),
        dev: word(rec, 13),
        ino: word(rec, 14),
        mode: FileMode(half(rec, 15)),
        nlink: half(rec, 16),
        uid: half(rec, 17),
        gid: half(rec, 18),
        size: word(rec, 19),
        atime: time(rec, 20),
        mtime: time(rec, 21),
        ctime: time(rec, 22),
    };
    DentV2 {
        stat,
        namelen: half(rec, 23),
    }
}

// The request of a step that writes.
fn request(rec: &[u8; SIZE], state: usize) -> Request
    requires { (state ≡ word_of rec.now 7) × ((0 < state) × (state < 12)) }
    ensures { Writing result (word_of rec.now 10) (word_of rec.now 11) ≡ pending_of (word_of rec.now) }
{
    match state {
        1 => Request::Stat,
        2 => Request::Sta2,
        3 => Request::List,
        4 => Request::Lis2,
        5 => Request::Recv,
        6 => Request::Rcv2(SyncFlags(half(rec, 13))),
        7 => Request::Send(FileMode(half(rec, 12))),
        8 => Request::Snd2(FileMode(half(rec, 12)), SyncFlags(half(rec, 13))),
        9 => Request::Data,
        10 => Request::Done(half(rec, 12)),
        _ => Request::Quit,
    }
}

// The phase of a step that reads.
fn phase(rec: &[u8; SIZE], state: usize) -> Phase
    requires { (state ≡ word_of rec.now 7) × ((12 < state) × (state < 31)) }
    ensures { Reading result (word_of rec.now 9) (is_one (word_of rec.now 8)) ≡ pending_of (word_of rec.now) }
{
    match state {
        13 => Phase::Header(Want::Stat(Version::V1)),
        14 => Phase::Header(Want::Stat(Version::V2)),
        15 => Phase::Header(Want::Entry(Version::V1)),
        16 => Phase::Header(Want::Entry(Version::V2)),
        17 => Phase::Header(Want::Chunk),
        18 => Phase::Header(Want::Okay),
        19 => Phase::Header(Want::Nothing),
        20 => Phase::Stat(Version::V1),
        21 => Phase::Stat(Version::V2),
        22 => Phase::Entry(Version::V1),
        23 => Phase::Entry(Version::V2),
        24 => Phase::Last(Version::V1),
        25 => Phase::Last(Version::V2),
        26 => Phase::NameV1(dent_v1(rec)),
        27 => Phase::NameV2(dent_v2(rec)),
        28 => Phase::Body(half(rec, 12)),
        29 => Phase::Text(half(rec, 12)),
        _ => Phase::Rest {
            left: place(rec, 12),
            text: place(rec, 13),
        },
    }
}

fn pending(rec: &[u8; SIZE]) -> Pending
    requires { word_of rec.now 7 < 31 }
    ensures { result ≡ pending_of (word_of rec.now) }
{
    let state = place(rec, STATE);
    if state == IDLE {
        return Pending::Idle;
    }
    if state < CLOSING {
        return Pending::Writing {
            request: request(rec, state),
            at: place(rec, FROM),
            piece: place(rec, PIECE),
        };
    }
    let flag = word(rec, FLAG) == 1;
    if state == CLOSING {
        return Pending::Closing {
            failed: flag,
            code: half(rec, 12),
        };
    }
    Pending::Reading {
        phase: phase(rec, state),
        until: place(rec, UNTIL),
        lost: flag,
    }
}

fn ids(rec: &[u8; SIZE]) -> Ids
    ensures { result ≡ ids_from (word_of rec.now) }
{
    Ids {
        stat: word(rec, IDS),
        list: word(rec, IDS + 1),
        send: word(rec, IDS + 2),
        recv: word(rec, IDS + 3),
        data: word(rec, IDS + 4),
        okay: word(rec, IDS + 5),
        dent: word(rec, IDS + 6),
        quit: word(rec, IDS + 7),
    }
}

fn session(rec: &[u8; SIZE]) -> Session
    requires { word_of rec.now 7 < 31 }
    ensures { result ≡ session_of (word_of rec.now) }
{
    let buf = RecvBuf {
        head: place(rec, HEAD),
        tail: place(rec, TAIL),
    };
    Session {
        capacity: place(rec, CAPACITY),
        message: place(rec, MESSAGE),
        buf,
        lent: place(rec, LENT),
        features: features(word(rec, FEATURES)),
        ids: ids(rec),
        ended: word(rec, ENDED) == 1,
        pending: pending(rec),
    }
}

// Whether the parts that the pending step comes to lie inside their slices: a path is sent from its start on, and no more of a FAIL text was
// kept than the capacity. False for a record of another length.
pub fn step_in(rec: &[u8]) -> bool
    ensures { result ≡ pick (eqb (length rec.now) size) (step_in (word_of rec.now 0) (pending_of (word_of rec.now))) false }
{
    let Some(rec) = rec.as_array() else {
        return false;
    };
    match place(rec, STATE) {
        FAIL_REST => place(rec, KEPT) <= place(rec, CAPACITY),
        IDLE | DATA_OUT => true,
        state => QUIT_OUT < state || place(rec, FROM) == 0,
    }
}

// Whether its numbers are a session's.
#[tactic(auto, unfolding(record::specs::Fields::known))]
fn known(rec: &[u8; SIZE]) -> bool
    ensures { result ≡ known (word_of rec.now) }
{
    word(rec, FEATURES) < 128
        && word(rec, ENDED) < 2
        && place(rec, STATE) < STATES
        && word(rec, FLAG) < 2
        && step_in(rec)
}

// None where it is not 256 bytes long, or its numbers are no session's.
#[tactic(auto, unfolding(record::specs::Record::loaded))]
pub fn load(rec: &[u8]) -> Option<Session>
    ensures { found result ≡ loaded rec.now }
{
    let rec: &[u8; SIZE] = rec.as_array()?;
    if known(rec) { Some(session(rec)) } else { None }
}
