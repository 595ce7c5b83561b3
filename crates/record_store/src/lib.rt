// A session into a lent record, and numbers in eight bytes each.
#![tactic(auto)]

ghost use Rattle.std.specs.Prelude.{[], ◌∷◌, ◌≡◌, ◌<◌, eqb, length};
ghost use Rattle.protocol.specs.Bytes.{pick, put, bytes_of};
ghost use Rattle.features.specs.Meaning.{listed};
ghost use Rattle.record.specs.Fields.{bit, bits, registers, request_state, request_numbers, want_state, phase_state, phase_numbers, dent_numbers, dent2_numbers, own_numbers, step_numbers, id_numbers};
ghost use Rattle.record.specs.Record.{size, words, stored};

use features::Features;
use format_number::{put_u64, put_u64s};
use format_record::{DentV1, DentV2};
use ids::Ids;
use record::SIZE;
use request::Request;
use session::{Pending, Phase, Session, Version, Want};

fn bit(b: bool) -> u64
    ensures { (result ≡ bit b) × (result < 2) }
{
    u64::from(b)
}

// The features as bits, the first the lowest.
fn feature_bits(f: Features) -> u64
    ensures { result ≡ bits (listed f) }
{
    bit(f.stat_v2)
        + 2 * bit(f.ls_v2)
        + 4 * bit(f.sendrecv_v2)
        + 8 * bit(f.brotli)
        + 16 * bit(f.lz4)
        + 32 * bit(f.zstd)
        + 64 * bit(f.dry_run_send)
}

fn request_state(request: Request) -> u64
    ensures { result ≡ request_state request }
{
    match request {
        Request::Stat => 1,
        Request::Sta2 => 2,
        Request::List => 3,
        Request::Lis2 => 4,
        Request::Recv => 5,
        Request::Rcv2(_) => 6,
        Request::Send(_) => 7,
        Request::Snd2(_, _) => 8,
        Request::Data => 9,
        Request::Done(_) => 10,
        Request::Quit => 11,
    }
}

fn want_state(want: Want) -> u64
    ensures { result ≡ want_state want }
{
    match want {
        Want::Stat(Version::V1) => 13,
        Want::Stat(Version::V2) => 14,
        Want::Entry(Version::V1) => 15,
        Want::Entry(Version::V2) => 16,
        Want::Chunk => 17,
        Want::Okay => 18,
        Want::Nothing => 19,
    }
}

fn phase_state(phase: Phase) -> u64
    ensures { result ≡ phase_state phase }
{
    match phase {
        Phase::Header(want) => want_state(want),
        Phase::Stat(Version::V1) => 20,
        Phase::Stat(Version::V2) => 21,
        Phase::Entry(Version::V1) => 22,
        Phase::Entry(Version::V2) => 23,
        Phase::Last(Version::V1) => 24,
        Phase::Last(Version::V2) => 25,
        Phase::NameV1(_) => 26,
        Phase::NameV2(_) => 27,
        Phase::Body(_) => 28,
        Phase::Text(_) => 29,
        Phase::Rest { .. } => 30,
    }
}

// Four registers; the others are 0.
fn put_registers(rec: &mut [u8], a: u64, b: u64, c: u64, d: u64)
    ensures { rec.new ≡ put rec.old 96 (words (registers (a ∷ b ∷ c ∷ d ∷ []))) }
{
    put_u64s(rec, 96, [a, b, c, d, 0, 0, 0, 0, 0, 0, 0, 0]);
}

fn put_dent_v2(rec: &mut [u8], d: DentV2)
    ensures { rec.new ≡ put rec.old 96 (words (registers (dent2_numbers d))) }
{
    let s = d.stat;
    let numbers = [
        s.error as u64,
        s.dev,
        s.ino,
        s.mode.0 as u64,
        s.nlink as u64,
        s.uid as u64,
        s.gid as u64,
        s.size,
        s.atime.cast_unsigned(),
        s.mtime.cast_unsigned(),
        s.ctime.cast_unsigned(),
        d.namelen as u64,
    ];
    put_u64s(rec, 96, numbers);
}

fn put_dent_v1(rec: &mut [u8], d: DentV1)
    ensures { rec.new ≡ put rec.old 96 (words (registers (dent_numbers d))) }
{
    let s = d.stat;
    put_registers(
        rec,
        s.mode.0 as u64,
        s.size as u64,
        s.mtime as u64,
        d.namelen as u64,
    );
}

fn put_request(rec: &mut [u8], request: Request)
    ensures { rec.new ≡ put rec.old 96 (words (registers (request_numbers request))) }
{
    match request {
        Request::Rcv2(f) => put_registers(rec, 0, f.0 as u64, 0, 0),
        Request::Send(m) => put_registers(rec, m.0 as u64, 0, 0, 0),
        Request::Snd2(m, f) => put_registers(rec, m.0 as u64, f.0 as u64, 0, 0),
        Request::Done(t) => put_registers(rec, t as u64, 0, 0, 0),
        _ => put_registers(rec, 0, 0, 0, 0),
    }
}

fn put_phase(rec: &mut [u8], phase: Phase)
    ensures { rec.new ≡ put rec.old 96 (words (registers (phase_numbers phase))) }
{
    match phase {
        Phase::Header(_) | Phase::Stat(_) | Phase::Entry(_) | Phase::Last(_) => {
            put_registers(rec, 0, 0, 0, 0)
        }
        Phase::NameV1(d) => put_dent_v1(rec, d),
        Phase::NameV2(d) => put_dent_v2(rec, d),
        Phase::Body(n) | Phase::Text(n) => put_registers(rec, n as u64, 0, 0, 0),
        Phase::Rest { left, text } => put_registers(rec, left as u64, text as u64, 0, 0),
    }
}

// The session's own numbers.
fn put_own(rec: &mut [u8], s: Session)
    ensures { rec.new ≡ put rec.old 0 (words (own_numbers s)) }
{
    let numbers = [
        s.capacity as u64,
        s.message as u64,
        s.buf.head as u64,
        s.buf.tail as u64,
        s.lent as u64,
        feature_bits(s.features),
        bit(s.ended),
    ];
    put_u64s(rec, 0, numbers);
}

// The pending step's state, flag, until, from and piece.
fn put_state(rec: &mut [u8], state: u64, flag: u64, until: usize, from: usize, piece: usize)
    ensures { rec.new ≡ put rec.old 56 (words (state ∷ flag ∷ until ∷ from ∷ piece ∷ [])) }
{
    let numbers = [state, flag, until as u64, from as u64, piece as u64];
    put_u64s(rec, 56, numbers);
}

fn put_pending(rec: &mut [u8], pending: Pending)
    requires { length rec.old ≡ size }
    ensures { rec.new ≡ put rec.old 56 (words (step_numbers pending)) }
{
    match pending {
        Pending::Idle => {
            put_state(rec, 0, 0, 0, 0, 0);
            put_registers(rec, 0, 0, 0, 0);
        }
        Pending::Reading { phase, until, lost } => {
            put_state(rec, phase_state(phase), bit(lost), until, 0, 0);
            put_phase(rec, phase);
        }
        Pending::Writing { request, at, piece } => {
            put_state(rec, request_state(request), 0, 0, at, piece);
            put_request(rec, request);
        }
        Pending::Closing { failed, code } => {
            put_state(rec, 12, bit(failed), 0, 0, 0);
            put_registers(rec, code as u64, 0, 0, 0);
        }
    }
}

// The ids behind them.
fn put_ids(rec: &mut [u8], t: Ids)
    ensures { rec.new ≡ put rec.old 192 (words (id_numbers t)) }
{
    let numbers = [
        t.stat, t.list, t.send, t.recv, t.data, t.okay, t.dent, t.quit,
    ];
    put_u64s(rec, 192, numbers);
}

// The session into a record of 256 bytes; a record of another length is left alone.
pub fn store(s: Session, rec: &mut [u8])
    ensures { rec.new ≡ pick (eqb (length rec.old) size) (stored s) rec.old }
{
    if rec.len() == SIZE {
        put_own(rec, s);
        put_pending(rec, s.pending);
        put_ids(rec, s.ids);
    }
}

// Another tail, and nothing else.
pub fn store_tail(rec: &mut [u8], tail: usize)
    ensures { rec.new ≡ put rec.old 24 (bytes_of 8 tail) }
{
    put_u64(rec, 24, tail as u64);
}
