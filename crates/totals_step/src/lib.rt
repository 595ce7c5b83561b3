// A session with totals in a lent record of 296 bytes (document 02, [7] and [8]): a step of the session inside, the totals behind it, and the reads of a call.
#![tactic(auto)]

ghost use Rattle.std.specs.Prelude.{◌≡◌, ◌+◌, ◌%◌, ◌≤◌, ◌&&◌, ◌||◌, length, take, nat_le};
ghost use Rattle.record.specs.Record.{loaded, size};
ghost use Rattle.boundary.specs.Crossing.{crossed};
ghost use Rattle.boundary.specs.Told.{out_size};
ghost use Rattle.boundary_step.specs.Opened.{open_crossed};
ghost use Rattle.totals.specs.Crossing.{record_size, limit, refuses, counted, total_open, total_start, total_read, total_wrote, total_fault};
ghost use Rattle.totals_taken.specs.Taken.{takes_read, takes_wrote};
ghost use Rattle.totals_step.specs.Settled.{asked_by, room_for, Stands, consumed_in, finished_by};

use boundary::REPLY;
use boundary_step::{session_fault, session_open, session_read, session_start, session_wrote};
use format_number::{put_u64, put_u64s, u64_at};
use record::SIZE;
use std::num::{wrapping_add_u64, wrapping_sub_u64};
use totals_taken::{takes_read, takes_wrote};

// The length of a record: the session's bytes, and five numbers.
const CARD: usize = 296;

// Where the numbers lie: the bytes received, consumed and written, the length of the piece that was last asked to be written, and the reads of the call.
const RECEIVED: usize = 256;

const CONSUMED: usize = 264;

const WRITTEN: usize = 272;

const ASKED: usize = 280;

const READS: usize = 288;

// Where the reads of a call lie in a reply that tells its answer.
const COUNT: usize = 112;

// Where the session's head and tail lie: it holds the bytes between them.
const HEAD: usize = 16;

const TAIL: usize = 24;

// What is returned for answer 3, to a record of another length, and for 21, to a total that would pass the largest: the numbers that cross to C, which also
// lends each slice by itself.
const AWAY: u32 = 768;

const OVER: u32 = 5376;

// A reply's kind where an answer is none of the others.
const OTHER: u64 = 7;

// A number that is returned is what is asked, and this times the answer. What is asked is a write from the first of these on, by the second of bytes that stand in
// the reply.
const ANSWER: u32 = 256;

const WRITES: u32 = 2;

const WRITES_BYTES: u32 = 4;

// One more than the last answer that refuses.
const REFUSALS: u32 = 12;

// The length of a number in a reply.
const WORD: usize = 8;

// Whether one of 1 to 11 is told.
fn refuses(n: u32) -> bool
    ensures { result ≡ refuses n }
{
    let k = n / ANSWER;
    0 < k && k < REFUSALS
}

// The length of the piece that is asked to be written; a close has 0 bytes, as `asked_by` has it.
fn piece_len(n: u32, out: &[u8]) -> u64
    requires { (out_size ≤ length out.now) × (2 ≤ n % 256) × Stands n out.now }
    ensures { result ≡ asked_by n out.now 0 }
{
    match n % ANSWER {
        WRITES..WRITES_BYTES => u64_at(out, WORD),
        WRITES_BYTES => u64_at(out, 0),
        _ => 0,
    }
}

// Puts the bytes consumed: those received, as they stand, less what the session holds.
fn consume(rec: &mut [u8])
    requires { length rec.old ≡ record_size }
    ensures { rec.new ≡ consumed_in rec.old }
{
    let all = wrapping_add_u64(u64_at(rec, RECEIVED), u64_at(rec, HEAD));
    let consumed = wrapping_sub_u64(all, u64_at(rec, TAIL));
    put_u64(rec, CONSUMED, consumed);
}

// What a step that was taken leaves: the reads of the call, in the record and in a reply that tells its answer; the bytes consumed; and the length of the piece
// that is asked to be written.
fn finish(rec: &mut [u8], n: u32, reads: u64, out: &mut [u8])
    requires { (length rec.old ≡ record_size) × (out_size ≤ length out.old) × Stands n out.old }
    ensures { (rec.new ≡ finished_by rec.old n reads out.old) × (out.new ≡ counted n reads out.old) }
{
    put_u64(rec, READS, reads);
    consume(rec);
    let what = n % ANSWER;
    if what == 0 {
        put_u64(out, COUNT, reads);
        return;
    }
    if what < WRITES {
        return;
    }
    put_u64(rec, ASKED, piece_len(n, out));
}

// Puts k into a reply that tells an answer; any other is left alone.
fn put_count(n: u32, k: u64, out: &mut [u8])
    ensures { out.new ≡ counted n k out.old }
{
    if n % ANSWER == 0 {
        put_u64(out, COUNT, k);
    }
}

// A refusal has no reads.
pub fn refused(n: u32, out: &mut [u8]) -> u32
    ensures { (result ≡ n) × (out.new ≡ counted n 0 out.old) }
{
    put_count(n, 0, out);
    n
}

// Whether count bytes more pass the largest total, or one read more does.
fn passes(before: u64, count: u64, reads: u64) -> bool
    ensures { result ≡ (nat_le limit (before + count) || nat_le limit (reads + 1)) }
{
    before.checked_add(count).is_none() || reads == u64::MAX
}

// Whether a read that the session would take, with such a slice for its reply, brings the bytes received or the reads past the largest total.
fn over_read(
    rec: &[u8],
    before: u64,
    reads: u64,
    rx: usize,
    msg: usize,
    lent: usize,
    count: usize,
    out: usize,
) -> bool
    requires { length rec.now ≡ record_size }
    ensures { result ≡ ((nat_le limit (before + count) || nat_le limit (reads + 1)) && room_for out (takes_read (loaded (take size rec.now)) rx msg lent count)) }
{
    passes(before, count as u64, reads)
        && takes_read(&rec[..SIZE], rx, msg, lent, count)
        && REPLY <= out
}

// The same of a piece of that length that is out, and the bytes written.
fn over_wrote(
    rec: &[u8],
    before: u64,
    asked: u64,
    rx: usize,
    msg: usize,
    lent: usize,
    out: usize,
) -> bool
    requires { length rec.now ≡ record_size }
    ensures { result ≡ (nat_le limit (before + asked) && room_for out (takes_wrote (loaded (take size rec.now)) rx msg lent)) }
{
    before.checked_add(asked).is_none() && takes_wrote(&rec[..SIZE], rx, msg, lent) && REPLY <= out
}

// Opens a session in the front of the record, with all totals 0, and answers as its opening does, which is lent nothing of a record of another
// length; a refusal leaves it alone.
pub fn total_open(rec: &mut [u8], settings: &[u8], banner: &[u8], rx: usize, msg: usize) -> u32
    ensures { open_crossed rec.new result ≡ total_open rec.old settings.now banner.now rx msg }
{
    if rec.len() != CARD {
        return session_open(&mut rec[..0], settings, banner, rx, msg);
    }
    let n = session_open(&mut rec[..SIZE], settings, banner, rx, msg);
    if n == 0 {
        put_u64s(rec, RECEIVED, [0, 0, 0, 0]);
        put_u64(rec, READS, 0);
        return 0;
    }
    n
}

// Starts a call: no total is added to, and the call has no reads yet.
pub fn total_start(
    rec: &mut [u8],
    rx: &mut [u8],
    msg: &mut [u8],
    lent: &[u8],
    call: u32,
    a: u32,
    b: u32,
    out: &mut [u8],
) -> u32
    ensures { crossed rec.new rx.new msg.new out.new result ≡ total_start rec.old rx.old msg.old lent.now call a b out.old }
{
    if rec.len() != CARD {
        return refused(AWAY, out);
    }
    let n = session_start(&mut rec[..SIZE], rx, msg, lent, call, a, b, out);
    if refuses(n) {
        return refused(n, out);
    }
    finish(rec, n, 0, out);
    n
}

// count bytes were read into the window, and are added to those received; the call has one read more. 21 where either would pass the largest total, behind
// what the session refuses; nothing is altered then.
pub fn total_read(
    rec: &mut [u8],
    rx: &mut [u8],
    msg: &mut [u8],
    lent: &[u8],
    count: usize,
    out: &mut [u8],
) -> u32
    ensures { crossed rec.new rx.new msg.new out.new result ≡ total_read rec.old rx.old msg.old lent.now count out.old }
{
    if rec.len() != CARD {
        return refused(AWAY, out);
    }
    let before = u64_at(rec, RECEIVED);
    let reads = u64_at(rec, READS);
    if over_read(
        rec,
        before,
        reads,
        rx.len(),
        msg.len(),
        lent.len(),
        count,
        out.len(),
    ) {
        put_u64s(out, 0, [OTHER, 0, 0]);
        return refused(OVER, out);
    }
    let n = session_read(&mut rec[..SIZE], rx, msg, lent, count, out);
    if refuses(n) {
        return refused(n, out);
    }
    let received = before + count as u64;
    let more = reads + 1;
    put_u64(rec, RECEIVED, received);
    finish(rec, n, more, out);
    n
}

// The write or the close that was asked for was accepted: the length of its piece is added to the bytes written, a close adds 0. 21 likewise.
pub fn total_wrote(
    rec: &mut [u8],
    rx: &mut [u8],
    msg: &mut [u8],
    lent: &[u8],
    out: &mut [u8],
) -> u32
    ensures { crossed rec.new rx.new msg.new out.new result ≡ total_wrote rec.old rx.old msg.old lent.now out.old }
{
    if rec.len() != CARD {
        return refused(AWAY, out);
    }
    let before = u64_at(rec, WRITTEN);
    let asked = u64_at(rec, ASKED);
    if over_wrote(
        rec,
        before,
        asked,
        rx.len(),
        msg.len(),
        lent.len(),
        out.len(),
    ) {
        put_u64s(out, 0, [OTHER, 0, 0]);
        return refused(OVER, out);
    }
    let n = session_wrote(&mut rec[..SIZE], rx, msg, lent, out);
    if refuses(n) {
        return refused(n, out);
    }
    let written = before + asked;
    put_u64(rec, WRITTEN, written);
    let reads = u64_at(rec, READS);
    finish(rec, n, reads, out);
    n
}

// What was asked for came to a fault: no total is added to.
pub fn total_fault(
    rec: &mut [u8],
    rx: &mut [u8],
    msg: &mut [u8],
    lent: &[u8],
    kind: u32,
    code: u32,
    out: &mut [u8],
) -> u32
    ensures { crossed rec.new rx.new msg.new out.new result ≡ total_fault rec.old rx.old msg.old lent.now kind code out.old }
{
    if rec.len() != CARD {
        return refused(AWAY, out);
    }
    let n = session_fault(&mut rec[..SIZE], rx, msg, lent, kind, code, out);
    if refuses(n) {
        return refused(n, out);
    }
    let reads = u64_at(rec, READS);
    finish(rec, n, reads, out);
    n
}
