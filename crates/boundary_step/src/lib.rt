// A session in a lent record of 256 bytes: opening, and its steps, by a fast path where one can be taken and else by the slow one.
#![tactic(auto)]

ghost use Rattle.std.specs.Prelude.{◌≡◌, length};
ghost use Rattle.boundary.specs.Crossing.{crossed, cross_open, cross_start, cross_read, cross_wrote, cross_fault};
ghost use Rattle.record.specs.Record.{loaded};
ghost use Rattle.fast_read.specs.Short.{short_in};
ghost use Rattle.boundary_step.specs.Opened.{open_crossed};

use boundary::REPLY;
use boundary_slow_path::{slow_fault, slow_read, slow_start, slow_wrote};
use fast_pull::{body, header, next};
use fast_push::{header_out, part_out, whole_out};
use fast_read::short_tail;
use fast_replies::{entry, stat};
use fast_request::request;
use fast_sent::sent;
use format_number::put_u64s;
use id_table::table_in;
use record::SIZE;
use record_store::{store, store_tail};
use session_calls::{check_open, fresh};

// The answer to a record of another length: a number, as it crosses to C.
const OTHER_LENGTH: u32 = 3;

// What a step that takes a fast path asks or tells, by the numbers of the C interface, which also gives each step its slices apart.
const TOLD: u32 = 0;

const READ: u32 = 1;

const WRITE_RX: u32 = 2;

const WRITE_LENT: u32 = 3;

const WRITE_BYTES: u32 = 4;

// Opens a session in the record, with the ids of the settings: 0, or 1 or 2, or 3 for a record or settings of another length, or 22 or 23 for
// settings without ids; a refusal leaves it alone.
pub fn session_open(rec: &mut [u8], settings: &[u8], banner: &[u8], rx: usize, msg: usize) -> u32
    ensures { open_crossed rec.new result ≡ cross_open rec.old settings.now banner.now rx msg }
{
    if let Err(misuse) = check_open(rx, msg) {
        return misuse.number() as u32;
    }
    if rec.len() != SIZE {
        return OTHER_LENGTH;
    }
    match table_in(settings) {
        Err(why) => why.number(),
        Ok(ids) => {
            let s = fresh(banner, ids, rx, msg);
            store(s, rec);
            0
        }
    }
}

// The next chunk of a pull, by its fast path where it can be; any other call by the slow one.
fn start_next(
    rec: &mut [u8],
    rx: &mut [u8],
    msg: &mut [u8],
    lent: &[u8],
    call: u32,
    a: u32,
    b: u32,
    out: &mut [u8],
) -> u32
    ensures { crossed rec.new rx.new msg.new out.new result ≡ cross_start rec.old rx.old msg.old lent.now call a b out.old }
{
    if next(rec, rx, msg, lent, call, out) {
        return READ;
    }
    slow_start(rec, rx, msg, lent, call, a, b, out)
}

// Starts a call by its number, 1 to 14: a is its mode or its time, b its flags. What can be taken on the record's numbers takes a fast path.
pub fn session_start(
    rec: &mut [u8],
    rx: &mut [u8],
    msg: &mut [u8],
    lent: &[u8],
    call: u32,
    a: u32,
    b: u32,
    out: &mut [u8],
) -> u32
    ensures { crossed rec.new rx.new msg.new out.new result ≡ cross_start rec.old rx.old msg.old lent.now call a b out.old }
{
    if entry(rec, rx, msg, lent, call, out) {
        return TOLD;
    }
    if request(rec, rx, msg, lent, call, out) {
        return WRITE_RX;
    }
    start_next(rec, rx, msg, lent, call, a, b, out)
}

// count bytes were read that leave no need short: of a chunk, by its fast path where it can be.
fn read_met(
    rec: &mut [u8],
    rx: &mut [u8],
    msg: &mut [u8],
    lent: &[u8],
    count: usize,
    out: &mut [u8],
) -> u32
    requires { 0 ≡ short_in (loaded rec.old) (length rx.old) (length msg.old) (length lent.now) count }
    ensures { crossed rec.new rx.new msg.new out.new result ≡ cross_read rec.old rx.old msg.old lent.now count out.old }
{
    if body(rec, rx, msg, lent, count, out) {
        return TOLD;
    }
    if header(rec, rx, msg, lent, count, out) {
        return READ;
    }
    slow_read(rec, rx, msg, lent, count, out)
}

// count bytes were read into the window. Where they leave the need short, only tail is loaded and stored.
fn read_short(
    rec: &mut [u8],
    rx: &mut [u8],
    msg: &mut [u8],
    lent: &[u8],
    count: usize,
    out: &mut [u8],
) -> u32
    ensures { crossed rec.new rx.new msg.new out.new result ≡ cross_read rec.old rx.old msg.old lent.now count out.old }
{
    let Some(tail) = short_tail(rec, rx.len(), msg.len(), lent.len(), count) else {
        return read_met(rec, rx, msg, lent, count, out);
    };
    if out.len() < REPLY {
        return slow_read(rec, rx, msg, lent, count, out);
    }
    let len = rx.len() - tail;
    store_tail(rec, tail);
    put_u64s(out, 0, [tail as u64, len as u64]);
    READ
}

// count bytes were read into the window. A stat's reply that they complete takes a fast path too.
pub fn session_read(
    rec: &mut [u8],
    rx: &mut [u8],
    msg: &mut [u8],
    lent: &[u8],
    count: usize,
    out: &mut [u8],
) -> u32
    ensures { crossed rec.new rx.new msg.new out.new result ≡ cross_read rec.old rx.old msg.old lent.now count out.old }
{
    if stat(rec, rx, msg, lent, count, out) {
        return TOLD;
    }
    read_short(rec, rx, msg, lent, count, out)
}

// The write or the close that was asked for was accepted: of DATA, by its fast path where it can be.
fn wrote_data(rec: &mut [u8], rx: &mut [u8], msg: &mut [u8], lent: &[u8], out: &mut [u8]) -> u32
    ensures { crossed rec.new rx.new msg.new out.new result ≡ cross_wrote rec.old rx.old msg.old lent.now out.old }
{
    if part_out(rec, rx, msg, lent, out) {
        return WRITE_LENT;
    }
    if header_out(rec, rx, msg, lent, out) {
        return WRITE_BYTES;
    }
    if whole_out(rec, rx, msg, lent, out) {
        return WRITE_RX;
    }
    slow_wrote(rec, rx, msg, lent, out)
}

// The same. A stat whose message is out awaits its reply by a fast path.
pub fn session_wrote(
    rec: &mut [u8],
    rx: &mut [u8],
    msg: &mut [u8],
    lent: &[u8],
    out: &mut [u8],
) -> u32
    ensures { crossed rec.new rx.new msg.new out.new result ≡ cross_wrote rec.old rx.old msg.old lent.now out.old }
{
    if sent(rec, rx, msg, lent, out) {
        return READ;
    }
    wrote_data(rec, rx, msg, lent, out)
}

// What was asked for came to a fault: kind 0 closed, any other an error with its code.
pub fn session_fault(
    rec: &mut [u8],
    rx: &mut [u8],
    msg: &mut [u8],
    lent: &[u8],
    kind: u32,
    code: u32,
    out: &mut [u8],
) -> u32
    ensures { crossed rec.new rx.new msg.new out.new result ≡ cross_fault rec.old rx.old msg.old lent.now kind code out.old }
{
    slow_fault(rec, rx, msg, lent, kind, code, out)
}
