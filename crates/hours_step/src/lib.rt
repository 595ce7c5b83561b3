// A session with totals and hours in a lent record of 328 bytes (document 02, [10]): a step of the session with totals inside, the hours it opened with behind it.
#![tactic(auto)]

ghost use Rattle.std.specs.Prelude.{◌&&◌, not, ◌≡◌, eqb, length, take};
ghost use Rattle.protocol.specs.Hours.{lets};
ghost use Rattle.boundary.specs.Crossing.{crossed};
ghost use Rattle.boundary_step.specs.Opened.{open_crossed};
ghost use Rattle.hours.specs.Settings.{hours_bytes_in, is_hours};
ghost use Rattle.hours_taken.specs.Taken.{takes_push};
ghost use Rattle.hours_totals.specs.Crossing.{timed_size, hours_at, starts_push, timed_open, timed_start, timed_read, timed_wrote, timed_fault};
ghost use Rattle.hours_step.specs.Opening.{refused_anyway};
ghost use Rattle.id_table.specs.Settings.{settings_size};
ghost use Rattle.record.specs.Record.{loaded, size};
ghost use Rattle.totals_step.specs.Settled.{room_for};

use boundary::REPLY;
use format_number::{put_bytes, put_u64s};
use hours::{END, PLACE, is_hours, lets_in};
use hours_taken::takes_push;
use id_table::{SETTINGS, table_in};
use record::SIZE;
use session_calls::check_open;
use totals_step::{refused, total_fault, total_open, total_read, total_start, total_wrote};

// The length of a record, and where its hours lie.
const TIMED: usize = 328;

const HOURS: usize = 296;

// The numbers of the calls that start a push.
const SEND: u32 = 7;

const SND2: u32 = 8;

// What is returned for answer 3, to a record of another length, and for 25, to a push start outside the hours: the numbers that cross to C, which also lends
// each slice by itself.
const AWAY: u32 = 768;

const CLOSED: u32 = 6400;

// The answer to settings whose bytes of hours are none that loading leaves.
const BAD_HOURS: u32 = 24;

// A reply's kind where an answer is none of the others.
const OTHER: u64 = 7;

// Whether a call starts a push, and at a moment outside the hours. Without hours, which their first byte tells, nothing else is asked.
fn outside(rec: &[u8], call: u32, moment: u32) -> bool
    requires { length rec.now ≡ timed_size }
    ensures { result ≡ (not (lets (hours_at rec.now) moment) && starts_push call) }
{
    if rec[HOURS] == 0 {
        return false;
    }
    if call == SEND {
        return !lets_in(&rec[HOURS..], moment);
    }
    if call == SND2 {
        return !lets_in(&rec[HOURS..], moment);
    }
    false
}

// Whether such a call would be taken but for the hours; rx, msg and out are the lengths of what is lent with it.
fn turned_away(
    rec: &[u8],
    rx: usize,
    msg: usize,
    lent: &[u8],
    call: u32,
    a: u32,
    b: u32,
    moment: u32,
    out: usize,
) -> bool
    requires { length rec.now ≡ timed_size }
    ensures { result ≡ ((not (lets (hours_at rec.now) moment) && starts_push call) && room_for out (takes_push (loaded (take size rec.now)) rx msg lent.now call a b)) }
{
    if outside(rec, call, moment) {
        if takes_push(&rec[..SIZE], rx, msg, lent, call, a, b) {
            return REPLY <= out;
        }
        return false;
    }
    false
}

// Whether the bytes of hours in settings are none that loading leaves.
fn lacks_hours(settings: &[u8]) -> bool
    ensures { result ≡ (eqb (length settings.now) settings_size && not (is_hours (hours_bytes_in settings.now))) }
{
    if settings.len() != SETTINGS {
        return false;
    }
    !is_hours(&settings[PLACE..END])
}

// What an opening with such settings answers: 1, 2, 22 or 23, and else 24.
fn without_hours(settings: &[u8], rx: usize, msg: usize) -> u32
    ensures { result ≡ refused_anyway settings.now rx msg }
{
    if let Err(misuse) = check_open(rx, msg) {
        return misuse.number() as u32;
    }
    match table_in(settings) {
        Err(why) => why.number(),
        Ok(_) => BAD_HOURS,
    }
}

// Opens a session with totals in the front of the record, and copies the hours of the settings behind it. It answers as that opening does, which is
// lent nothing of a record of another length; then 24, for other hours; a refusal leaves the record alone.
pub fn timed_open(rec: &mut [u8], settings: &[u8], banner: &[u8], rx: usize, msg: usize) -> u32
    ensures { open_crossed rec.new result ≡ timed_open rec.old settings.now banner.now rx msg }
{
    if rec.len() != TIMED {
        return total_open(&mut rec[..0], settings, banner, rx, msg);
    }
    if lacks_hours(settings) {
        return without_hours(settings, rx, msg);
    }
    let n = total_open(&mut rec[..HOURS], settings, banner, rx, msg);
    if n == 0 {
        put_bytes(rec, HOURS, &settings[PLACE..END]);
        return 0;
    }
    n
}

// Starts a call. A push start outside the hours is 25, behind what the session refuses; nothing is altered then.
pub fn timed_start(
    rec: &mut [u8],
    rx: &mut [u8],
    msg: &mut [u8],
    lent: &[u8],
    call: u32,
    a: u32,
    b: u32,
    moment: u32,
    out: &mut [u8],
) -> u32
    ensures { crossed rec.new rx.new msg.new out.new result ≡ timed_start rec.old rx.old msg.old lent.now call a b moment out.old }
{
    if rec.len() != TIMED {
        return refused(AWAY, out);
    }
    if turned_away(
        rec,
        rx.len(),
        msg.len(),
        lent,
        call,
        a,
        b,
        moment,
        out.len(),
    ) {
        put_u64s(out, 0, [OTHER, 0, 0]);
        return refused(CLOSED, out);
    }
    total_start(&mut rec[..HOURS], rx, msg, lent, call, a, b, out)
}

// count bytes were read into the window.
pub fn timed_read(
    rec: &mut [u8],
    rx: &mut [u8],
    msg: &mut [u8],
    lent: &[u8],
    count: usize,
    out: &mut [u8],
) -> u32
    ensures { crossed rec.new rx.new msg.new out.new result ≡ timed_read rec.old rx.old msg.old lent.now count out.old }
{
    if rec.len() != TIMED {
        return refused(AWAY, out);
    }
    total_read(&mut rec[..HOURS], rx, msg, lent, count, out)
}

// The write or the close that was asked for was accepted.
pub fn timed_wrote(
    rec: &mut [u8],
    rx: &mut [u8],
    msg: &mut [u8],
    lent: &[u8],
    out: &mut [u8],
) -> u32
    ensures { crossed rec.new rx.new msg.new out.new result ≡ timed_wrote rec.old rx.old msg.old lent.now out.old }
{
    if rec.len() != TIMED {
        return refused(AWAY, out);
    }
    total_wrote(&mut rec[..HOURS], rx, msg, lent, out)
}

// What was asked for came to a fault.
pub fn timed_fault(
    rec: &mut [u8],
    rx: &mut [u8],
    msg: &mut [u8],
    lent: &[u8],
    kind: u32,
    code: u32,
    out: &mut [u8],
) -> u32
    ensures { crossed rec.new rx.new msg.new out.new result ≡ timed_fault rec.old rx.old msg.old lent.now kind code out.old }
{
    if rec.len() != TIMED {
        return refused(AWAY, out);
    }
    total_fault(&mut rec[..HOURS], rx, msg, lent, kind, code, out)
}
