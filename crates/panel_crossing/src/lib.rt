// The panel's side as it crosses to a host: a reply by its number and its numbers, and a request that was heard, in numbers.
#![tactic(auto)]

ghost use Rattle.std.specs.Prelude.{true, ◌&&◌, List, [], ◌∷◌, ◌≡◌, ℕ, ◌+◌, ◌*◌, ◌≤◌, leb, length, take, drop};
ghost use Rattle.boundary.specs.Heard.{at};
ghost use Rattle.format_record.specs.Told.{told_stat, told_stat2};
ghost use Rattle.ids.specs.Ids.{dialect_of};
ghost use Rattle.panel_reply.specs.Replies.{fits32};
ghost use Rattle.panel_writer.specs.Meaning.{meant};
ghost use Rattle.protocol.specs.Bytes.{put, signed};
ghost use Rattle.protocol.specs.Records.{header_size};
ghost use Rattle.protocol.specs.Requests.{read_request};
ghost use Rattle.record.specs.Record.{words};
ghost use Rattle.request.specs.Meaning as Heard;
ghost use Rattle.panel_crossing.specs.Given.{given};
ghost use Rattle.panel_side.specs.Crossing.{stat_room, stat2_room, stat_in, stat2_in, stat_narrow, stat2_narrow, reply_numbered, spoke, saying, if_given, cross_speak, request_words, hearing, sliced, cross_heard};

use boundary::REPLY;
use format_flags::FileMode;
use format_number::{i64_at, put_u64, put_u64s, u64_at};
use format_record::{HEADER_SIZE, StatV1, StatV2};
use id_table::table_in;
use ids::Ids;
use panel_writer::{Reply, speak};
use request::Request;
use request_reader::{Unread, read_request};

// The answers: a slice too short, a kind that is none, numbers that are not all there or too large; bytes that are no request; a reply that is
// not taken.
const MISPLACED: u32 = 3;

const BAD_REQUEST: u32 = 18;

const LONG_REPLY: u32 = 20;

// A reply by its kind, the number that crosses from C: 0 to 6 are those of a told reply.
const OKAY: u32 = 0;

const TRANSFER_END: u32 = 1;

const STAT: u32 = 2;

const STAT_V2: u32 = 3;

const ENTRY: u32 = 4;

const ENTRY_V2: u32 = 5;

const CHUNK: u32 = 6;

const FAIL: u32 = 7;

const LISTING_END: u32 = 8;

const LISTING_END_V2: u32 = 9;

// Three numbers of a stat, eleven of a stat of v2.
const STAT_ROOM: usize = 24;

const STAT_V2_ROOM: usize = 88;

// Where a path or data starts in the bytes of a request: behind the header.
const START: u64 = 8;

// A field of 32 bits is below.
const NARROW: u64 = 0x1_0000_0000;

// How many of the n bytes behind the header are there.
fn lent_len(bytes: &[u8], n: usize) -> usize
    ensures { result ≡ length (take n (drop header_size bytes.now)) }
{
    if bytes.len() < HEADER_SIZE {
        return 0;
    }
    let rest = bytes.len() - HEADER_SIZE;
    if rest < n {
        return rest;
    }
    n
}

// A request by the number of its call, with its path or data as the part of the bytes behind the header.
fn put_request(out: &mut [u8], bytes: &[u8], request: Request, lent: usize, size: usize)
    ensures { out.new ≡ put out.old 0 (words (request_words (Heard.meant request (take lent (drop header_size bytes.now))) size)) }
{
    let n = lent_len(bytes, lent) as u64;
    let all = size as u64;
    let numbers = match request {
        Request::Stat => [1, START, n, 0, 0, all],
        Request::Sta2 => [2, START, n, 0, 0, all],
        Request::List => [3, START, n, 0, 0, all],
        Request::Lis2 => [4, START, n, 0, 0, all],
        Request::Recv => [5, START, n, 0, 0, all],
        Request::Rcv2(flags) => [6, START, n, 0, flags.0 as u64, all],
        Request::Send(mode) => [7, START, n, mode.0 as u64, 0, all],
        Request::Snd2(mode, flags) => [8, START, n, mode.0 as u64, flags.0 as u64, all],
        Request::Data => [9, START, n, 0, 0, all],
        Request::Done(mtime) => [10, START, 0, mtime as u64, 0, all],
        Request::Quit => [11, START, 0, 0, 0, all],
    };
    put_u64s(out, 0, numbers);
}

// The request at the front of the bytes, by the ids: 0, or 18 and out is left alone.
fn hear_request(ids: Ids, bytes: &[u8], out: &mut [u8]) -> u32
    ensures { sliced out.new result ≡ hearing out.old (read_request (dialect_of ids) bytes.now) }
{
    match read_request(ids, bytes) {
        Ok(heard) => {
            put_request(out, bytes, heard.request, heard.lent, heard.size);
            0
        }
        Err(Unread::More) => {
            put_u64s(out, 0, [0; 6]);
            0
        }
        Err(Unread::Refused) => BAD_REQUEST,
    }
}

// The request at the front of the bytes, in six numbers: 0, or 3, 22 or 23, or 18; any other than 0 leaves out alone.
pub fn hear(settings: &[u8], bytes: &[u8], out: &mut [u8]) -> u32
    ensures { sliced out.new result ≡ cross_heard settings.now bytes.now out.old }
{
    if out.len() < REPLY {
        return MISPLACED;
    }
    match table_in(settings) {
        Err(why) => why.number(),
        Ok(ids) => hear_request(ids, bytes, out),
    }
}

// Whether the number i has 32 bits. (A slice and i, since `at` of boundary/specs/Heard reads a number of a slice.)
fn is_narrow(numbers: &[u8], i: usize) -> bool
    requires { 8 * i + 8 ≤ length numbers.now }
    ensures { result ≡ fits32 (at numbers.now i) }
{
    u64_at(numbers, 8 * i) < NARROW
}

// Whether the three numbers of a stat are there and fit their fields.
fn has_stat(numbers: &[u8]) -> bool
    ensures { result ≡ (leb stat_room (length numbers.now) && stat_narrow (stat_in numbers.now)) }
{
    STAT_ROOM <= numbers.len()
        && is_narrow(numbers, 0)
        && is_narrow(numbers, 1)
        && is_narrow(numbers, 2)
}

// The same of the eleven of a stat of v2, five of them of 32 bits.
fn has_stat_v2(numbers: &[u8]) -> bool
    ensures { result ≡ (leb stat2_room (length numbers.now) && stat2_narrow (stat2_in numbers.now)) }
{
    STAT_V2_ROOM <= numbers.len()
        && is_narrow(numbers, 0)
        && is_narrow(numbers, 3)
        && is_narrow(numbers, 4)
        && is_narrow(numbers, 5)
        && is_narrow(numbers, 6)
}

// The number i: of 32 bits, of 64, and as a time.
fn narrow(numbers: &[u8], i: usize) -> u32
    requires { (8 * i + 8 ≤ length numbers.now) × (fits32 (at numbers.now i) ≡ true) }
    ensures { result ≡ at numbers.now i }
{
    u64_at(numbers, 8 * i) as u32
}

fn wide(numbers: &[u8], i: usize) -> u64
    requires { 8 * i + 8 ≤ length numbers.now }
    ensures { result ≡ at numbers.now i }
{
    u64_at(numbers, 8 * i)
}

fn time(numbers: &[u8], i: usize) -> i64
    requires { 8 * i + 8 ≤ length numbers.now }
    ensures { result ≡ signed (at numbers.now i) }
{
    i64_at(numbers, 8 * i)
}

// A stat by its numbers, and one of v2.
fn stat_in(numbers: &[u8]) -> StatV1
    requires { (leb stat_room (length numbers.now) && stat_narrow (stat_in numbers.now)) ≡ true }
    ensures { told_stat result ≡ stat_in numbers.now }
{
    StatV1 {
        mode: FileMode(narrow(numbers, 0)),
        size: narrow(numbers, 1),
        mtime: narrow(numbers, 2),
    }
}

fn stat_v2_in(numbers: &[u8]) -> StatV2
    requires { (leb stat2_room (length numbers.now) && stat2_narrow (stat2_in numbers.now)) ≡ true }
    ensures { told_stat2 result ≡ stat2_in numbers.now }
{
    StatV2 {
        error: narrow(numbers, 0),
        dev: wide(numbers, 1),
        ino: wide(numbers, 2),
        mode: FileMode(narrow(numbers, 3)),
        nlink: narrow(numbers, 4),
        uid: narrow(numbers, 5),
        gid: narrow(numbers, 6),
        size: wide(numbers, 7),
        atime: time(numbers, 8),
        mtime: time(numbers, 9),
        ctime: time(numbers, 10),
    }
}

// The reply of a kind and its numbers, if there is one.
fn reply_numbered(kind: u32, numbers: &[u8]) -> Option<Reply>
    ensures { (lent : List ℕ) → given result lent ≡ reply_numbered kind numbers.now lent }
{
    match kind {
        OKAY => Some(Reply::Okay),
        TRANSFER_END => Some(Reply::TransferEnd),
        STAT if has_stat(numbers) => Some(Reply::Stat(stat_in(numbers))),
        STAT_V2 if has_stat_v2(numbers) => Some(Reply::StatV2(stat_v2_in(numbers))),
        ENTRY if has_stat(numbers) => Some(Reply::Entry(stat_in(numbers))),
        ENTRY_V2 if has_stat_v2(numbers) => Some(Reply::EntryV2(stat_v2_in(numbers))),
        CHUNK => Some(Reply::Chunk),
        FAIL => Some(Reply::Fail),
        LISTING_END => Some(Reply::ListingEnd),
        LISTING_END_V2 => Some(Reply::ListingEndV2),
        _ => None,
    }
}

// A reply into out, and its length into told: 0, or 20 and both are left alone.
fn say_reply(ids: Ids, reply: Reply, lent: &[u8], out: &mut [u8], told: &mut [u8]) -> u32
    ensures { spoke out.new told.new result ≡ saying (dialect_of ids) out.old told.old (meant reply lent.now) }
{
    let Some(n) = speak(ids, reply, lent, out) else {
        return LONG_REPLY;
    };
    put_u64(told, 0, n as u64);
    0
}

// The same of a reply by its kind: 0, or 3 or 20.
fn say_numbered(
    ids: Ids,
    kind: u32,
    numbers: &[u8],
    lent: &[u8],
    out: &mut [u8],
    told: &mut [u8],
) -> u32
    ensures { spoke out.new told.new result ≡ if_given out.old told.old (saying (dialect_of ids) out.old told.old) (reply_numbered kind numbers.now lent.now) }
{
    match reply_numbered(kind, numbers) {
        Some(reply) => say_reply(ids, reply, lent, out, told),
        None => MISPLACED,
    }
}

// A reply of the panel by its kind, into the buffer, and its length into told: 0, or 3, 22 or 23, or 20; any other than 0 leaves both alone.
pub fn say(
    settings: &[u8],
    kind: u32,
    numbers: &[u8],
    lent: &[u8],
    out: &mut [u8],
    told: &mut [u8],
) -> u32
    ensures { spoke out.new told.new result ≡ cross_speak settings.now kind numbers.now lent.now out.old told.old }
{
    if told.len() < REPLY {
        return MISPLACED;
    }
    match table_in(settings) {
        Err(why) => why.number(),
        Ok(ids) => say_numbered(ids, kind, numbers, lent, out, told),
    }
}
