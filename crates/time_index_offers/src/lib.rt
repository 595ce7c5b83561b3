// What a reply that the host was told offers to an index (document 02, [1]): the entry of a listing, its time and its name.
#![tactic(auto)]

ghost use Rattle.std.specs.Prelude.{◌≡◌};
ghost use Rattle.time_index_offers.specs.Offers.{offer, Inside, offered_in};

use boundary::REPLY;
use format_number::u64_at;

// The kinds of a told reply: entries of v1 and v2, a chunk.
const ENTRY: u64 = 4;

const ENTRY_V2: u64 = 5;

const CHUNK: u64 = 6;

// Where a reply has the start and the length of a name, and the time of an entry, of v1 and of v2.
const START_AT: usize = 8;

const LENGTH_AT: usize = 16;

const TIME_AT: usize = 40;

const TIME_V2_AT: usize = 96;

// The times of v1 are below.
const V1_TIMES: u64 = 0x1_0000_0000;

// An entry that a told reply offers: its time in two's complement, and its name, a part of the receive buffer.
#[derive(Clone, Copy)]
pub struct Entry {
    pub time: u64,
    pub at: usize,
    pub len: usize,
}

// What is no reply, or none that a session tells.
#[derive(Clone, Copy, PartialEq, Eq)]
pub struct NoReply;

// What a reply offers; a slice under 120 bytes is no reply. The time of an entry of v1 has 32 bits and no sign.
pub fn offered_by(told: u32, reply: &[u8], rx: &[u8]) -> Result<Option<Entry>, NoReply>
    ensures { (offer rx.now result ≡ offered_in told reply.now rx.now) × Inside rx.now result }
{
    if reply.len() < REPLY {
        return Err(NoReply);
    }
    if told != 0 {
        return Ok(None);
    }
    let kind = u64_at(reply, 0);
    if kind < ENTRY {
        return Ok(None);
    }
    if CHUNK < kind {
        return Err(NoReply);
    }
    let at = u64_at(reply, START_AT) as usize;
    let len = u64_at(reply, LENGTH_AT) as usize;
    if rx.len() < len {
        return Err(NoReply);
    }
    let last = rx.len() - len;
    if last < at {
        return Err(NoReply);
    }
    if kind == CHUNK {
        return Ok(None);
    }
    if kind == ENTRY_V2 {
        let time = u64_at(reply, TIME_V2_AT);
        return Ok(Some(Entry { time, at, len }));
    }
    let time = u64_at(reply, TIME_AT);
    if time < V1_TIMES {
        return Ok(Some(Entry { time, at, len }));
    }
    Err(NoReply)
}
