// A session in a lent record: how many bytes it takes, its numbers of eight bytes each, and the states of its pending step.
#![tactic(auto)]

pub const SIZE: usize = 256;

// ---- the numbers, by their places: numbers, and no enum, since the record is lent as bytes; `specs/Fields` has the same

pub const CAPACITY: u8 = 0;

pub const MESSAGE: u8 = 1;

pub const HEAD: u8 = 2;

pub const TAIL: u8 = 3;

pub const LENT: u8 = 4;

pub const FEATURES: u8 = 5;

pub const ENDED: u8 = 6;

pub const STATE: u8 = 7;

pub const FLAG: u8 = 8;

// Where tail meets what is awaited.
pub const UNTIL: u8 = 9;

// Where in what is lent the message starts, and how many of its pieces are out.
pub const FROM: u8 = 10;

pub const PIECE: u8 = 11;

// The first of the registers: the length of a chunk's body, what is left of a FAIL text; the second: how much of it was kept.
pub const REGISTER: u8 = 12;

pub const KEPT: u8 = 13;

// The first of the numbers of the ids.
pub const IDS: u8 = 24;

// ---- the states: nothing is pending, a request is out, the channel closes, a header or a part is awaited
// A state is a number of the lent bytes: `request_state`, `want_state` and `phase_state` of `specs/Fields` have the same.

pub const IDLE: usize = 0;

pub const STAT_OUT: usize = 1;

pub const STAT_V2_OUT: usize = 2;

pub const DATA_OUT: usize = 9;

pub const QUIT_OUT: usize = 11;

pub const CLOSING: usize = 12;

pub const STAT_HEADER: usize = 13;

pub const STAT_V2_HEADER: usize = 14;

pub const CHUNK_HEADER: usize = 17;

pub const CHUNK_BODY: usize = 28;

pub const FAIL_REST: usize = 30;

// One more than the last.
pub const STATES: usize = 31;
