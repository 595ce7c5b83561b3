// The panel's records, every field at its offset from the id (000's sync/format.rs).
#![tactic(auto)]

ghost use Rattle.std.specs.Prelude.{◌≡◌, ◌+◌, ◌<◌, ◌≤◌, length, drop, MatchOption};
ghost use Rattle.protocol.specs.Bytes.{whole};
ghost use Rattle.protocol.specs.Records.{header_size, stat_size, stat_at, dent_size, dent_at, stat2_size, stat2_body, stat2_at, dent2_size, dent2_at};
ghost use Rattle.format_record.specs.Told.{header_at, told_header, told_stat, told_dent, told_stat2, told_dent2, zero_header, zero_stat, zero_dent, zero_stat2, zero_dent2};

use format_flags::FileMode;
use format_number::{i64_at, u32_at, u64_at};

pub const HEADER_SIZE: usize = 8;

pub const STAT_V1_SIZE: usize = 16;

pub const DENT_V1_SIZE: usize = 20;

pub const STAT_V2_SIZE: usize = 72;

pub const STAT_V2_BODY_SIZE: usize = 68;

pub const DENT_V2_SIZE: usize = 76;

// What every message and reply begins with.
#[derive(Clone, Copy, PartialEq, Eq, Default)]
pub struct Header {
    pub id: [u8; 4],
    pub arg: u32,
}

// A STAT reply.
#[derive(Clone, Copy, PartialEq, Eq, Default)]
pub struct StatV1 {
    pub mode: FileMode,
    pub size: u32,
    pub mtime: u32,
}

// A DENT reply, without its name.
#[derive(Clone, Copy, PartialEq, Eq, Default)]
pub struct DentV1 {
    pub stat: StatV1,
    pub namelen: u32,
}

// A STA2 reply.
#[derive(Clone, Copy, PartialEq, Eq, Default)]
pub struct StatV2 {
    pub error: u32,
    pub dev: u64,
    pub ino: u64,
    pub mode: FileMode,
    pub nlink: u32,
    pub uid: u32,
    pub gid: u32,
    pub size: u64,
    pub atime: i64,
    pub mtime: i64,
    pub ctime: i64,
}

// A DNT2 reply, without its name.
#[derive(Clone, Copy, PartialEq, Eq, Default)]
pub struct DentV2 {
    pub stat: StatV2,
    pub namelen: u32,
}

// The bytes from off on, where there are at least size of them.
fn record_at(s: &[u8], off: usize, size: usize) -> Option<&[u8]>
    ensures { MatchOption result (length s.now < off + size) (λ r. (off + size ≤ length s.now) × (size ≤ length r.now) × (r.now ≡ drop off s.now)) }
{
    match s.get(off..) {
        Some(rest) if size <= rest.len() => Some(rest),
        _ => None,
    }
}

// The record at off, of each kind; all zeros where it is not all there.

pub fn header_at(s: &[u8], off: usize) -> Header
    ensures { told_header result ≡ whole header_size zero_header header_at s.now off }
{
    let Some(r) = record_at(s, off, HEADER_SIZE) else {
        return Header::default();
    };
    Header {
        id: [r[0], r[1], r[2], r[3]],
        arg: u32_at(r, 4),
    }
}

pub fn stat_v1_at(s: &[u8], off: usize) -> StatV1
    ensures { told_stat result ≡ whole stat_size zero_stat stat_at s.now off }
{
    let Some(r) = record_at(s, off, STAT_V1_SIZE) else {
        return StatV1::default();
    };
    StatV1 {
        mode: FileMode(u32_at(r, 4)),
        size: u32_at(r, 8),
        mtime: u32_at(r, 12),
    }
}

// (An entry of either version: the two kinds of record have other types, and one function would take a trait for two calls.)
pub fn dent_v1_at(s: &[u8], off: usize) -> DentV1
    ensures { told_dent result ≡ whole dent_size zero_dent dent_at s.now off }
{
    let Some(r) = record_at(s, off, DENT_V1_SIZE) else {
        return DentV1::default();
    };
    DentV1 {
        stat: stat_v1_at(r, 0),
        namelen: u32_at(r, 16),
    }
}

pub fn stat_v2_at(s: &[u8], off: usize) -> StatV2
    ensures { told_stat2 result ≡ whole stat2_size zero_stat2 stat2_at s.now off }
{
    let Some(r) = record_at(s, off, STAT_V2_SIZE) else {
        return StatV2::default();
    };
    stat_v2_body_at(&r[4..])
}

pub fn dent_v2_at(s: &[u8], off: usize) -> DentV2
    ensures { told_dent2 result ≡ whole dent2_size zero_dent2 dent2_at s.now off }
{
    let Some(r) = record_at(s, off, DENT_V2_SIZE) else {
        return DentV2::default();
    };
    DentV2 {
        stat: stat_v2_at(r, 0),
        namelen: u32_at(r, 72),
    }
}

// The body of a STA2 reply: what follows its id.
pub fn parse_stat_v2_body(b: &[u8; STAT_V2_BODY_SIZE]) -> StatV2
    ensures { told_stat2 result ≡ stat2_body b.now }
{
    stat_v2_body_at(b)
}

fn stat_v2_body_at(b: &[u8]) -> StatV2
    requires { 68 ≤ length b.now }
    ensures { told_stat2 result ≡ stat2_body b.now }
{
    StatV2 {
        error: u32_at(b, 0),
        dev: u64_at(b, 4),
        ino: u64_at(b, 12),
        mode: FileMode(u32_at(b, 20)),
        nlink: u32_at(b, 24),
        uid: u32_at(b, 28),
        gid: u32_at(b, 32),
        size: u64_at(b, 36),
        atime: i64_at(b, 44),
        mtime: i64_at(b, 52),
        ctime: i64_at(b, 60),
    }
}
