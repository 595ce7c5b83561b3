// What the panel says: a reply into a lent buffer (document 02, [4]).
#![tactic(auto)]

ghost use Rattle.std.specs.Prelude.{ℕ, List, true, ◌&&◌, ◌++◌, ◌≡◌, refl, suc, ◌+◌, ◌≤◌, ◌<◌, leb, ltb, length};
ghost use Rattle.std.proofs.Common.{rules};
ghost use Rattle.protocol.specs.Bytes.{put};
ghost use Rattle.protocol.specs.Messages.{word, data_most};
ghost use Rattle.format_record.specs.Told.{told_stat, told_stat2};
ghost use Rattle.ids.specs.Ids.{dialect_of};
ghost use Rattle.panel_reply.specs.Replies.{stat_fields, stat2_fields, with_length, fits32};
ghost use Rattle.panel_writer.specs.Meaning.{meant, taken, answered};

use format_id::SyncId;
use format_number::{put_bytes, put_u32, put_u64, put_u64s};
use format_record::{HEADER_SIZE, STAT_V1_SIZE, STAT_V2_SIZE, StatV1, StatV2};
use ids::Ids;

// As many bytes as one DATA has at most.
const MAX_DATA: usize = 65536;

// The first length that does not go into 32 bits.
const TOO_LONG: usize = 0x1_0000_0000;

// A reply; the name of an entry, the data of a chunk or the text of a FAIL is lent beside it.
#[derive(Clone, Copy)]
pub enum Reply {
    Stat(StatV1),
    StatV2(StatV2),
    Entry(StatV1),
    EntryV2(StatV2),
    ListingEnd,
    ListingEndV2,
    Chunk,
    TransferEnd,
    Okay,
    Fail,
}

// Whether 32 bits count what is lent, and it fits behind so many other bytes.
fn has_room(room: usize, fixed: usize, lent: usize) -> bool
    ensures { result ≡ fits32 lent && leb (fixed + lent) room }
{
    lent < TOO_LONG && fixed <= room && lent <= room - fixed
}

// Four numbers of 32 bits over what stands at off. An array of them is no plainer: a loop, its invariant and its laws for the one length.
fn put_words(out: &mut [u8], off: usize, a: u32, b: u32, c: u32, d: u32)
    requires { off + 16 ≤ length out.old }
    ensures { out.new ≡ put out.old off (word a ++ word b ++ word c ++ word d) }
{
    put_u32(out, off, a);
    put_u32(out, off + 4, b);
    put_u32(out, off + 8, c);
    put_u32(out, off + 12, d);
}

// A stat of either version: how many bytes it has with an id before it, and what stands behind the id.
trait Fields: Copy {
    ghost SIZE: { ℕ };

    const SIZE: usize;

    ghost fields: { Self → List ℕ };

    // An id, by its number, and the stat behind it, at the front.
    fn put_stat(self, id: u32, out: &mut [u8])
        requires { SIZE ≤ length out.old }
        ensures { out.new ≡ put out.old 0 (word id ++ fields self) };

    // What each impl proves: the size can be added to, and is the length of what is put.
    ghost small: { SIZE ≤ 72 };

    ghost sized: { (id : ℕ) (s : Self) → length (word id ++ fields s) ≡ SIZE };
}

impl Fields for StatV1 {
    ghost SIZE = { 16 };

    const SIZE: usize = STAT_V1_SIZE;

    ghost fields = { λ s. stat_fields (told_stat s) };

    ghost small = { Prim.search rules };

    ghost sized = { λ id s. refl };

    fn put_stat(self, id: u32, out: &mut [u8]) {
        put_words(out, 0, id, self.mode.0, self.size, self.mtime);
    }
}

impl Fields for StatV2 {
    ghost SIZE = { 72 };

    const SIZE: usize = STAT_V2_SIZE;

    ghost fields = { λ s. stat2_fields (told_stat2 s) };

    ghost small = { Prim.search rules };

    ghost sized = { λ id s. refl };

    fn put_stat(self, id: u32, out: &mut [u8]) {
        let atime = self.atime.cast_unsigned();
        let mtime = self.mtime.cast_unsigned();
        let ctime = self.ctime.cast_unsigned();
        put_u32(out, 0, id);
        put_u32(out, 4, self.error);
        put_u64(out, 8, self.dev);
        put_u64(out, 16, self.ino);
        put_words(out, 24, self.mode.0, self.nlink, self.uid, self.gid);
        put_u64s(out, 40, [self.size, atime, mtime, ctime]);
    }
}

// A length, and what has it, over what stands at off.
fn put_counted(out: &mut [u8], off: usize, x: &[u8])
    requires { (length x.now < 0x1_0000_0000) × (off + (4 + length x.now) ≤ length out.old) }
    ensures { out.new ≡ put out.old off (with_length x.now) }
{
    put_u32(out, off, x.len() as u32);
    put_bytes(out, off + 4, x);
}

// Each of these leaves the bytes at the front of out, and answers their length; none, and nothing altered, where they are not taken.

fn say_stat<S: Fields>(id: u32, s: S, out: &mut [u8]) -> Option<usize>
    ensures { (out.new, result) ≡ taken true (word id ++ S.fields s) out.old }
{
    if out.len() < S::SIZE {
        return None;
    }
    s.put_stat(id, out);
    Some(S::SIZE)
}

fn say_entry<S: Fields>(id: u32, s: S, name: &[u8], out: &mut [u8]) -> Option<usize>
    ensures { (out.new, result) ≡ taken (fits32 (length name.now)) (word id ++ S.fields s ++ with_length name.now) out.old }
{
    let fixed = S::SIZE + 4;
    if !has_room(out.len(), fixed, name.len()) {
        return None;
    }
    s.put_stat(id, out);
    put_counted(out, S::SIZE, name);
    Some(fixed + name.len())
}

// DATA and FAIL; with nothing to count, the DONE of a transfer and OKAY.
fn say_counted(id: u32, x: &[u8], out: &mut [u8]) -> Option<usize>
    ensures { (out.new, result) ≡ taken (fits32 (length x.now)) (word id ++ with_length x.now) out.old }
{
    if !has_room(out.len(), HEADER_SIZE, x.len()) {
        return None;
    }
    put_u32(out, 0, id);
    put_counted(out, 4, x);
    Some(HEADER_SIZE + x.len())
}

fn say_chunk(id: u32, bytes: &[u8], out: &mut [u8]) -> Option<usize>
    ensures { (out.new, result) ≡ taken (ltb (length bytes.now) (suc data_most)) (word id ++ with_length bytes.now) out.old }
{
    if MAX_DATA < bytes.len() {
        return None;
    }
    say_counted(id, bytes, out)
}

// The reply at the front of out, and its length; none, and nothing altered, where it is not taken.
pub fn speak(ids: Ids, reply: Reply, lent: &[u8], out: &mut [u8]) -> Option<usize>
    ensures { (out.new, result) ≡ answered (dialect_of ids) (meant reply lent.now) out.old }
{
    match reply {
        Reply::Stat(s) => say_stat(ids.number(SyncId::Stat), s, out),
        Reply::StatV2(s) => say_stat(ids.number(SyncId::Sta2), s, out),
        Reply::Entry(s) => say_entry(ids.number(SyncId::Dent), s, lent, out),
        Reply::EntryV2(s) => say_entry(ids.number(SyncId::Dnt2), s, lent, out),
        Reply::ListingEnd => say_entry(ids.number(SyncId::Done), StatV1::default(), b"", out),
        Reply::ListingEndV2 => say_entry(ids.number(SyncId::Done), StatV2::default(), b"", out),
        Reply::Chunk => say_chunk(ids.number(SyncId::Data), lent, out),
        Reply::TransferEnd => say_counted(ids.number(SyncId::Done), b"", out),
        Reply::Okay => say_counted(ids.number(SyncId::Okay), b"", out),
        Reply::Fail => say_counted(ids.number(SyncId::Fail), lent, out),
    }
}
