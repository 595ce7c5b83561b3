// The panel's request reader: the request at the front of a slice, "more", or 18 (document 01, added).
#![tactic(auto)]

ghost use Rattle.std.specs.Prelude.{not, ◌||◌, List, ◌≡◌, ◌+◌, ◌-◌, ◌≤◌, ◌<◌, length, take, drop};
ghost use Rattle.std.proofs.Math.Option.{some};
ghost use Rattle.decimal.specs.Meaning.{parsed};
ghost use Rattle.format_id.specs.Ids.{id_of};
ghost use Rattle.protocol.specs.Bytes.{same};
ghost use Rattle.protocol.specs.Flags.{refused_flags};
ghost use Rattle.protocol.specs.Records.{id_at};
ghost use Rattle.protocol.specs.Requests as P;
ghost use Rattle.ids.specs.Ids.{dialect_of};
ghost use Rattle.request.specs.Meaning.{meant};
ghost use Rattle.request_reader.specs.Meaning as Meaning;
ghost use Rattle.request_reader.specs.Meaning.{told, lent_part, own, on_arg, part_of, words_of, staged, place_of, mode_after, send_of};

use format_flags::{FileMode, SyncFlags};
use format_id::SyncId;
use format_number::u32_at;
use ids::Ids;
use request::Request;
use request_mode::{MAX_MODE, parse_mode};
use request_path::{MAX_PATH, bad_path};

// The most bytes in a DATA message.
const MAX_DATA: usize = 65_536;

// The longest path, a comma and the longest mode (document 02, [5]).
const MAX_SEND: usize = MAX_PATH + 1 + MAX_MODE;

// Why no request was read.
#[derive(Clone, Copy, PartialEq, Eq)]
pub enum Unread {
    // The message is not all there yet.
    More,
    // Answer 18.
    Refused,
}

// A request that was read, the length of its path or data, which stands behind the header, and the length of the message.
#[derive(Clone, Copy)]
pub struct Heard {
    pub request: Request,
    pub lent: usize,
    pub size: usize,
}

// Document 01's number: 18 for a refusal, 0 for the others.
pub fn number(read: Result<Heard, Unread>) -> u32
    ensures { result ≡ Meaning.number read }
{
    match read {
        Err(Unread::Refused) => 18,
        _ => 0,
    }
}

// A message with a path of n bytes and `behind` bytes after it: whether it is there and its path good.
fn path_part(s: &[u8], n: usize, behind: usize) -> Result<(), Unread>
    requires { behind < 256 }
    ensures { result ≡ part_of n behind s.now }
{
    if MAX_PATH < n {
        return Err(Unread::Refused);
    }
    let end = 8 + n;
    let size = end + behind;
    if s.len() < size {
        return Err(Unread::More);
    }
    if bad_path(&s[8..end]) {
        return Err(Unread::Refused);
    }
    Ok(())
}

// Whether the id at `at` is not the message's own, or the flags are such as answer 9 turns away.
fn words_refused(s: &[u8], at: usize, flags: SyncFlags, pull: bool) -> bool
    requires { (at + 4 ≤ length s.now) × (4 ≤ length s.now) }
    ensures { result ≡ (not (same (take 4 (drop at s.now)) (id_at s.now)) || refused_flags pull flags.0) }
{
    let inner = u32_at(s, at);
    let own = u32_at(s, 0);
    inner != own || flags.refused(pull)
}

// The same of a message that has its own id again behind the path, then words, the flags among them.
fn words_part(s: &[u8], n: usize, behind: usize, flags: SyncFlags, pull: bool) -> Result<(), Unread>
    requires { (4 ≤ behind) × (behind < 256) }
    ensures { result ≡ words_of n behind flags.0 pull s.now }
{
    path_part(s, n, behind)?;
    if words_refused(s, 8 + n, flags, pull) {
        return Err(Unread::Refused);
    }
    Ok(())
}

// (n is an arg of 32 bits, as a length: a type of its own would be taken apart in each line.)
fn read_path(s: &[u8], request: Request, n: usize) -> Result<Heard, Unread>
    requires { n < 0x1_0000_0000 }
    ensures { told s.now result ≡ staged (part_of n 0 s.now) (P.request (meant request (take n (drop 8 s.now))) (8 + n)) }
{
    path_part(s, n, 0)?;
    Ok(Heard {
        request,
        lent: n,
        size: 8 + n,
    })
}

// A word that is not there is read as 0, and then the message is not whole.
fn read_rcv2(s: &[u8], n: usize) -> Result<Heard, Unread>
    requires { n < 0x1_0000_0000 }
    ensures { told s.now result ≡ on_arg P.path_flags n s.now }
{
    let flags = SyncFlags(u32_at(s, n + 12));
    words_part(s, n, 8, flags, true)?;
    Ok(Heard {
        request: Request::Rcv2(flags),
        lent: n,
        size: n + 16,
    })
}

fn read_snd2(s: &[u8], n: usize) -> Result<Heard, Unread>
    requires { n < 0x1_0000_0000 }
    ensures { told s.now result ≡ on_arg P.path_mode_flags n s.now }
{
    let mode = FileMode(u32_at(s, n + 12));
    let flags = SyncFlags(u32_at(s, n + 16));
    words_part(s, n, 12, flags, false)?;
    Ok(Heard {
        request: Request::Snd2(mode, flags),
        lent: n,
        size: n + 20,
    })
}

fn last_comma(text: &[u8]) -> Option<usize>
    ensures { place_of result ≡ P.last_comma text.now }
{
    // (tried: `text.iter().rposition(|b| *b == b',')`, and the proof didn't close)
    for at in (0..text.len()).rev() {
        if text[at] == b',' {
            return Some(at);
        }
    }
    None
}

// The mode behind the comma at k, where the path before it is good.
fn mode_after(text: &[u8], k: usize) -> Option<u32>
    requires { k < length text.now }
    ensures { parsed result ≡ mode_after text.now k }
{
    if bad_path(&text[..k]) {
        return None;
    }
    let from = k + 1;
    parse_mode(&text[from..])
}

// A SEND of `size` bytes that is all there: the path up to the last comma, then the mode.
fn read_text(s: &[u8], size: usize) -> Result<Heard, Unread>
    requires { (8 ≤ size) × (size ≤ length s.now) }
    ensures { told s.now result ≡ send_of (take (size - 8) (drop 8 s.now)) }
{
    let text = &s[8..size];
    match last_comma(text) {
        None => Err(Unread::Refused),
        Some(k) => match mode_after(text, k) {
            None => Err(Unread::Refused),
            Some(mode) => Ok(Heard {
                request: Request::Send(FileMode(mode)),
                lent: k,
                size,
            }),
        },
    }
}

fn read_send(s: &[u8], n: usize) -> Result<Heard, Unread>
    ensures { told s.now result ≡ on_arg P.path_mode n s.now }
{
    if MAX_SEND < n {
        return Err(Unread::Refused);
    }
    let size = 8 + n;
    if s.len() < size {
        return Err(Unread::More);
    }
    read_text(s, size)
}

fn read_data(s: &[u8], n: usize) -> Result<Heard, Unread>
    ensures { told s.now result ≡ on_arg P.bytes n s.now }
{
    if MAX_DATA < n {
        return Err(Unread::Refused);
    }
    let size = 8 + n;
    if s.len() < size {
        return Err(Unread::More);
    }
    Ok(Heard {
        request: Request::Data,
        lent: n,
        size,
    })
}

fn read_quit(s: &[u8], arg: u32) -> Result<Heard, Unread>
    requires { 8 ≤ length s.now }
    ensures { told s.now result ≡ on_arg P.bare arg s.now }
{
    if arg == 0 {
        return Ok(Heard {
            request: Request::Quit,
            lent: 0,
            size: 8,
        });
    }
    Err(Unread::Refused)
}

// The request of a slice that has a whole header, where its first four bytes are the id's.
fn read_known(s: &[u8], id: SyncId) -> Result<Heard, Unread>
    requires { 8 ≤ length s.now }
    ensures { told s.now result ≡ P.on_id (own s.now) s.now (some (id_of id)) }
{
    let arg = u32_at(s, 4);
    let n = arg as usize;
    match id {
        SyncId::Stat => read_path(s, Request::Stat, n),
        SyncId::Sta2 => read_path(s, Request::Sta2, n),
        SyncId::List => read_path(s, Request::List, n),
        SyncId::Lis2 => read_path(s, Request::Lis2, n),
        SyncId::Recv => read_path(s, Request::Recv, n),
        SyncId::Rcv2 => read_rcv2(s, n),
        SyncId::Send => read_send(s, n),
        SyncId::Snd2 => read_snd2(s, n),
        SyncId::Data => read_data(s, n),
        SyncId::Done => Ok(Heard {
            request: Request::Done(arg),
            lent: 0,
            size: 8,
        }),
        SyncId::Quit => read_quit(s, arg),
        SyncId::Okay | SyncId::Fail | SyncId::Dent | SyncId::Dnt2 => Err(Unread::Refused),
    }
}

// The request at the front of s, with its length, by the ids that host and panel agreed on.
pub fn read_request(ids: Ids, s: &[u8]) -> Result<Heard, Unread>
    ensures { told s.now result ≡ P.read_request (dialect_of ids) s.now }
{
    if s.len() < 8 {
        return Err(Unread::More);
    }
    match ids.from_bytes([s[0], s[1], s[2], s[3]]) {
        None => Err(Unread::Refused),
        Some(id) => read_known(s, id),
    }
}

// The path or the data of a request that was read from s; nothing where s has not so much.
#[tactic(auto, unfolding(crate::specs::Meaning::lent_part))]
pub fn lent_part(s: &[u8], lent: usize) -> &[u8]
    ensures { result.now ≡ lent_part s.now lent }
{
    s.get(8..)
        .and_then(|behind| behind.get(..lent))
        .unwrap_or(&[])
}
