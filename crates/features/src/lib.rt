// The features that a device's banner lists (000's base/protocol/features.rs). The session's seven are gathered in one pass over the list.
#![tactic(auto)]

ghost use Rattle.std.specs.Prelude.{◌≡◌, false, [], ◌∷◌, ◌+◌, ◌≤◌, length, get_or, drop, position, MatchOption};
ghost use Rattle.std.proofs.Math.Seq.{slice};
ghost use Rattle.protocol.specs.Bytes.{same};
ghost use Rattle.protocol.specs.Features.{marker, rest_after, separator, split, has_feature, features_of};
ghost use Rattle.features.specs.Meaning.{starts_with, pieces_from, pieces_behind, Named, listed, feature_number};

// What the list of features follows.
const MARKER: [u8; 9] = *b"features=";

// The names of the features 1 to LAST: up to LAST_ALONE a name is its tail; the others are the beginning, which is stored once, and a tail.
const LAST: usize = 7;

const LAST_ALONE: usize = 2;

const BEGINNING: [u8; 11] = *b"sendrecv_v2";

// The tail of feature n goes from ENDS[n - 1] to ENDS[n]; that of the third is empty. Not an array of slices: tests/size.py holds the library's size.
const TAILS: [u8; 41] = *b"stat_v2ls_v2_brotli_lz4_zstd_dry_run_send";

const ENDS: [u8; 8] = [0, 7, 12, 12, 19, 23, 28, 41];

// Whether the bytes of s from `from` to `to` are text. (Two places and no part: where the next piece begins is said by its place.)
fn part_is(s: &[u8], from: usize, to: usize, text: &[u8]) -> bool
    requires { (from ≤ to) × (to ≤ length s.now) }
    ensures { result ≡ same (slice from to s.now) text.now }
{
    &s[from..to] == text
}

// Whether they begin with text.
fn begins(s: &[u8], from: usize, to: usize, text: &[u8]) -> bool
    requires { (from ≤ to) × (to ≤ length s.now) }
    ensures { result ≡ starts_with text.now (slice from to s.now) }
{
    text.len() <= to - from && part_is(s, from, from + text.len(), text)
}

fn is_separator(b: u8) -> bool
    ensures { result ≡ separator b }
{
    b == b',' || b == b';'
}

fn first_separator(s: &[u8]) -> Option<usize>
    ensures { result ≡ position separator s.now }
{
    s.iter().position(|b| is_separator(*b))
}

// Where the list behind the banner's first marker begins; past the banner's end where there is no marker.
fn list_start(banner: &[u8]) -> usize
    ensures { pieces_behind (rest_after marker banner.now) ≡ pieces_from result banner.now }
{
    for end in MARKER.len()..=banner.len() {
        if part_is(banner, end - MARKER.len(), end, &MARKER) {
            return end;
        }
    }
    banner.len() + 1
}

// Where the piece of s that begins at `from` ends: at the next separator or at the end of s. The next piece begins one byte further.
fn piece_end(s: &[u8], from: usize) -> usize
    requires { from ≤ length s.now }
    ensures { (from ≤ result) × (result ≤ length s.now)
        × (split [] (drop from s.now) ≡ slice from result s.now ∷ pieces_from (result + 1) s.now) }
{
    match first_separator(&s[from..]) {
        Some(size) => from + size,
        None => s.len(),
    }
}

// Whether the name is a piece of the list behind the banner's first marker.
pub fn has_feature(banner: &[u8], name: &[u8]) -> bool
    ensures { result ≡ has_feature banner.now name.now }
{
    let mut start = list_start(banner);
    // no `for`: where the next piece begins is known only behind this one
    while start <= banner.len() {
        let end = piece_end(banner, start);
        if part_is(banner, start, end, name) {
            return true;
        }
        start = end + 1;
    }
    false
}

// The number of the feature that the bytes of s from `from` to `to` name; none where they name none.
fn number_at(s: &[u8], from: usize, to: usize) -> Option<usize>
    requires { (from ≤ to) × (to ≤ length s.now) }
    ensures { MatchOption result (Named (slice from to s.now) 0) (λ n. (1 ≤ n) × (n ≤ 7) × Named (slice from to s.now) n) }
{
    let mut first = 1;
    let mut last = LAST_ALONE;
    let mut rest = from;
    if begins(s, from, to, &BEGINNING) {
        first = LAST_ALONE + 1;
        last = LAST;
        rest = from + BEGINNING.len();
    }
    // copied once: each mention of a constant array is a copy
    let tails = TAILS;
    let ends = ENDS;
    for n in first..=last {
        let start = ends[n - 1] as usize;
        let end = ends[n] as usize;
        if part_is(s, rest, to, &tails[start..end]) {
            return Some(n);
        }
    }
    None
}

// A feature of the session's seven, with its number.
#[derive(Clone, Copy, PartialEq, Eq)]
pub enum Feature {
    StatV2 = 1,
    LsV2,
    SendRecvV2,
    Brotli,
    Lz4,
    Zstd,
    DryRunSend,
}

impl Feature {
    pub fn number(self) -> u8
        ensures { result ≡ feature_number self }
    {
        self as u8
    }
}

// Which of the session's features a banner has: numbers 1 to 7, in this order.
#[derive(Clone, Copy, PartialEq, Eq)]
pub struct Features {
    pub stat_v2: bool,
    pub ls_v2: bool,
    pub sendrecv_v2: bool,
    pub brotli: bool,
    pub lz4: bool,
    pub zstd: bool,
    pub dry_run_send: bool,
}

impl Features {
    pub fn of(banner: &[u8]) -> Features
        ensures { listed result ≡ features_of banner.now }
    {
        let mut found = [false; LAST];
        let mut start = list_start(banner);
        // no `for`, as in `has_feature`
        while start <= banner.len() {
            let end = piece_end(banner, start);
            if let Some(number) = number_at(banner, start, end) {
                found[number - 1] = true;
            }
            start = end + 1;
        }
        let [stat_v2, ls_v2, sendrecv_v2, brotli, lz4, zstd, dry_run_send] = found;
        Features {
            stat_v2,
            ls_v2,
            sendrecv_v2,
            brotli,
            lz4,
            zstd,
            dry_run_send,
        }
    }

    // The feature of that number; false where there is none.
    pub fn has(self, number: u32) -> bool
        ensures { result ≡ get_or (false ∷ listed self) number false }
    {
        match number {
            1 => self.stat_v2,
            2 => self.ls_v2,
            3 => self.sendrecv_v2,
            4 => self.brotli,
            5 => self.lz4,
            6 => self.zstd,
            7 => self.dry_run_send,
            _ => false,
        }
    }

    pub fn offers(self, feature: Feature) -> bool
        ensures { result ≡ get_or (false ∷ listed self) (feature_number feature) false }
    {
        self.has(feature.number() as u32)
    }
}
