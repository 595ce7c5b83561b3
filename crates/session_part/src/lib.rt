// The bytes that an answer hands back, as a part of the buffer they lie in.
#![tactic(auto)]

ghost use Rattle.std.specs.Prelude.{◌≡◌};
ghost use Rattle.session.specs.Shown.{paper};
ghost use Rattle.session_part.specs.Part.{inside, handed};

use session::Answer;

// The len bytes of s from at on; none where they do not all lie in it.
fn within(s: &[u8], at: usize, len: usize) -> &[u8]
    ensures { result.now ≡ inside s.now at len }
{
    match at.checked_add(len) {
        Some(end) if end <= s.len() => &s[at..end],
        _ => &[],
    }
}

// A name or a chunk is a part of the receive buffer, a FAIL text the beginning of the message buffer; no other answer has a part.
pub fn part<'a>(a: Answer, rx: &'a [u8], msg: &'a [u8]) -> &'a [u8]
    ensures { result.now ≡ handed (paper rx.now msg.now a) }
{
    match a {
        Answer::EntryV1 { at, len, .. }
        | Answer::EntryV2 { at, len, .. }
        | Answer::Chunk { at, len } => within(rx, at, len),
        Answer::Fail(len) => within(msg, 0, len),
        _ => &[],
    }
}
