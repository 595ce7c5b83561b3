// Prints a v1 listing reply that comes on standard input: a line per entry, then how the listing ended. At most 4,096 bytes are read; they
// go straight into the receive buffer, which is the window that the first listing step asks. What can't be written is left out.
#![tactic(auto)]

ghost use Rattle.std.specs.Prelude.{List, ◌≡◌, ℕ, ◌≤◌, length, take};
ghost use Rattle.format_record.specs.Told.{told_stat};
ghost use Rattle.listing_lines.specs.Lines.{Laid};
ghost use Rattle.session_part.specs.Part.{handed};
ghost use Rattle.session.specs.Calls.{entry_call};
ghost use Rattle.session.specs.Shown.{paper};
ghost use Rattle.session.specs.State.{st, out};
ghost use Rattle.listing.specs.Listing.{listed, printed};
ghost use Rattle.listing.specs.Steps.{told, told_by, ended, first_out, line_of, shown, Ready, Ample};

use format_record::StatV1;
use ids::Ids;
use listing_lines::{put_end, put_entry, put_heading};
use program_io::read_full;
use session::{Answer, Fault, Reply, Session, Stepped, Version};
use session_calls::{next_entry, open};
use session_part::part;

// A listing step that is over.
#[derive(Clone, Copy)]
struct Heard {
    session: Session,
    answer: Answer,
}

// What an answer is printed as: an entry's line, or the end with its number, which need be no error (`line_of` of specs/Steps speaks of it).
#[derive(Clone, Copy)]
enum Line {
    Entry(StatV1),
    End(u8),
}

fn line_of(a: Answer) -> Line
    ensures { result ≡ line_of a }
{
    match a {
        Answer::EntryV1 { stat, .. } => Line::Entry(stat),
        Answer::Refused(n) => Line::End(n),
        Answer::Missing(_) => Line::End(10),
        Answer::Closed => Line::End(12),
        Answer::Error(_) => Line::End(13),
        Answer::Fail(_) => Line::End(14),
        Answer::Unexpected(_, _, _, _) => Line::End(15),
        Answer::Errno(_) => Line::End(16),
        Answer::TooLarge => Line::End(17),
        Answer::Done
        | Answer::End
        | Answer::StatV1(_)
        | Answer::StatV2(_)
        | Answer::EntryV2 { .. }
        | Answer::Chunk { .. } => Line::End(0),
    }
}

fn answer_of(step: Stepped) -> Heard
    ensures { (rx msg : List ℕ) → told result rx msg ≡ told_by (out step rx msg) }
{
    let answer = match step.reply {
        Reply::Told(answer) => answer,
        _ => Answer::Done,
    };
    Heard {
        session: step.session,
        answer,
    }
}

// The answer of a step; a read that it asks comes to the end error, 13.
fn settle(step: Stepped, rx: &mut [u8], msg: &mut [u8]) -> Heard
    ensures { told result rx.new msg.new ≡ ended (out step rx.old msg.old) }
{
    match step.reply {
        Reply::Read { .. } => {
            let session = step.session;
            answer_of(session_faults::fault(session, rx, msg, 0, Fault::Error(0)))
        }
        _ => answer_of(step),
    }
}

fn next(s: Session, rx: &mut [u8], msg: &mut [u8]) -> Heard
    ensures { told result rx.new msg.new ≡ ended (entry_call (st s rx.old msg.old) Version.V1 0) }
{
    let step = next_entry(s, rx, msg, Version::V1, 0);
    settle(step, rx, msg)
}

// The first step, with n bytes of input at the front of the receive buffer.
fn begin(s: Session, rx: &mut [u8], msg: &mut [u8], n: usize) -> Stepped
    ensures { out result rx.new msg.new ≡ first_out (st s rx.old msg.old) n }
{
    let asked = next_entry(s, rx, msg, Version::V1, 0);
    if n == 0 {
        return asked;
    }
    let session = asked.session;
    session_reports::read(session, rx, msg, 0, n)
}

fn first(s: Session, rx: &mut [u8], msg: &mut [u8], n: usize) -> Heard
    ensures { told result rx.new msg.new ≡ ended (first_out (st s rx.old msg.old) n) }
{
    let step = begin(s, rx, msg, n);
    settle(step, rx, msg)
}

// The line of the entry a, whose numbers are stat.
fn show<'a>(
    out: &mut [u8],
    at: usize,
    a: Answer,
    stat: StatV1,
    rx: &'a [u8],
    msg: &'a [u8],
) -> usize
    ensures { (out.new, result) ≡ shown out.old at (told_stat stat) (handed (paper rx.now msg.now a)) }
{
    let name = part(a, rx, msg);
    put_entry(out, at, stat, name)
}

// A line for each entry, from `from` on, and the end; where they end.
fn walk(s: Session, rx: &mut [u8], msg: &mut [u8], n: usize, out: &mut [u8], from: usize) -> usize
    requires { Ready s rx.old msg.old n (length out.old) from }
    ensures { Laid out.old from (listed (length rx.old) (take n rx.old)) out.new result × (result ≤ length out.new) }
{
    let mut at = from;
    let mut heard = first(s, rx, msg, n);
    // no `for`: the answer to each step says whether there is another
    loop {
        let answer = heard.answer;
        let line = line_of(answer);
        match line {
            Line::End(number) => {
                return put_end(out, at, number);
            }
            Line::Entry(stat) => {
                at = show(out, at, answer, stat, rx, msg);
                let session = heard.session;
                heard = next(session, rx, msg);
            }
        }
    }
}

// The whole output, for n bytes of input at the front of rx; how many bytes it has.
fn list(rx: &mut [u8], msg: &mut [u8], n: usize, out: &mut [u8]) -> usize
    requires { Ample (length rx.old) (length msg.old) n (length out.old) }
    ensures { Laid out.old 0 (printed (length rx.old) (take n rx.old)) out.new result × (result ≤ length out.new) }
{
    let ids = Ids::published();
    let opened = open(b"", ids, rx.len(), msg.len());
    match opened {
        Ok(s) => {
            let from = put_heading(out, 0);
            walk(s, rx, msg, n, out, from)
        }
        Err(_) => 0,
    }
}

fn main(rt: HostRuntime) {
    let mut rx = [0u8; 4096];
    let mut msg = [0u8; 4096];
    let mut out = [0u8; 8228];
    let n = read_full(&mut rt.stdin(), &mut rx);
    let count = list(&mut rx, &mut msg, n, &mut out);
    let _ = rt.write_all(&out[..count]);
}
