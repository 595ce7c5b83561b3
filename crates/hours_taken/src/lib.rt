// Whether the session in a record would take a push start: none of the numbers 1 to 11 would be told. Nothing is altered.
#![tactic(auto)]

ghost use Rattle.std.specs.Prelude.{◌≡◌};
ghost use Rattle.protocol.specs.Refusal.{is_none, request_refusal};
ghost use Rattle.record.specs.Record.{loaded};
ghost use Rattle.request.specs.Meaning.{meant};
ghost use Rattle.request_refusal.specs.Meaning.{setting};
ghost use Rattle.hours_taken.specs.Taken.{push_numbered, takes_push};

use features::Features;
use format_flags::{FileMode, SyncFlags};
use record_load::load;
use request::Request;
use request_refusal::check_request;
use session_calls::check_call;

// The number of a push start of version 1; the other is version 2.
const SEND: u32 = 7;

// The request of a push start, by its call's number: a is its mode, b its flags.
fn push(call: u32, a: u32, b: u32) -> Request
    ensures { result ≡ push_numbered call a b }
{
    if call == SEND {
        return Request::Send(FileMode(a));
    }
    Request::Snd2(FileMode(a), SyncFlags(b))
}

// None of 8, 7, 9 and 10 refuses it.
fn unrefused(features: Features, q: Request, lent: &[u8]) -> bool
    ensures { result ≡ is_none (request_refusal (setting features) (meant q lent.now)) }
{
    check_request(features, q, lent).is_ok()
}

// The session in a record takes a push start; rx and msg are the lengths of the buffers that are lent with it, and lent is its path.
#[tactic(auto, unfolding(crate::specs::Taken::takes_push))]
pub fn takes_push(rec: &[u8], rx: usize, msg: usize, lent: &[u8], call: u32, a: u32, b: u32) -> bool
    ensures { result ≡ takes_push (loaded rec.now) rx msg lent.now call a b }
{
    let Some(s) = load(rec) else {
        return false;
    };
    check_call(s, rx, msg).is_ok() && unrefused(s.features, push(call, a, b), lent)
}
