// The part of what is lent that one message carries: data goes in messages of at most 65,536 bytes (000's sync.rs).
#![tactic(auto)]

ghost use Rattle.std.specs.Prelude.{◌≡◌};
ghost use Rattle.session.specs.Sends.{is_data, carried};

use request::Request;

// Data goes in messages of at most this many bytes.
const DATA_MAX: usize = 65536;

fn is_data(q: Request) -> bool
    ensures { result ≡ is_data q }
{
    matches!(q, Request::Data)
}

// The part of what is lent that a message carries: of data at most 65,536 bytes, from `from` on.
pub fn carried(q: Request, from: usize, lent: &[u8]) -> &[u8]
    ensures { result.now ≡ carried q from lent.now }
{
    if !is_data(q) {
        return lent;
    }
    let rest = &lent[from.min(lent.len())..];
    &rest[..DATA_MAX.min(rest.len())]
}
