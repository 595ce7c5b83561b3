// The mode of a SEND by its text: decimal, or octal behind a leading 0 (document 02, [5]).
#![tactic(auto)]

ghost use Rattle.std.specs.Prelude.{◌≡◌};
ghost use Rattle.decimal.specs.Meaning.{parsed};
ghost use Rattle.protocol.specs.Modes.{mode_in};

use decimal::{parse_digits, parse_u32};

// The longest text of a mode: a 0 and eleven octal digits.
pub const MAX_MODE: usize = 12;

// The mode that a text gives.
pub fn parse_mode(text: &[u8]) -> Option<u32>
    ensures { parsed result ≡ mode_in text.now }
{
    if text.len() < 2 || text[0] != b'0' {
        return parse_u32(text);
    }
    if MAX_MODE < text.len() {
        return None;
    }
    parse_digits(&text[1..], 8)
}
