// A u32 as decimal digits (000's base/decimal.rs), and back; digits of another base read.
#![tactic(auto)]

ghost use Rattle.std.specs.Prelude.{◌≡◌, List, ℕ, ◌≤◌, length, Option};
ghost use Rattle.protocol.specs.Bytes.{over, put};
ghost use Rattle.protocol.specs.Decimal.{decimal, canonical};
ghost use Rattle.protocol.specs.Digits.{spelled};
ghost use Rattle.decimal.specs.Fitted.{fitted};
ghost use Rattle.decimal.specs.Meaning.{parsed};

fn digit_count(n: u32) -> usize
    ensures { result ≡ length (decimal n) }
{
    match n.checked_ilog10() {
        Some(k) => k as usize + 1,
        None => 1,
    }
}

// The digits from the last to the first.
fn put_digits(out: &mut [u8], n: u32, count: usize)
    requires { (count ≡ length (decimal n)) × (count ≤ length out.old) }
    ensures { out.new ≡ over out.old 0 (decimal n) }
{
    let mut m = n;
    for at in (0..count).rev() {
        out[at] = b'0' + (m % 10) as u8;
        m /= 10;
    }
}

// Writes n to the front of out, and gives the number of its digits, if they fit.
pub fn format_u32(n: u32, out: &mut [u8]) -> Option<usize>
    ensures { ◌≡◌ {A = List ℕ × Option ℕ} (out.new, result) (put out.old 0 (decimal n), fitted out.old 0 (decimal n)) }
{
    let count = digit_count(n);
    if out.len() < count {
        return None;
    }
    put_digits(out, n, count);
    Some(count)
}

// The number that text spells in digits of a base up to 10: no other byte, below 2^32. An empty text spells 0.
pub fn parse_digits(text: &[u8], base: u32) -> Option<u32>
    ensures { parsed result ≡ spelled base 0 text.now }
{
    let mut n: u32 = 0;
    for &b in text {
        let digit = b.checked_sub(b'0')? as u32;
        if base <= digit {
            return None;
        }
        n = n.checked_mul(base)?.checked_add(digit)?;
    }
    Some(n)
}

// The number whose decimal digits text is: no leading zero, no other byte, below 2^32.
pub fn parse_u32(text: &[u8]) -> Option<u32>
    ensures { parsed result ≡ canonical text.now }
{
    if text.is_empty() {
        return None;
    }
    if 1 < text.len() && text[0] == b'0' {
        return None;
    }
    parse_digits(text, 10)
}
