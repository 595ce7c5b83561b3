// The cursor of a receive buffer, lent: head and tail move forward with each take and fill (000's base/recv_buf.rs).
#![tactic(auto)]

ghost use Rattle.std.specs.Prelude.{◌≡◌};
ghost use Rattle.recv_buf.specs.RecvBuf.{taken, filled};

use recv_buf::RecvBuf;

// The forms by `&mut` beside those by value: document 01 asks for a two-number struct lent mutably (docs/DECISIONS.md).

// Takes the first n held bytes.
pub fn take(c: &mut RecvBuf, n: usize)
    ensures { c.new ≡ taken c.old n }
{
    *c = RecvBuf::take(*c, n);
}

// Holds n more: those that were read into the window.
pub fn fill(c: &mut RecvBuf, n: usize, capacity: usize)
    ensures { c.new ≡ filled c.old n capacity }
{
    *c = RecvBuf::fill(*c, n, capacity);
}

// The same of a cursor by value, for callers: a local is lent.
pub fn taking(c: RecvBuf, n: usize) -> RecvBuf
    ensures { result ≡ taken c n }
{
    let mut at = c;
    take(&mut at, n);
    at
}

// Likewise.
pub fn filling(c: RecvBuf, n: usize, capacity: usize) -> RecvBuf
    ensures { result ≡ filled c n capacity }
{
    let mut at = c;
    fill(&mut at, n, capacity);
    at
}
