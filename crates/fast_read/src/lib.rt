// A read that leaves its need short, told from the record's own numbers.
#![tactic(auto)]

ghost use Rattle.std.specs.Prelude.{◌≡◌};
ghost use Rattle.fast_record.specs.Found.{found};
ghost use Rattle.record.specs.Record.{loaded};
ghost use Rattle.fast_read.specs.Short.{tail_at, short_in};

use fast_record::{number, stands};
use record::{CAPACITY, LENT, STAT_HEADER, STATE, TAIL, UNTIL};

// Where tail comes to with n more bytes that leave the need short and room behind them; nothing for any other n.
fn tail_at(capacity: usize, tail: usize, until: usize, n: usize) -> Option<usize>
    ensures { result ≡ found (tail_at capacity tail until n) }
{
    if n == 0 || capacity < tail {
        return None;
    }
    let free = capacity - tail;
    if free < n {
        return None;
    }
    let end = tail + n;
    if end < until && end < capacity {
        return Some(end);
    }
    None
}

// Where tail comes to in a record that awaits a read; nothing for a read that does not leave its need short, and for any other record.
pub fn short_tail(rec: &[u8], rx: usize, msg: usize, lent: usize, n: usize) -> Option<usize>
    ensures { result ≡ found (short_in (loaded rec.now) rx msg lent n) }
{
    if number(rec, STATE) < STAT_HEADER || !stands(rec, rx, msg) || lent != number(rec, LENT) {
        return None;
    }
    tail_at(
        number(rec, CAPACITY),
        number(rec, TAIL),
        number(rec, UNTIL),
        n,
    )
}
