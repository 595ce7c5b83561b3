// What the programs share: a byte in hexadecimal, and an input that is read whole.
#![tactic(auto)]

ghost use Rattle.std.specs.Prelude.{◌≡◌, ◌∷◌, [], ◌/◌, ◌%◌, ◌<◌, ◌≤◌, length, true};
ghost use Rattle.std.specs.Fmt.{digit_glyph};

use std::io;

fn digit(d: u8) -> u8
    requires { d < 16 }
    ensures { result ≡ digit_glyph true d }
{
    if d < 10 { b'0' + d } else { b'A' + (d - 10) }
}

// A byte as two capital digits.
pub fn digits(b: u8) -> [u8; 2]
    ensures { result ≡ digit_glyph true (b / 16) ∷ digit_glyph true (b % 16) ∷ [] }
{
    [digit(b / 16), digit(b % 16)]
}

// Reads until buf is full, the input ends or a read fails: how many bytes came.
pub fn read_full(input: &mut impl io::Read, buf: &mut [u8]) -> usize
    ensures { result ≤ length buf.new }
{
    let mut done = 0;
    // no `for`: each read says how many bytes came
    while done < buf.len() {
        let count = input.read(&mut buf[done..]).unwrap_or(0);
        if count == 0 {
            return done;
        }
        done += count;
    }
    done
}
