// Prints the requests of a stream that a host wrote, however long it is: where each starts, its published id, what it carries (path and data
// in hexadecimal). What can't be read ends it: 18 and its place; `more` and how many bytes are there of a request that the stream ends in; 13
// where a read failed. What can't be written is left out.
#![tactic(auto)]

use ids::Ids;
use program_io::digits;
use recv_buf::RecvBuf;
use request::Request;
use request_reader::{Unread, lent_part, read_request};
use std::io;
use std::num::wrapping_add_u64;

// How many bytes are printed by one write.
const BLOCK: usize = 2048;

// The next request can't be read.
#[derive(Clone, Copy)]
struct Refused;

// The bytes that are read and not yet printed, and the place of the first of them in the stream.
#[derive(Clone, Copy)]
struct State {
    buf: RecvBuf,
    at: u64,
}

// Each text is one write, and where it fails the next is tried all the same: a line by one `println!` would end there.
fn print(rt: &impl Print, text: &[u8]) {
    let _ = rt.write_all(text);
}

fn print_decimal(rt: &impl Print, n: u64) {
    let _ = print!(rt; "{n}");
}

fn print_hex(rt: &impl Print, part: &[u8]) {
    let mut block = [[0u8; 2]; BLOCK];
    for bytes in part.chunks(BLOCK) {
        for (pair, &b) in block.iter_mut().zip(bytes) {
            *pair = digits(b);
        }
        let laid = block.get(..bytes.len()).unwrap_or(&[]);
        print(rt, laid.as_flattened());
    }
}

fn print_number(rt: &impl Print, n: u32) {
    print(rt, b",");
    print_decimal(rt, n as u64);
}

// An id, and the path or the data behind it.
fn print_lent(rt: &impl Print, id: &[u8], part: &[u8]) {
    print(rt, id);
    print(rt, b",");
    print_hex(rt, part);
}

fn print_request(rt: &impl Print, q: Request, part: &[u8]) {
    match q {
        Request::Stat => print_lent(rt, b",STAT", part),
        Request::Sta2 => print_lent(rt, b",STA2", part),
        Request::List => print_lent(rt, b",LIST", part),
        Request::Lis2 => print_lent(rt, b",LIS2", part),
        Request::Recv => print_lent(rt, b",RECV", part),
        Request::Rcv2(flags) => {
            print_lent(rt, b",RCV2", part);
            print_number(rt, flags.0);
        }
        Request::Send(mode) => {
            print_lent(rt, b",SEND", part);
            print_number(rt, mode.0);
        }
        Request::Snd2(mode, flags) => {
            print_lent(rt, b",SND2", part);
            print_number(rt, mode.0);
            print_number(rt, flags.0);
        }
        Request::Data => print_lent(rt, b",DATA", part),
        Request::Done(mtime) => {
            print(rt, b",DONE");
            print_number(rt, mtime);
        }
        Request::Quit => print(rt, b",QUIT"),
    }
    print(rt, b"\n");
}

// The request at the front of a stream, where it is there whole: how many bytes it has.
fn print_next(rt: &impl Print, ids: Ids, at: u64, rest: &[u8]) -> Result<Option<usize>, Refused> {
    match read_request(ids, rest) {
        Ok(heard) => {
            print_decimal(rt, at);
            print_request(rt, heard.request, lent_part(rest, heard.lent));
            Ok(Some(heard.size))
        }
        Err(Unread::More) => Ok(None),
        Err(Unread::Refused) => {
            print_decimal(rt, at);
            print(rt, b",18\n");
            Err(Refused)
        }
    }
}

// The whole requests at the front of a stream: how many bytes they have.
fn print_all(rt: &impl Print, ids: Ids, at: u64, unread: &[u8]) -> Result<usize, Refused> {
    let mut done = 0;
    // no `for`: each request says where the next one begins
    while done < unread.len() {
        let rest = &unread[done..];
        match print_next(rt, ids, wrapping_add_u64(at, done as u64), rest)? {
            Some(size) if 0 < size && size <= rest.len() => done += size,
            _ => return Ok(done),
        }
    }
    Ok(done)
}

// The stream is at its end; a request that is not whole is said.
fn finish(rt: &impl Print, s: State) {
    let held = s.buf.held();
    if 0 < held {
        print_decimal(rt, s.at);
        print(rt, b",more,");
        print_decimal(rt, held as u64);
        print(rt, b"\n");
    }
}

// One read behind the bytes that are held. None where the stream is at its end.
fn read_on(
    rt: &impl Print,
    input: &mut impl io::Read,
    s: State,
    buffer: &mut [u8],
) -> Option<State> {
    let at = s.at;
    let count = match input.read(s.buf.window(buffer)) {
        Ok(count) => count,
        Err(_) => {
            print_decimal(rt, at);
            print(rt, b",13\n");
            0
        }
    };
    if count == 0 {
        finish(rt, s);
        return None;
    }
    let buf = s.buf.fill(count, buffer.len());
    Some(State { buf, at })
}

// Prints what is whole and reads on: the bytes move to the front where the buffer is full.
fn turn(
    rt: &impl Print,
    input: &mut impl io::Read,
    ids: Ids,
    s: State,
    buffer: &mut [u8],
) -> Option<State> {
    let size = print_all(rt, ids, s.at, s.buf.peek(buffer)).ok()?;
    let at = wrapping_add_u64(s.at, size as u64);
    let buf = s.buf.take(size);
    let held = buf.held();
    if held < buffer.len() {
        if let Ok(Some(buf)) = buf.hold(buffer, held + 1) {
            return read_on(rt, input, State { buf, at }, buffer);
        }
    }
    finish(rt, State { buf, at });
    None
}

// A proved loop ends, and nothing says that a stream does: the turns are counted, and no run uses them up.
fn print_stream(rt: &impl Print, input: &mut impl io::Read, ids: Ids, buffer: &mut [u8]) {
    let mut state = Some(State {
        buf: RecvBuf::new(),
        at: 0,
    });
    for _ in 0..u64::MAX {
        let Some(s) = state else {
            return;
        };
        state = turn(rt, input, ids, s, buffer);
    }
}

// Room for the longest request, a DATA of 65,544 bytes, and nearly as much again.
fn main(rt: HostRuntime) {
    let mut buffer = [0u8; 131072];
    print_stream(&rt, &mut rt.stdin(), Ids::published(), &mut buffer);
}
