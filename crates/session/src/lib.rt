// The types of a session: what it keeps from one report to the next, what it answers, and what it asks of the host.
#![tactic(auto)]

ghost use Rattle.std.specs.Prelude.{◌≡◌};
ghost use Rattle.session.specs.State.{at, begun, shut, answering, refusing};
ghost use Rattle.session.specs.Calls.{misfit};
ghost use Rattle.session.specs.Misuse.{number_of};

use features::Features;
use format_record::{DentV1, DentV2, StatV1, StatV2};
use ids::Ids;
use recv_buf::RecvBuf;
use request::Request;
use request_piece::Piece;

#[derive(Clone, Copy)]
pub enum Version {
    V1,
    V2,
}

// The ids that a call takes as the next header.
#[derive(Clone, Copy)]
pub enum Want {
    Stat(Version),
    Entry(Version),
    Chunk,
    Okay,
    Nothing,
}

// Where the session reads: each phase is one need of the plain reader.
#[derive(Clone, Copy)]
pub enum Phase {
    Header(Want),
    Stat(Version),
    Entry(Version),
    // the record of the DONE that ends a listing
    Last(Version),
    // the name of an entry, whose numbers are kept
    NameV1(DentV1),
    NameV2(DentV2),
    // a DATA message of that length
    Body(u32),
    // a FAIL text of that length, and what is left of one that is longer than the buffer
    Text(u32),
    Rest { left: usize, text: usize },
}

// A name and a chunk are parts of the receive buffer, a FAIL text the beginning of the message buffer.
// Refused and Missing have the numbers that cross to C and that the definitions speak of (specs/Calls: `refused_or`, `answer_of`).
#[derive(Clone, Copy)]
pub enum Answer {
    Done,
    End,
    StatV1(StatV1),
    StatV2(StatV2),
    EntryV1 { stat: StatV1, at: usize, len: usize },
    EntryV2 { stat: StatV2, at: usize, len: usize },
    Chunk { at: usize, len: usize },
    Refused(u8),
    Missing(u8),
    Closed,
    Error(u32),
    Fail(usize),
    Unexpected(u8, u8, u8, u8),
    Errno(u32),
    TooLarge,
}

// What is refused before the call or the report is looked at, by its number.
#[derive(Clone, Copy, Debug, PartialEq, Eq)]
pub enum Misuse {
    // a receive buffer under 8 bytes
    ReceiveTooShort = 1,
    // a message buffer that is shorter than it
    MessageTooShort = 2,
    // other buffers than those of the opening, or other bytes lent than with the call
    Misplaced = 3,
    // a call is pending
    Pending = 4,
    // nothing is pending that the report is of
    NothingPending = 5,
    // the session has ended
    Ended = 6,
    // no bytes were read, or more than there was room for
    BadCount = 11,
}

impl Misuse {
    pub fn number(self) -> u8
        ensures { result ≡ number_of self }
    {
        self as u8
    }
}

// What a read, a write or the close can come to instead.
#[derive(Clone, Copy)]
pub enum Fault {
    Closed,
    Error(u32),
}

#[derive(Clone, Copy)]
pub enum Pending {
    Idle,
    // the need is met when tail comes to until; lost: a push write found the channel closed
    Reading {
        phase: Phase,
        until: usize,
        lost: bool,
    },
    // the message starts at `at` of the lent data; piece: 0 it is out whole, k its k-th piece is out (as specs/Sends: `wrote_on` has it)
    Writing {
        request: Request,
        at: usize,
        piece: usize,
    },
    // quit awaits the close; failed: its write met an error, with this code
    // (no Option: the record keeps both, also a code that no failure has: record/specs/Fields `step_numbers`, `pendings`)
    Closing {
        failed: bool,
        code: u32,
    },
}

#[derive(Clone, Copy)]
pub enum Reply {
    Told(Answer),
    // read into this part of the receive buffer
    Read { at: usize, len: usize },
    // write this part of the receive buffer, or of what is lent, or these bytes
    WriteRx { at: usize, len: usize },
    WriteLent { at: usize, len: usize },
    WriteBytes(Piece),
    Close,
}

#[derive(Clone, Copy)]
pub struct Session {
    // the lengths of the receive and the message buffer
    pub capacity: usize,
    pub message: usize,
    pub buf: RecvBuf,
    // the length of the path or data of the pending call
    pub lent: usize,
    pub features: Features,
    // the ids that it opened with
    pub ids: Ids,
    pub ended: bool,
    pub pending: Pending,
}

impl Session {
    // The same session, at another place of the buffer and with another pending step.
    pub fn at(self, buf: RecvBuf, pending: Pending) -> Session
        ensures { result ≡ at self buf pending }
    {
        Session {
            buf,
            pending,
            ..self
        }
    }

    // The same session, with so many bytes lent.
    pub fn begun(self, lent: usize) -> Session
        ensures { result ≡ begun self lent }
    {
        Session { lent, ..self }
    }

    // The session after its quit.
    pub fn shut(self) -> Session
        ensures { result ≡ shut self }
    {
        Session {
            ended: true,
            pending: Pending::Idle,
            ..self
        }
    }

    // The call is over, with this answer.
    pub fn answering(self, a: Answer) -> Stepped
        ensures { result ≡ answering self a }
    {
        Stepped {
            session: self.at(self.buf, Pending::Idle),
            reply: Reply::Told(a),
        }
    }

    // A refusal: the session stays as it was.
    pub fn refusing(self, a: Answer) -> Stepped
        ensures { result ≡ refusing self a }
    {
        Stepped {
            session: self,
            reply: Reply::Told(a),
        }
    }

    // The same, of a misuse by its number.
    pub fn misused(self, misuse: Misuse) -> Stepped
        ensures { result ≡ refusing self (Answer.Refused (number_of misuse)) }
    {
        self.refusing(Answer::Refused(misuse.number()))
    }

    // Whether buffers of these lengths are not those of the opening, or no opening or step leaves such a session.
    pub fn misfit(self, rx: usize, msg: usize) -> bool
        ensures { result ≡ misfit self rx msg }
    {
        rx != self.capacity
            || msg != self.message
            || self.buf.tail < self.buf.head
            || self.capacity < self.buf.tail
            || self.capacity < 8
            || self.message < self.capacity
    }
}

#[derive(Clone, Copy)]
pub struct Stepped {
    pub session: Session,
    pub reply: Reply,
}

// What follows a turn, and below it a hop: each goes on or is over, without an error. The definitions `followed` and `hop_out` (specs/Steps) speak of both.
#[derive(Clone, Copy)]
pub enum Then {
    Stop(Answer),
    Go(Phase),
}

// One turn at a phase: bytes dropped, bytes of them kept as a text, and what follows.
#[derive(Clone, Copy)]
pub struct Turn {
    pub drops: usize,
    pub keeps: usize,
    pub then: Then,
}

// A step that is over, or a session that goes on at a phase.
#[derive(Clone, Copy)]
pub enum Hop {
    Over(Stepped),
    On(Session, Phase),
}
