// The fifteen ids of sync messages (000's sync/format.rs).
#![tactic(auto)]

ghost use Rattle.std.specs.Prelude.{map, ◌≡◌};
ghost use Rattle.protocol.specs.Ids.{letters, published, named};
ghost use Rattle.protocol.specs.Ids as Ids;
ghost use Rattle.format_id.specs.Ids.{id_of, found_id};

#[derive(Clone, Copy, PartialEq, Eq)]
pub enum SyncId {
    Stat,
    Sta2,
    List,
    Lis2,
    Send,
    Snd2,
    Recv,
    Rcv2,
    Data,
    Done,
    Okay,
    Fail,
    Dent,
    Dnt2,
    Quit,
}

impl SyncId {
    pub const ALL: [SyncId; 15] = [
        SyncId::Stat,
        SyncId::Sta2,
        SyncId::List,
        SyncId::Lis2,
        SyncId::Send,
        SyncId::Snd2,
        SyncId::Recv,
        SyncId::Rcv2,
        SyncId::Data,
        SyncId::Done,
        SyncId::Okay,
        SyncId::Fail,
        SyncId::Dent,
        SyncId::Dnt2,
        SyncId::Quit,
    ];

    // The ids in the order of ALL.
    pub fn all() -> [SyncId; 15]
        ensures { map id_of result ≡ Ids.all }
    {
        SyncId::ALL
    }

    pub fn as_bytes(self) -> [u8; 4]
        ensures { result ≡ letters (id_of self) }
    {
        match self {
            SyncId::Stat => *b"STAT",
            SyncId::Sta2 => *b"STA2",
            SyncId::List => *b"LIST",
            SyncId::Lis2 => *b"LIS2",
            SyncId::Send => *b"SEND",
            SyncId::Snd2 => *b"SND2",
            SyncId::Recv => *b"RECV",
            SyncId::Rcv2 => *b"RCV2",
            SyncId::Data => *b"DATA",
            SyncId::Done => *b"DONE",
            SyncId::Okay => *b"OKAY",
            SyncId::Fail => *b"FAIL",
            SyncId::Dent => *b"DENT",
            SyncId::Dnt2 => *b"DNT2",
            SyncId::Quit => *b"QUIT",
        }
    }

    // The id that four bytes are.
    pub fn from_bytes(b: [u8; 4]) -> Option<SyncId>
        ensures { found_id result ≡ named published b }
    {
        for id in SyncId::ALL {
            if id.as_bytes() == b {
                return Some(id);
            }
        }
        None
    }
}
