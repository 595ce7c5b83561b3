// The ids that host and panel agree on: the numbers that their four bytes spell, two to a field, the first in the lower half.
#![tactic(auto)]

ghost use Rattle.std.specs.Prelude.{◌≡◌};
ghost use Rattle.protocol.specs.Bytes.{le};
ghost use Rattle.protocol.specs.Ids.{letters, named};
ghost use Rattle.format_id.specs.Ids.{id_of, found_id};
ghost use Rattle.ids.specs.Ids.{lower, upper, number_of, dialect_of, ids_of};

use format_id::SyncId;

#[derive(Clone, Copy)]
pub struct Ids {
    pub stat: u64,
    pub list: u64,
    pub send: u64,
    pub recv: u64,
    pub data: u64,
    pub okay: u64,
    pub dent: u64,
    pub quit: u64,
}

// (The low half by its remainder: an `as` loses no bits here.)
fn lower(n: u64) -> u32
    ensures { result ≡ lower n }
{
    (n % 0x1_0000_0000) as u32
}

fn upper(n: u64) -> u32
    ensures { result ≡ upper n }
{
    (n / 0x1_0000_0000) as u32
}

impl Ids {
    // The ids of the public documents.
    pub fn published() -> Ids
        ensures { result ≡ ids_of letters }
    {
        Ids {
            stat: 0x3241_5453_5441_5453,
            list: 0x3253_494c_5453_494c,
            send: 0x3244_4e53_444e_4553,
            recv: 0x3256_4352_5643_4552,
            data: 0x454e_4f44_4154_4144,
            okay: 0x4c49_4146_5941_4b4f,
            dent: 0x3254_4e44_544e_4544,
            quit: 0x0000_0000_5449_5551,
        }
    }

    // The number of an id.
    pub fn number(self, id: SyncId) -> u32
        ensures { result ≡ number_of self (id_of id) }
    {
        match id {
            SyncId::Stat => lower(self.stat),
            SyncId::Sta2 => upper(self.stat),
            SyncId::List => lower(self.list),
            SyncId::Lis2 => upper(self.list),
            SyncId::Send => lower(self.send),
            SyncId::Snd2 => upper(self.send),
            SyncId::Recv => lower(self.recv),
            SyncId::Rcv2 => upper(self.recv),
            SyncId::Data => lower(self.data),
            SyncId::Done => upper(self.data),
            SyncId::Okay => lower(self.okay),
            SyncId::Fail => upper(self.okay),
            SyncId::Dent => lower(self.dent),
            SyncId::Dnt2 => upper(self.dent),
            SyncId::Quit => lower(self.quit),
        }
    }

    // The id that four bytes are: the first whose number has them.
    pub fn from_bytes(self, b: [u8; 4]) -> Option<SyncId>
        ensures { found_id result ≡ named (dialect_of self) b }
    {
        for id in SyncId::ALL {
            if self.number(id).to_le_bytes() == b {
                return Some(id);
            }
        }
        None
    }
}
