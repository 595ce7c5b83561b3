// A request, as the host writes it and the panel reads it. Its path or data is lent beside it.
#![tactic(auto)]

use format_flags::{FileMode, SyncFlags};

#[derive(Clone, Copy)]
pub enum Request {
    Stat,
    Sta2,
    List,
    Lis2,
    Recv,
    Rcv2(SyncFlags),
    Send(FileMode),
    Snd2(FileMode, SyncFlags),
    Data,
    Done(u32),
    Quit,
}
