// What a session's opening and steps come to on its record (specs/), and demand 3 of them (proofs/). No code.
#![tactic(auto)]

// The longest reply: a slice shorter than it is turned away.
pub const REPLY: usize = 120;
