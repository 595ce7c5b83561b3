// What a caller is refused, by what the host has seen (specs/), and that a session in its record refuses so, event after event (proofs/). No code.
#![tactic(auto)]
