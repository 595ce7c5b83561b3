// Laws of the protocol's plain reader (proofs/), and demand 3's comparison of two of them (specs/). No code.
#![tactic(auto)]
