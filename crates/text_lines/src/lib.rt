// Files of lines as definitions (specs/) and laws over them (proofs/). No code: the crates above are held to these.
#![tactic(auto)]
