// The reads of the protocol's plain reader, counted (document 02, [8]). No code.
#![tactic(auto)]
