// Every theorem that is promised, by its name and with its whole type (proofs/Claims.antt). No code.
#![tactic(auto)]
