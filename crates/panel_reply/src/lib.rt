// What the panel says (document 02, [4]): its replies, their bytes, and which of them are taken. No code.
#![tactic(auto)]
