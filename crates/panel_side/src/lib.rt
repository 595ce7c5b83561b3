// The panel's side as it crosses (document 02, [4]): what the two functions come to, and that a session reads what is said. No code.
#![tactic(auto)]
