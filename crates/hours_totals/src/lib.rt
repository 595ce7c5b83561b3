// The exported functions of a session with totals and hours, as they are promised. No code here.
#![tactic(auto)]
