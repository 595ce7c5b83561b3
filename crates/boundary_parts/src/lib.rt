// No code: that a reply's part lies inside its slice is said of the steps of a session, with or without totals.
#![tactic(auto)]
