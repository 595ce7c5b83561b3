// The reads that a session's calls accept, and the plain reader's count of them (document 02, [8]). No code.
#![tactic(auto)]
