// A layer around a session: an engine that keeps numbers of its own and else does what the engine inside does (document 02, [7]). No code.
#![tactic(auto)]
