// An index of a listing's entries by their times (document 02, [1]): definitions, the claim and its proof. No code.
#![tactic(auto)]
