// Totals on the job card (document 02, [7]): what crosses on a record with totals, and what is promised of the functions of a record. No code.
#![tactic(auto)]
