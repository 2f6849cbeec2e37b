// No code: the verdicts of all rows, defined, and the claim that a bad row costs only the rows that lean on it.
#![tactic(auto)]
