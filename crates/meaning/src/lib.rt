// No code: what the arrays of the passes mean for the rows and their verdicts.
#![tactic(auto)]
