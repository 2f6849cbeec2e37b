// No code: laws of an index at the good rows of tables: there is exactly one, and a search of it answers what 01 does.
#![tactic(auto)]
