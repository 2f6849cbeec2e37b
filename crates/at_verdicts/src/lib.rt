// No code: laws of the calls at the good rows of tables, by which refusals 26 to 33 mean just what 01 says.
#![tactic(auto)]
