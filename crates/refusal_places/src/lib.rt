// No code: laws by which the place of every refusal is below 2 ^ 32,
// so that number and place are read back from one word.
#![tactic(auto)]
