// The rows that a row's verdict speaks of: definitions and laws, no code.
#![tactic(auto)]
