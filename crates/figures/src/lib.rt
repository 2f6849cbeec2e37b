// No code: the marked figures of 01, one table of questions and answers, proved of the definitions by one claim.
#![tactic(auto)]
