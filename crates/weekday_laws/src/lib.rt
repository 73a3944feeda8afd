// No code: the claim about the calls for the nth and the last weekday of a month, and its proof.
#![tactic(auto)]
