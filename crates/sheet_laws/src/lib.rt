// No code: the claim about the bytes that the call for a month sheet writes, and its proof.
#![tactic(auto)]
