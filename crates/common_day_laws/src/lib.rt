// No code: the claim about the call for a day common to several markets, and its proof.
#![tactic(auto)]
