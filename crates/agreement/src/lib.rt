// No code: the claim that the next, previous, month and count calls agree on every date range of 2020 to 2030, and its proof.
#![tactic(auto)]
