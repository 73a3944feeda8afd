// No code: the claim about the answer and the buffer of the call that slices an order, and its proof.
#![tactic(auto)]
