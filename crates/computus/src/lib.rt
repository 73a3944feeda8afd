// No code: the definition of Easter by the computus, and the theorem that the Easter call returns it.
#![tactic(auto)]
