// No code: the table of dates that must come out, and the theorem that the definitions of the calls give them.
#![tactic(auto)]
