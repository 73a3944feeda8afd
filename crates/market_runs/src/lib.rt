// No code: a bound of the runs of non-trading days of each market, and with it the agreement of `ranges` for each market.
#![tactic(auto)]
