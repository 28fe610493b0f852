// Exchanges of the network simplex.
#![tactic(auto)]
