// Lemmas on whole numbers, sums and rows that several crates share. There is no code here.
#![tactic(auto)]
