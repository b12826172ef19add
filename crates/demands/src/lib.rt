// The demands as theorems: proofs/Demand3.antt. The marked figures as one: proofs/Figures.antt. It has no code.
#![tactic(auto)]
