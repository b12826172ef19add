// Reading and writing a return agree both ways, a return is its fields one after the other, and a refused return is refused
// at its first wrong field. No code: the theorems are in proofs/.
#![tactic(auto)]
