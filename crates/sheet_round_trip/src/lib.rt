// Reading and writing a day sheet agree both ways, for every regime end and every length, and a refused sheet is refused at its
// first piece that fails. No code: the theorems are in proofs/.
#![tactic(auto)]
