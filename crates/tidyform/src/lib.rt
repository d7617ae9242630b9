// The tidy form of a line, and that it reads back as the line. It has no code: the definition stands in specs/, the theorems in proofs/.
#![tactic(auto)]
