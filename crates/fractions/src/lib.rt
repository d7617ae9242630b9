// A fraction rounded up to a whole number. It has no code: the definition stands in specs/, its laws in proofs/.
#![tactic(auto)]
