// The theory of loading whole bits on tones whose steps rise. It has no code: the definitions stand in specs/, the theorems in proofs/.
#![tactic(auto)]
