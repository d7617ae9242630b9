// Laws of lists and tests that several crates use. It has no code: specs/ has the definitions, proofs/ the laws.
#![tactic(auto)]
