// No code: what holds of every step stands in specs/ as statements and is proved in proofs/.
#![tactic(auto)]
