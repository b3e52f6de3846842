// No code: the words of logic that every crate above speaks in. The definition is in specs/, the laws in proofs/.
#![tactic(auto)]
