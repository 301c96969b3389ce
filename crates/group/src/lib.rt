// No code: runs of a group, causality and demand 3 are in specs/, its proof is in proofs/.
#![tactic(auto)]
