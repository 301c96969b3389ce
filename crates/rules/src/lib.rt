// No code: document 01 as definitions (specs/), and what is proved of them (proofs/).
#![tactic(auto)]
