// No code: that the five cases decide rings is proved in specs/ and proofs/.
#![tactic(auto)]
