// No code: that the skin listed outward passes each edge once each way is proved in specs/ and proofs/.
#![tactic(auto)]
