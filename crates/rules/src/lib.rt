// No code: the meaning of document 01, its laws and its worked jobs stand in specs/.
#![tactic(auto)]
