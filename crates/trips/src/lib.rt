// No code: that what is written is read back, and what is read is written back, is proved in specs/.
#![tactic(auto)]
