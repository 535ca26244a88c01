// No code: laws of whole numbers are proved in specs/.
#![tactic(auto)]
