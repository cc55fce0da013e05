// No code: what is promised of the calls, as theorems over their contracts.
#![tactic(auto)]
