// No code: the words that every definition of the house is written in, and their laws.
#![tactic(auto)]
