// Worked examples of document 01's language, as theorems.
#![tactic(auto)]
