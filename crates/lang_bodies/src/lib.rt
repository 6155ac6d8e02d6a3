// Bodies and whole texts as languages.
#![tactic(auto)]
