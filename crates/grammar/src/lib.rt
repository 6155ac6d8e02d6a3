// Document 01's language, as definitions and laws.
#![tactic(auto)]
