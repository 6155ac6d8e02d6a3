// Positions and locations at the front of a text, as definitions and laws.
#![tactic(auto)]
