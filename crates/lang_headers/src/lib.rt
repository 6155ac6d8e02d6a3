// The header of a text, as definitions and laws: its parser and its canonical text.
#![tactic(auto)]
