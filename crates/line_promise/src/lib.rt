// What the line program answers to a line and writes for an input: definitions and laws alone, in specs/.
#![tactic(auto)]
