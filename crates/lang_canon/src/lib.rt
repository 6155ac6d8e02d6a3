// The canonical text of a whole value: definitions and laws alone, in specs/.
#![tactic(auto)]
