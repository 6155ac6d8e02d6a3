// Nucleotide edits as a language and as values: definitions and laws alone, in specs/.
#![tactic(auto)]
