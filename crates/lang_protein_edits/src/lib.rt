// Protein edits: the edit at the front of a text, and the canonical text of an edit.
#![tactic(auto)]
