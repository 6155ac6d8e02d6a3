// Languages as values: trees, a printer, a parser, and canonical texts, with combinators that are each proved once.
#![tactic(auto)]
