// What each operation answers, as relations between input and answer.
#![tactic(auto)]
