// What texts that come as frames answer, as relations between the stream, the calls and the answers.
#![tactic(auto)]
