// What the calls of a book test, answer and do to the memory, and the law of their runs: definitions.
#![tactic(auto)]
