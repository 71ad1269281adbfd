//! Small lemmas on tests, numbers, options and lists that std doesn't have. They stand in `proofs/`; there is no code.
#![tactic(auto)]
