// What no other crate is about: lent lists, laws of tests. No code, only definitions and laws.
#![tactic(auto)]
