// The bits of words: no code, only a definition and its laws. Sets of ids (ids) and of glasses (glass_set) are made of them.
#![tactic(auto)]
