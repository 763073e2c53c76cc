// No code: theorems that compute document 01's numbers from the definitions of the core and of decks stand in proofs/. They are a crate of their own since no
// function's proof needs them, and each must-fail edit of a crate costs a whole check of it.
#![tactic(auto)]
