// Demand 3 of document 01 is about the whole search of a bus. This crate has no code: its specs/ hold the definitions
// of the search and of the demand, its proofs/ the theorem.
#![tactic(auto)]
