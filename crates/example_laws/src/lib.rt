// This crate states document 01's examples as one statement over a table. It has no code: its specs/ hold the table and
// the statement, its proofs/ the proof.
#![tactic(auto)]
