// This crate is empty. It held lemmas that proofs by hand of functions over a lent slice of structs shared; today the
// prover makes the goals of such functions itself, and nothing cites those lemmas. The crate stands so that nothing
// that had landed is dropped, and docs/PORT.md says what stands for its lemmas.
#![tactic(auto)]
