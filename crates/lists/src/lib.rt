//! The words on lists that every definition of the solver cites: membership, sets, each, at least one, the same set.
//!
//! The words stand in `specs/Lists.antt`, their lemmas in `proofs/ListLemmas.antt`. There is one word for each thing, so that no
//! two definitions need a bridge.
#![tactic(auto)]
