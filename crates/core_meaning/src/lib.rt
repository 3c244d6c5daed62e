//! What core rules mean: their instances, the steps that add up aggregates, numberings, and core answer sets.
//!
//! This crate has definitions alone, in `specs/`, over all cores. They stand on the values of `asp_meaning`, with integers without
//! bound, and on the instances and core answer sets of `search_values`.
//!
//! | file | defines |
//! |---|---|
//! | `Terms.antt` | the value of a core term, and when a test is true |
//! | `Atoms.antt` | ground core atoms, and the one that an atom with variables becomes |
//! | `Instances.antt` | the instance of a rule under values for its variables |
//! | `Steps.antt` | the steps that add up an aggregate, under a numbering of its members |
//! | `Numberings.antt` | members, numberings, and what extends one |
//! | `AnswerSets.antt` | core answer sets, and how they stand for sets of atoms |
#![tactic(auto)]
