//! What a justification answers.

use alpha_outside::{List, Lit, Pattern};

/// Why an atom can't be derived: a cover, or the shapes that show that the rules lead to too many for one.
#[derive(Debug, Drop)]
pub enum Reason {
    /// The patterns, the first of which covers the atom, are with the literals a cover. There are at most 256.
    Cover {
        patterns: List<Pattern>,
        lits: List<Lit>,
    },
    /// 257 shapes: the first is that of the atom, and to each other one a rule leads from an earlier one, of none of which it is an instance.
    Wide {
        shapes: List<Pattern>,
    },
}
