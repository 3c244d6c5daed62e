/// An operation on integers.
#[derive(Clone, Copy, Debug, PartialEq, Eq)]
pub enum ArithOp {
    Add,
    Sub,
    Mul,
    /// Division that cuts towards zero.
    Div,
}

/// What a rule does where its body holds: its head follows, its head may be chosen, or the set is ruled out.
#[derive(Clone, Copy, Debug, PartialEq, Eq)]
pub enum RuleKind {
    Plain,
    Choice,
    Constraint,
}
