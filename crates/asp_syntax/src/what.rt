/// What a token that no program of this language has stands for in other dialects.
#[derive(Clone, Copy, Debug, PartialEq, Eq)]
pub enum What {
    Disjunction,
    Interval,
    Modulo,
    WeakConstraint,
    Query,
    MinMax,
    Directive,
    Other,
}
