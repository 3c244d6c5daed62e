use alpha_outside::Name;

/// Why a program has no strata.
#[derive(Debug, Drop)]
pub enum RecursionFault {
    /// The first statement with a recursive aggregate begins in this line, and this is the first predicate in an element that is in
    /// the statement's head or depends on it. A negated one has its `-`.
    Recursive { line: u32, name: Name },
    OutOfMemory,
}
