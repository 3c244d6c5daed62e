use alpha_outside::Name;

/// Why a program is refused.
#[derive(Debug, Drop)]
pub enum SafetyFault {
    /// The first unsafe statement begins in this line, and this is its first variable that isn't bound, or `_`.
    Unsafe { line: u32, variable: Name },
    /// The first statement with a recursive aggregate begins in this line, and this is the first predicate in an element that is in
    /// the statement's head or depends on it. A negated one has its `-`.
    AggregateRecursive { line: u32, name: Name },
    OutOfMemory,
}
