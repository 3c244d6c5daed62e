//! Whether terms of the pool arise from terms of a pattern by putting values for its holes, the same value for the same hole, and whether terms with
//! holes become only what others become.
#![tactic(auto)]

mod fitting;
mod instances;
#[cfg(test)]
mod tests;

pub use fitting::can_become;
pub use instances::are_instances;
