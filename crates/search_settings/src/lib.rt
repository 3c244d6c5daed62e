//! How far a search may go: what the words of a command line set, and what a search keeps to.
#![tactic(auto)]

ghost use Rattle.std.specs.Prelude.{◌≡◌};
ghost use Rattle.search_settings.specs.Defaults.{defaults};

/// The most sets that are written where no option says otherwise.
pub const MOST_SETS: u64 = 1_000_000_000;

/// The most nogoods that are noted as struck where no option says otherwise.
pub const MOST_CONFLICTS: u64 = 1_000_000;

/// The most instances that are made where no option says otherwise.
pub const MOST_INSTANCES: u64 = 10_000_000;

/// How far a search may go.
#[derive(Clone, Copy, Debug, PartialEq, Eq)]
pub struct Settings {
    /// The most sets that are written; not 0.
    pub limit: u64,
    /// The most nogoods that are noted as struck.
    pub conflicts: u64,
    /// The most instances that are made.
    pub instances: u64,
}

impl Settings {
    /// How far a search may go where no option says otherwise.
    pub fn defaults() -> Settings
        ensures { result ≡ defaults }
    {
        Settings {
            limit: MOST_SETS,
            conflicts: MOST_CONFLICTS,
            instances: MOST_INSTANCES,
        }
    }
}
