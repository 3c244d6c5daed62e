//! How far a set has been read.

ghost use Rattle.std.specs.Prelude.{◌≡◌};
ghost use Rattle.answer_printer.specs.Machine.{is_due, is_end, is_start, is_whole, takes_atom, takes_end, takes_name};

use alpha_outside::Name;

/// What stands last of what was read, and with it what may come. Which arguments are being read stands beside it.
#[derive(Debug, Drop)]
pub enum Phase {
    /// Nothing yet: the `{` has to come.
    Start,
    /// The `{`: an atom or the `}` may come.
    First,
    /// A comma or a `(`: an atom or an argument has to come.
    Due,
    /// The sign of an atom: its name has to come.
    Signed,
    /// A name, which may have arguments.
    Named(Name),
    /// An atom or an argument that has ended.
    Whole,
    /// The `}`: nothing may come.
    End,
}

impl Phase {
    /// Whether a name may come.
    pub fn takes_name(&self) -> bool
        ensures { result ≡ takes_name self.now }
    {
        match self {
            Phase::First => true,
            Phase::Due => true,
            Phase::Signed => true,
            _ => false,
        }
    }

    /// Whether an atom may come, where no call is open.
    pub fn takes_atom(&self) -> bool
        ensures { result ≡ takes_atom self.now }
    {
        match self {
            Phase::First => true,
            Phase::Due => true,
            _ => false,
        }
    }

    /// Whether the set may end, where no call is open.
    pub fn takes_end(&self) -> bool
        ensures { result ≡ takes_end self.now }
    {
        match self {
            Phase::First => true,
            Phase::Whole => true,
            _ => false,
        }
    }

    /// Whether nothing was read.
    pub fn is_start(&self) -> bool
        ensures { result ≡ is_start self.now }
    {
        match self {
            Phase::Start => true,
            _ => false,
        }
    }

    /// Whether an atom or an argument has to come.
    pub fn is_due(&self) -> bool
        ensures { result ≡ is_due self.now }
    {
        match self {
            Phase::Due => true,
            _ => false,
        }
    }

    /// Whether an atom or an argument has ended.
    pub fn is_whole(&self) -> bool
        ensures { result ≡ is_whole self.now }
    {
        match self {
            Phase::Whole => true,
            _ => false,
        }
    }

    /// Whether the set has ended.
    pub fn is_end(&self) -> bool
        ensures { result ≡ is_end self.now }
    {
        match self {
            Phase::End => true,
            _ => false,
        }
    }
}
