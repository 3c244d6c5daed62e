use alpha_outside::OutOfMemory;

/// Why an after file is not taken.
#[derive(Clone, Copy, Debug, PartialEq, Eq)]
pub enum AfterFault {
    /// This line is no set, no comment and not empty. Lines are counted from 1.
    Refused { line: u64 },
    OutOfMemory,
}

impl From<OutOfMemory> for AfterFault {
    ghost use Rattle.std.specs.Prelude.{◌≡◌};
    ghost use Rattle.after_book.specs.declared.fault.AfterFault.TheVariants as fault;

    ghost from_gives = { λ _ e. e ≡ fault.OutOfMemory };

    fn from(_: OutOfMemory) -> Self {
        AfterFault::OutOfMemory
    }
}
