//! How long a caller waits.

ghost use Rattle.std.specs.Prelude.{◌≡◌};
ghost use Rattle.mtapi_values.specs.Timeouts.{looks_of};

/// How often a call may look before it gives up.
#[derive(Clone, Copy, Debug, Drop, PartialEq, Eq)]
pub enum Timeout {
    /// One look.
    NoWait,
    /// This many looks after the first.
    Looks(u32),
    /// As many looks as it takes.
    Infinite,
}

impl Timeout {
    /// The number of looks that are allowed, or None where there is no limit.
    pub fn looks(self) -> Option<u64>
        ensures { result ≡ looks_of self }
    {
        match self {
            Timeout::NoWait => Some(1),
            Timeout::Looks(more) => Some(1 + u64::from(more)),
            Timeout::Infinite => None,
        }
    }
}
