ghost use Rattle.std.specs.Prelude.{◌≡◌};
ghost use Rattle.ix_image.specs.Reading.{breaks, ends};
ghost use Rattle.ix_image.specs.declared.fault.Stop.TheVariants as stop;

use ix_model::NoMemory;

/// Why bytes weren't read.
#[derive(Clone, Copy, Debug, PartialEq, Eq)]
pub enum ReadImage {
    /// They are no image: at this place, from 0, they break this rule first.
    Fault { at: u64, rule: u8 },
    /// There was no memory.
    NoMemory,
}

/// The first rule that bytes break, and how many of them are left from the place where they break it.
#[derive(Clone, Copy, Debug, PartialEq, Eq)]
pub struct Fault {
    pub left: usize,
    pub rule: u8,
}

impl Fault {
    /// The field with which the bytes begin breaks a rule.
    pub fn here(rule: u8, bytes: &[u8]) -> Fault
        ensures { result ≡ breaks rule bytes.now }
    {
        Fault {
            left: bytes.len(),
            rule,
        }
    }

    /// What is there breaks a rule at its end.
    pub fn at_end(rule: u8) -> Fault
        ensures { result ≡ ends rule }
    {
        Fault { left: 0, rule }
    }
}

/// What stops a reader.
#[derive(Clone, Copy, Debug, PartialEq, Eq)]
pub enum Stop {
    Fault(Fault),
    NoMemory,
}

impl From<Fault> for Stop {
    ghost from_gives = { λ f e. e ≡ stop.Fault f };

    fn from(fault: Fault) -> Stop {
        Stop::Fault(fault)
    }
}

impl From<NoMemory> for Stop {
    ghost from_gives = { λ _ e. e ≡ stop.NoMemory };

    fn from(_e: NoMemory) -> Stop {
        Stop::NoMemory
    }
}
