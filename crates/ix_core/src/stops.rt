ghost use Rattle.std.specs.Prelude.{◌≡◌};
ghost use Rattle.ix_model.specs.history.Systems.{one_more};

/// The calls of a seat that a full journal stopped.
#[derive(Clone, Copy)]
pub struct Stops {
    /// How many stopped, at most 2^64 - 1.
    pub count: u64,
    /// What the last stop told: the bytes of the journal that were used, those that the call needed, and its room. Zeros
    /// where there was none.
    pub used: u64,
    pub need: u64,
    pub cap: u64,
}

impl Stops {
    /// No stop.
    pub fn none() -> Stops
        ensures { result ≡ record { count = 0; used = 0; need = 0; cap = 0 } }
    {
        Stops {
            count: 0,
            used: 0,
            need: 0,
            cap: 0,
        }
    }

    /// One stop more, which told this.
    pub fn note(&mut self, used: u64, need: u64, cap: u64)
        ensures { self.new ≡ record { count = one_more self.old.count; used = used; need = need; cap = cap } }
    {
        *self = Stops {
            count: self.count.saturating_add(1),
            used,
            need,
            cap,
        };
    }
}
