// What a gate keeps.
ghost use Rattle.std.specs.Prelude.{ℕ, List};

/// What a gate keeps: a value with a base that stays, and a history that grows by at most one entry
/// in a turn. Contracts read these two of it, and of each entry the number of the seat that made it.
pub trait Machine: Send + Drop {
    /// What the machine was made from.
    type Base;

    /// One event of the history.
    type Entry;

    ghost base: { Self → Self.Base };

    ghost history: { Self → List Self.Entry };

    // The number of the seat that made the entry.
    ghost seat: { Self.Entry → ℕ };
}
