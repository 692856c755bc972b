// What a seat knows of its gate. No value of these types is ever made: they exist in proofs alone.
use std::collections::LinkedList;

/// Where a seat stands in the queue.
pub enum Stage<E> {
    /// It has no ticket.
    Idle,
    /// It has this ticket, and did not find it served yet.
    Waits(u64),
    /// It holds the turn, and took the machine with this history.
    Holds(LinkedList<E>),
}

/// What a view has to do with the numbers of seats.
pub enum Role {
    /// It has no number: a note of what was seen, or a seat that was joined into another.
    Nobody,
    /// It may make this number, which is the next.
    Next(u64),
    /// It has just made this number for itself.
    Made(u64),
    /// It is the seat of this number.
    Numbered(u64),
}

/// What a seat knows.
pub struct View<B, E> {
    /// The base of the gate's machine. A seat that was joined into another has none.
    pub base: Option<B>,
    /// How many seats the gate was made with.
    pub seats: u64,
    pub role: Role,
    pub stage: Stage<E>,
    /// The history that the seat has seen.
    pub seen: LinkedList<E>,
    /// The shorter of the two histories that the last join brought together, until a look shows
    /// that it begins `seen`.
    pub told: LinkedList<E>,
    /// The entries of the seat's own number.
    pub own: LinkedList<E>,
    /// The numbers of the seats that were joined into this one, each with its entries.
    pub ended: LinkedList<(u64, LinkedList<E>)>,
    /// How many tickets the seat has drawn, and which was the last.
    pub turns: u64,
    pub ticket: u64,
    /// How often it looked at the number that is served, and what it found last.
    pub looks: u64,
    pub look_found: u64,
    /// How many of its draws failed since another number was next, and which was the last.
    pub misses: u64,
    pub miss_found: u64,
}
