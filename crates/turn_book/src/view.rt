//! What a seat knows. No value of these types exists: they are the types of ghost fields.
use std::collections::LinkedList;

/// What a numbered seat knew when it was joined into another.
pub struct Met<E> {
    pub number: u64,
    pub seen: LinkedList<E>,
    pub places: LinkedList<u64>,
    pub heard: LinkedList<u64>,
}

/// What a seat knows of the one journal, by its own steps alone.
pub struct View<E, F> {
    /// The book's fixed part; none once the seat was joined into another.
    pub fixed: Option<F>,
    /// The place of the entry by which the seat entered, once it did.
    pub number: Option<u64>,
    /// The prefix of the journal that the seat has seen.
    pub seen: LinkedList<E>,
    /// The journal's lengths that it found with the turn, and the places of its own entries, in the order of its steps.
    pub marks: LinkedList<u64>,
    /// Only the lengths that it found with the turn.
    pub places: LinkedList<u64>,
    /// The whole journal, while the seat has the turn.
    pub held: Option<LinkedList<E>>,
    /// The lengths that it found without the turn.
    pub heard: LinkedList<u64>,
    /// How many of its takes found the turn taken.
    pub missed: u64,
    /// The numbered seats that were joined into it, and those that had been joined into them.
    pub met: LinkedList<Met<E>>,
    /// What it and the other seat had seen just before the last join.
    pub olds: LinkedList<LinkedList<E>>,
}
