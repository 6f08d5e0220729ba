use campaign_core::Entry;
use std::collections::LinkedList;
use std::snapshot::Snapshot;

/// What a seat knows. No value of it is made.
#[derive(Drop)]
pub struct View<B> {
    /// The book that was opened. A view that was joined away has none.
    pub first: Option<B>,
    /// Whether it is the view of a seat: one that was joined away isn't.
    pub live: bool,
    /// Whether the seat holds the book.
    pub holds: bool,
    /// The opening target.
    pub target: u32,
    pub block: u32,
    pub number: u32,
    /// Of the opening seat: how many seats were made, itself included.
    pub made: u32,
    /// The history that the seat has seen.
    pub seen: LinkedList<Entry>,
    /// What a seat that was just joined had seen, while it isn't known to begin `seen`.
    pub also: LinkedList<Entry>,
    /// The seat's own calls, and those of the seats that were joined into it.
    pub calls: LinkedList<Entry>,
    /// The numbers of the seats that were joined into it.
    pub joined: LinkedList<u32>,
}

/// What a book is opened with.
#[derive(Drop)]
pub struct Opening<B> {
    pub target: u32,
    pub block: u32,
    pub book: Snapshot<B>,
}
