// Works that are done elsewhere, and what they are answered.
use cool_base::Ticket;
use kit_trait::{Done, PaintJob};
use outside::{Errand, Receipt, StoreFault};

/// A work that a document gives out.
#[derive(Drop)]
pub enum Work<S> {
    /// A scene to be painted.
    Paint(PaintJob<S>),
    /// A content to be stored.
    Put(Errand),
}

/// What a work is answered: a painted scene, or what the store answered to the errand with this
/// ticket.
#[derive(Drop)]
pub enum Answered<D> {
    Painted(D),
    PutDone {
        ticket: Ticket,
        result: Result<Receipt, StoreFault>,
    },
}

/// The answers to works of documents with scenes of this type.
pub type Answer<S> = Answered<Done<S>>;
