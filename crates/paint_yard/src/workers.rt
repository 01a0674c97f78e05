//! What a thread that does works has outside: a gate before each work, and a post for the answers.
ghost use Rattle.std.specs.Prelude.{ℕ, List, [], ◌∷◌, Option};
ghost use Rattle.paint_yard.specs.Working.{Adds, Posting, Posts};

use cool_base::DocId;

/// What a thread is told before each work: how many works it has taken.
pub trait Gate {
    /// The counts that it was told, in order, where it tells them.
    ghost passes: { Self → Option (List ℕ) };

    /// Lets the work with this number through. It may wait.
    fn pass(&mut self, work: u64)
        ensures { Adds (passes self.old) (work ∷ []) (passes self.new) };
}

/// How a post was answered: it was taken; the document is gone, and the answer with it; it was
/// refused, and may be made again; or memory was refused, and nothing was posted.
#[derive(Drop)]
pub enum Posted<A> {
    Put,
    Gone,
    Again(A),
    Memory(A),
}

/// Where the answers to works go.
pub trait Post<A: Drop> {
    /// The posts that were made, in order, where it tells them.
    ghost told: { Self → Option (List (Posting A)) };

    /// Posts the answer to the document. A refused answer comes back.
    fn post(&mut self, doc: DocId, answer: A) -> Posted<A>
        ensures { Posts (told self.old) doc answer result (told self.new) };
}
