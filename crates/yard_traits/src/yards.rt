// A yard.
ghost use Rattle.std.specs.Prelude.{◌≡◌, ◌≤◌, ℕ, List, Option, MatchOption};
ghost use Rattle.cool_base.specs.declared.ids.DocId.{DocId};
ghost use Rattle.outside.specs.Causes.{Rose};
ghost use Rattle.yard_traits.specs.Yards.{TookOne};

use cool_base::DocId;

/// What takes works to be done elsewhere.
pub trait Yard<W: Drop> {
    /// The works that it took, in order, each with its document, where it tells them.
    ghost took: { Self → Option (List (DocId × W)) };

    /// How many full moments there were. The count stays at 2^64 - 1 once it is there.
    ghost full: { Self → ℕ };

    /// Takes the work, or gives it back at a full moment. It takes no memory.
    fn offer(&mut self, doc: DocId, work: W) -> Option<W>
        ensures told { MatchOption result
            (TookOne (took self.old) doc work (took self.new))
            (λ back. (back ≡ work) × (took self.new ≡ took self.old)) }
        ensures cause { MatchOption result (full self.new ≡ full self.old)
            (λ _. Rose (full self.old) (full self.new)) }
        ensures later { full self.old ≤ full self.new };
}
