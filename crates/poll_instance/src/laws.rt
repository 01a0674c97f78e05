//! Laws of the polls of the daemon.
ghost use Rattle.std.specs.Prelude.{◌≡◌, ℕ, List, Option, Some, false};
ghost use Rattle.std.specs.List.{AllByRecursion};
ghost use Rattle.outside.specs.declared.errands.Errand.{Errand};
ghost use Rattle.kit_trait.specs.declared.jobs.PaintJob.{PaintJob};
ghost use Rattle.save_core.specs.Saving.{Saving, errand_for, served};
ghost use Rattle.document_machine.specs.Goes.{Goes};
ghost use Rattle.document_machine.specs.Held.{Held};
ghost use Rattle.document_machine.specs.declared.outs.Outs.{Outs as Given};
ghost use Rattle.load_address.specs.declared.served.Served.{Served};
ghost use Rattle.poll_machine.specs.Words.{Event, Turned, Outs, nothing};
ghost use Rattle.poll_instance.specs.Instance.{Painting, given_out, machine_event, ways};
ghost use Rattle.poll_instance.specs.Locks.{put_token};

use kit_trait::Kit;

/// Each step of a document that a poll holds is a move of its broker, by the same event, and what
/// the poll gives on is what the broker gave out.
pub fn polls_move_documents<K: Kit>()
    ensures { (served : Served) (old new : Option (Held K.Scene)) (event : Event (Painting K.Scene))
        (outs : Outs (PaintJob K.Scene))
        → (ways K.rules K.cut served).Steps old event outs new
        → (given : Given K.Scene) × Goes K.rules K.cut old (machine_event event) given new
        × (outs ≡ given_out given) }
{}

/// A turn that does no work gives nothing out, and leaves the document and what is kept of it.
pub fn idle_turns_rest<K: Kit>()
    ensures { (served : Served) (old new : Option (Held K.Scene)) (outs : Outs (PaintJob K.Scene))
        → (ways K.rules K.cut served).Steps old (Turned false) outs new
        → (outs ≡ nothing) × (new ≡ old) }
{}

/// The token by which a put's lock is kept is that of its errand.
pub fn locks_have_their_errands_token()
    ensures { (applied : ℕ) (file content : List ℕ) (s : Saving) (errand : Errand)
        → AllByRecursion (λ save. save.bound ≡ false) s.saves
        → errand_for applied file content s ≡ Some errand
        → put_token (served applied file content s) ≡ Some errand.token }
{}
