//! Changes of one open document.
ghost use Rattle.std.specs.Prelude.{◌≡◌, ◌<◌, Some, [], ◌∷◌, ◌++◌, length, slice_set, MatchResult};
ghost use Rattle.std.specs.List.{slice_get};
ghost use Rattle.hall_machine.specs.declared.words.OpenDocument.{OpenDocument};
ghost use Rattle.hall_machine.specs.declared.words.Holder.TheVariants.{At};

use crate::words::{Filed, Holder, Labelled, OpenDocument};
use cool_base::{FileId, Memory};
use std::alloc::Global;
use std::collections::LinkedList;

/// A new document at the end, and its file for the book.
pub fn open_one<P: Drop, M: Labelled>(
    opens: &mut Vec<OpenDocument<P, M>>,
    alloc: Global,
    doc: u32,
    file: &FileId,
    who: u32,
) -> Result<Filed, Memory>
    ensures { MatchResult result
        (λ filed. (filed ≡ file.now)
        × (opens.new.items ≡ opens.old.items
        ++ record { doc = doc; file = file.now; holder = At who; mails = [] } ∷ []))
        (λ _. opens.new.items ≡ opens.old.items) }
{
    let filed = Filed::of(alloc, file)?;
    opens.push(OpenDocument {
        doc,
        file: file.copy(),
        holder: Holder::At(who),
        mails: LinkedList::new(alloc),
    })?;
    Ok(filed)
}

/// The mail behind the others. After a refusal it comes back.
pub fn put_mail<P: Drop, M: Labelled>(
    opens: &mut [OpenDocument<P, M>],
    at: usize,
    mail: M,
) -> Result<(), M>
    requires { at < length opens.old }
    ensures { MatchResult result
        (λ _. (o : OpenDocument P M) × (slice_get opens.old at ≡ Some o)
        × (opens.new ≡ slice_set opens.old at (record o { mails = o.mails ++ mail ∷ [] })))
        (λ back. (back ≡ mail) × (opens.new ≡ opens.old)) }
{
    let o = &mut opens[at];
    match o.mails.push_back(mail) {
        Ok(()) => Ok(()),
        Err(failed) => Err(failed.value),
    }
}
