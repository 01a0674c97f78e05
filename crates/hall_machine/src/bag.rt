//! `MailBag`.
ghost use Rattle.std.specs.Prelude.{◌≡◌, ℕ, ◌≤◌, ◌<◌, List, [], ◌∷◌, ◌++◌, length, IfOk, Option};
ghost use Rattle.std.specs.Prelude.{None, Some, MatchOption, vec_len};

use cool_base::Memory;
use std::alloc::Global;
use std::marker::Model;

/// At most 64 mails, in order. Its room is taken when it is made.
#[derive(Drop)]
pub struct MailBag<M> {
    mails: Vec<M>,
}

impl<M> Model for MailBag<M> {
    ghost use Rattle.std.specs.Prelude.{◌≤◌, List, length};
    ghost use Rattle.std.specs.Vec.{vec_capacity};
    ghost use Rattle.std.specs.Coded.{coded_list};

    ghost Value = { List M };

    ghost coded = { coded_list M.code };

    ghost view = { λ a. a.mails.items };

    ghost invariant = { λ a. (length a.mails.items ≤ 64) × (64 ≤ vec_capacity a.mails) };
}

impl<M: Drop> MailBag<M> {
    /// An empty bag with room for 64 mails.
    pub fn new(alloc: Global) -> Result<MailBag<M>, Memory>
        ensures { IfOk result (λ bag. bag ≡ []) }
    {
        let mails = Vec::with_capacity(alloc, 64)?;
        Ok(MailBag { mails })
    }

    /// The first mail, taken out. None exactly where the bag is empty. It takes no memory.
    pub fn take(&mut self) -> Option<M>
        ensures { MatchOption result ((self.old ≡ []) × (self.new ≡ []))
            (λ mail. self.old ≡ mail ∷ self.new) }
    {
        if self.mails.is_empty() {
            return None;
        }
        Some(self.mails.remove(0))
    }

    // One mail more, at the end.
    pub(crate) fn put(&mut self, mail: M)
        requires { length self.old < 64 }
        ensures { self.new ≡ self.old ++ mail ∷ [] }
    {
        self.mails.push_reserved(mail);
    }
}
