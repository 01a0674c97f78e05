//! What is left to do.
ghost use Rattle.std.specs.Prelude.{◌≡◌, map, IsSome};
ghost use Rattle.std.specs.List.{list_all};
ghost use Rattle.std.specs.Option.{ForSome, option_copied};
ghost use Rattle.document_machine.specs.Done.{is_done, is_lost};
ghost use Rattle.document_machine.specs.Quiet.{is_quiet};
ghost use Rattle.document_machine.specs.State.{find_view};
ghost use Rattle.broker_core.specs.Serving.{is_still};
ghost use Rattle.broker_core.specs.Stored.{has_unstored};

use crate::core_of::Core;
use crate::members::{Member, member_at};
use cool_base::{Token, Wids};
use kit_trait::Kit;

impl Member {
    /// Whether nothing is left to do for the view.
    fn is_still(&self) -> bool
        ensures { result ≡ is_still self.now.view }
    {
        self.view.is_acknowledged() && self.view.is_still()
    }
}

/// Whether nothing is left to do for each view.
fn are_still(members: &[Member]) -> bool
    ensures { result ≡ list_all (λ member. is_still member.view) members.now }
{
    for member in members {
        if !member.is_still() {
            return false;
        }
    }
    true
}

impl<K: Kit> Core<K> {
    /// Whether a turn would be Idle, no job is out, no put is under way and every window is empty.
    pub(crate) fn is_quiet(&self) -> bool
        ensures { result ≡ is_quiet K.rules self.now.document }
    {
        if self.saves.has_put() || self.saves.is_ready(self.inputs.applied) {
            return false;
        }
        if self.inputs.applied != self.inputs.accepted.len() as u64 {
            return false;
        }
        if self.jobs.len() > 0 {
            return false;
        }
        are_still(self.views.members.as_slice())
    }

    /// The numbers of the tiles that the view has not acknowledged, in order.
    pub(crate) fn unprocessed(&self, id: u32) -> Wids
        requires { IsSome (find_view self.now.document.views id) }
        ensures { ForSome (find_view self.now.document.views id) (λ view. map (λ wid. wid.0) result.items ≡ map (λ tile. tile.wid) view.window) }
    {
        match member_at(&self.views.members, id) {
            None => unreachable!(),
            Some(i) => self.views.members[i].view.wids(),
        }
    }

    /// Whether the document has no view, no save that is not answered and no put under way.
    pub(crate) fn is_done(&self) -> bool
        ensures { result ≡ is_done self.now.document }
    {
        if self.views.members.len() > 0 || !self.saves.is_empty() {
            return false;
        }
        !self.saves.has_put()
    }

    /// Whether the document is done and the content stored last lacks some of its inputs.
    pub(crate) fn is_lost(&self) -> bool
        ensures { result ≡ is_lost self.now.document }
    {
        self.is_done() && self.has_unstored()
    }

    /// Whether the content stored last lacks some of the accepted inputs.
    pub(crate) fn has_unstored(&self) -> bool
        ensures { result ≡ has_unstored self.now.document }
    {
        self.saves.last_stored() != self.inputs.accepted.len() as u64
    }

    /// The token of the view that said the last input.
    pub(crate) fn last_token(&self) -> Option<&Token>
        ensures { option_copied result ≡ self.now.document.saving.last_token }
    {
        self.saves.last_token()
    }
}
