//! `Member`: a view of the document, with its id.
ghost use Rattle.std.specs.Prelude.{◌≡◌, IfSome, None};
ghost use Rattle.document_machine.specs.State.{find_view, is_live};
ghost use Rattle.broker_core.specs.Members.{views_of};
ghost use Rattle.broker_core.specs.Places.{IsPlace};

use view_session::View;

/// A view of the document, with its id.
#[derive(Drop)]
pub(crate) struct Member {
    pub(crate) id: u32,
    pub(crate) view: View,
}

/// The place of the view with this id; None exactly where there is no such view.
pub(crate) fn member_at(members: &Vec<Member>, id: u32) -> Option<usize>
    ensures place { IfSome result (IsPlace members.now.items id) }
    ensures none { result ≡ None → find_view (views_of members.now.items) id ≡ None }
{
    for (i, member) in members.iter().enumerate() {
        if member.id == id {
            return Some(i);
        }
    }
    None
}

/// Whether the view with this id is there.
pub(crate) fn is_there(members: &Vec<Member>, id: u32) -> bool
    ensures { result ≡ is_live (views_of members.now.items) id }
{
    member_at(members, id).is_some()
}
