//! `ViewLinks`.
ghost use Rattle.std.specs.Prelude.{◌≡◌, ◌==◌, ◌++◌, ◌∷◌, [], not, filter, length, OnOk, OnErr};
ghost use Rattle.std.specs.Prelude.{slice_get, IfOk, IfSome};
ghost use Rattle.std.specs.Option.{option_map};
ghost use Rattle.poll_machine.specs.Agenda.{link_of, view_of, without_view};

use cool_base::{LinkId, Memory, ViewId};
use std::alloc::Global;
use std::marker::Model;

/// A view and its link.
#[derive(Clone, Copy, Debug)]
pub struct ViewLink {
    pub view: ViewId,
    pub link: LinkId,
}

impl Model for ViewLink {
    ghost use Rattle.poll_machine.specs.Agenda.{ViewLink as Pair};

    ghost Value = { Pair };

    ghost view = { λ s. record { view = s.view.0; link = s.link.0 } };

    ghost inverse = { λ p. record { view = record { 0 = p.view }; link = record { 0 = p.link } } };
}

/// The views of a document with their links, in the order in which they came.
#[derive(Drop)]
pub struct ViewLinks {
    pairs: Vec<ViewLink>,
}

impl Model for ViewLinks {
    ghost use Rattle.std.specs.Prelude.{List};
    ghost use Rattle.poll_machine.specs.Agenda.{ViewLink as Pair};

    ghost Value = { List Pair };

    ghost view = { λ s. s.pairs.items };
}

// The link of the first pair with the view.
fn link_in(pairs: &[ViewLink], view: ViewId) -> Option<LinkId>
    ensures { option_map (λ link. link.0) result ≡ link_of pairs.now view.0 }
{
    for pair in pairs {
        if pair.view.0 == view.0 {
            return Some(pair.link);
        }
    }
    None
}

// The view of the first pair with the link.
fn view_in(pairs: &[ViewLink], link: LinkId) -> Option<ViewId>
    ensures { option_map (λ view. view.0) result ≡ view_of pairs.now link.0 }
{
    for pair in pairs {
        if pair.link.0 == link.0 {
            return Some(pair.view);
        }
    }
    None
}

// Takes the pairs with the view out.
fn forget(pairs: &mut Vec<ViewLink>, view: ViewId)
    ensures { pairs.new.items ≡ without_view pairs.old.items view.0 }
{
    pairs.retain(|pair| pair.view.0 != view.0);
}

impl ViewLinks {
    /// No view.
    pub fn new(alloc: Global) -> ViewLinks
        ensures { result ≡ [] }
    {
        ViewLinks {
            pairs: Vec::new(alloc),
        }
    }

    /// A view came, with its link. After `Memory` nothing changed.
    pub fn push(&mut self, view: ViewId, link: LinkId) -> Result<(), Memory>
        ensures came { OnOk result
            (self.new ≡ self.old ++ record { view = view.0; link = link.0 } ∷ []) }
        ensures unchanged { OnErr result (self.new ≡ self.old) }
    {
        self.pairs.push(ViewLink { view, link })?;
        Ok(())
    }

    /// The link of the view; None where the view has none.
    pub fn link_of(&self, view: ViewId) -> Option<LinkId>
        ensures { option_map (λ link. link.0) result ≡ link_of self.now view.0 }
    {
        link_in(self.pairs.as_slice(), view)
    }

    /// The view of the link; None where the link is no view.
    pub fn view_of(&self, link: LinkId) -> Option<ViewId>
        ensures { option_map (λ view. view.0) result ≡ view_of self.now link.0 }
    {
        view_in(self.pairs.as_slice(), link)
    }

    /// The view is gone, with its link. It takes no memory.
    pub fn remove(&mut self, view: ViewId)
        ensures { self.new ≡ without_view self.old view.0 }
    {
        forget(&mut self.pairs, view);
    }

    /// How many views there are.
    pub fn count(&self) -> usize
        ensures { result ≡ length self.now }
    {
        self.pairs.len()
    }

    /// The view that came first, with its link; None where there is none.
    pub fn first(&self) -> Option<ViewLink>
        ensures { result ≡ slice_get self.now 0 }
    {
        self.pairs.get(0).copied()
    }
}
