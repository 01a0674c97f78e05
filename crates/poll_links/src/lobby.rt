//! `Lobby`.
ghost use Rattle.std.specs.Prelude.{◌≡◌, ◌==◌, ◌++◌, ◌∷◌, [], not, filter, length, OnOk, OnErr};
ghost use Rattle.std.specs.List.{list_any};
ghost use Rattle.poll_machine.specs.House.{is_among, without_link};

use cool_base::{LinkId, Memory};
use std::alloc::Global;
use std::marker::Model;

/// The links of a poll that are no view yet, in the order in which they came. That a link said
/// `coolclient` isn't noted: the greeting is answered each time and changes nothing.
#[derive(Drop)]
pub struct Lobby {
    links: Vec<u64>,
}

impl Model for Lobby {
    ghost use Rattle.std.specs.Prelude.{List, ℕ};

    ghost Value = { List ℕ };

    ghost view = { λ s. s.links.items };
}

// Whether the link is one of these.
fn is_one_of(links: &[u64], link: u64) -> bool
    ensures { result ≡ is_among link links.now }
{
    links.iter().any(|other| *other == link)
}

// Takes the link out.
fn forget(links: &mut Vec<u64>, link: u64)
    ensures { links.new.items ≡ without_link link links.old.items }
{
    links.retain(|other| *other != link);
}

impl Lobby {
    /// No link.
    pub fn new(alloc: Global) -> Lobby
        ensures { result ≡ [] }
    {
        Lobby {
            links: Vec::new(alloc),
        }
    }

    /// A link came. After `Memory` nothing changed.
    pub fn push(&mut self, link: LinkId) -> Result<(), Memory>
        ensures came { OnOk result (self.new ≡ self.old ++ link.0 ∷ []) }
        ensures unchanged { OnErr result (self.new ≡ self.old) }
    {
        self.links.push(link.0)?;
        Ok(())
    }

    /// Whether the link waits here.
    pub fn has(&self, link: LinkId) -> bool
        ensures { result ≡ is_among link.0 self.now }
    {
        is_one_of(self.links.as_slice(), link.0)
    }

    /// The link is here no more. It takes no memory.
    pub fn remove(&mut self, link: LinkId)
        ensures { self.new ≡ without_link link.0 self.old }
    {
        forget(&mut self.links, link.0);
    }

    /// How many links wait here.
    pub fn count(&self) -> usize
        ensures { result ≡ length self.now }
    {
        self.links.len()
    }
}
