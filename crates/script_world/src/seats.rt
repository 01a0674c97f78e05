//! `Seats`: the links that are held, and the records of frames to them.
ghost use Rattle.std.specs.Prelude.{◌≡◌, IfOk};
ghost use Rattle.script_world.specs.Seats.{tells, tells_if, record_to, records};

use cool_base::{Memory, ViewId};
use cool_frame::{Frame, write_frame};
use script_lines::record_of;
use std::alloc::Global;
use std::collections::{BTreeMap, BTreeSet};
use std::marker::Model;

/// The links in the lobby, and those that are views, each with its view's id.
#[derive(Drop)]
pub struct Seats {
    lobby: BTreeSet<u32>,
    views: BTreeMap<u32, u32>,
}

impl Model for Seats {
    ghost use Rattle.script_world.specs.Seats.{Seats as Held};

    ghost Value = { Held };

    ghost view = { λ s. record { lobby = s.lobby.keys; views = s.views.entries } };
}

impl Seats {
    ghost use Rattle.std.specs.Prelude.{◌≡◌, map, OnOk};
    ghost use Rattle.std.specs.List.Sorted.{IsStrictlySortedBy};
    ghost use Rattle.std.specs.Ordering.{nat_cmp};
    ghost use Rattle.script_world.specs.Seats.{nobody, is_waiting, view_of, enters, sits, without, link_of};

    /// No link is held.
    pub fn new(alloc: Global) -> Seats
        ensures { result ≡ nobody }
    {
        Seats {
            lobby: BTreeSet::new(alloc),
            views: BTreeMap::new(alloc),
        }
    }

    /// Whether the link is in the lobby: it is held there, and is no view.
    pub fn is_waiting(&self, link: u32) -> bool
        ensures { result ≡ is_waiting self.now link }
    {
        self.lobby.contains(&link) && self.view_of(link).is_none()
    }

    /// The view that the link is.
    pub fn view_of(&self, link: u32) -> Option<u32>
        ensures { result ≡ view_of self.now link }
    {
        self.views.get(&link).copied()
    }

    /// The link of the view.
    pub fn link_of(&self, view: u32) -> Option<u32>
        ensures { result ≡ link_of self.now view }
    {
        for (link, other) in &self.views {
            if *other == view {
                return Some(*link);
            }
        }
        None
    }

    /// The links that are views, in order, each with its view's id.
    pub fn views(&self) -> &BTreeMap<u32, u32>
        ensures entries { result.now.entries ≡ self.now.views }
        ensures sorted { IsStrictlySortedBy nat_cmp (map (λ seat. seat.0) self.now.views) }
    {
        let _count = self.views.len();
        &self.views
    }

    /// The link comes into the lobby.
    pub fn enter(&mut self, link: u32) -> Result<(), Memory>
        ensures { OnOk result (self.new ≡ enters self.old link) }
    {
        self.lobby.insert(link)?;
        Ok(())
    }

    /// The link leaves the lobby and is this view from now on.
    pub fn sit(&mut self, link: u32, view: u32) -> Result<(), Memory>
        ensures { OnOk result (self.new ≡ sits self.old link view) }
    {
        self.views.insert(link, view)?;
        self.lobby.remove(&link);
        Ok(())
    }

    /// The link is gone.
    pub fn leave(&mut self, link: u32)
        ensures { self.new ≡ without self.old link }
    {
        self.lobby.remove(&link);
        self.views.remove(&link);
    }
}

/// The record of a frame to a link.
pub(crate) fn record(alloc: Global, link: u32, frame: &Frame) -> Result<Vec<u8>, Memory>
    ensures { IfOk result (λ bytes. bytes.items ≡ tells link frame.now) }
{
    let frame = write_frame(alloc, frame)?;
    record_of(alloc, u64::from(link), &frame)
}

// The record of a frame to the link of its view.
fn record_to(alloc: Global, seats: &Seats, view: ViewId, frame: &Frame) -> Result<Vec<u8>, Memory>
    ensures { IfOk result (λ bytes. bytes.items ≡ record_to seats.now (view, frame.now)) }
{
    match seats.link_of(view.0) {
        Some(link) => record(alloc, link, frame),
        None => Ok(Vec::new(alloc)),
    }
}

/// The records of frames to the links of their views, in order.
pub(crate) fn records(
    alloc: Global,
    seats: &Seats,
    frames: &[(ViewId, Frame)],
) -> Result<Vec<u8>, Memory>
    ensures { IfOk result (λ bytes. bytes.items ≡ records seats.now frames.now) }
{
    let mut bytes = Vec::new(alloc);
    for given in frames {
        let one = record_to(alloc, seats, given.0, &given.1)?;
        bytes.extend_from_slice(&one)?;
    }
    Ok(bytes)
}
