// Events of links, and links.
ghost use Rattle.std.specs.Prelude.{◌≡◌, ◌++◌, ◌∷◌, [], true, false, IfOk, OnOk, OnErr};
ghost use Rattle.std.specs.Prelude.{MatchResult, Some, None, Ok};
ghost use Rattle.net_traits.specs.declared.nets.Given.{Given};
ghost use Rattle.net_traits.specs.Nets.{taken_of};
ghost use Rattle.script_net.specs.Queues.{TakesAt, event_at, opens, is_same, first_place};

use cool_base::{LinkId, ListOf, Memory};
use net_traits::{Given, Taken};
use std::alloc::Global;
use std::collections::VecDeque;
use std::marker::Model;

/// What comes of a link.
#[derive(Drop)]
pub enum Event {
    Opens,
    Says(ListOf<u8>),
    Leaves,
}

/// An event with its place in the order of coming over all nets.
#[derive(Drop)]
pub struct Coming {
    pub place: u64,
    pub event: Event,
}

/// A link with its events that wait. One that was released goes to another net.
#[derive(Drop)]
pub struct ScriptLink {
    link: LinkId,
    live: bool,
    marked: bool,
    waiting: VecDeque<Coming>,
}

impl Model for ScriptLink {
    ghost use Rattle.script_net.specs.Queues.{LinkSeen};

    ghost Value = { LinkSeen };

    ghost view = { λ l. record {
      link = l.link;
      live = l.live;
      marked = l.marked;
      waiting =
          l.waiting.items;
    } };
}

impl ScriptLink {
    /// A live link for which nothing waits.
    pub fn new(alloc: Global, link: LinkId) -> ScriptLink
        ensures { result ≡ record { link = link; live = true; marked = false; waiting = [] } }
    {
        ScriptLink {
            link,
            live: true,
            marked: false,
            waiting: VecDeque::new(alloc),
        }
    }

    /// The link's name in the net that holds or held it.
    pub fn link(&self) -> LinkId
        ensures { result ≡ self.now.link }
    {
        self.link
    }

    /// Whether the link says more.
    pub fn is_live(&self) -> bool
        ensures { result ≡ self.now.live }
    {
        self.live
    }

    /// Adds an event. The link is live or not from then on.
    pub fn add(&mut self, place: u64, event: Event, live: bool) -> Result<(), Memory>
        ensures ok { OnOk result
            (self.new ≡ record self.old {
              live = live;
              waiting = self.old.waiting
                  ++ (record { place = place; event = event }) ∷ [];
            }) }
        ensures err { OnErr result (self.new ≡ self.old) }
    {
        self.waiting.push_back(Coming { place, event })?;
        self.live = live;
        Ok(())
    }

    /// Marks the link: its next give fails.
    pub fn mark(&mut self)
        ensures { self.new ≡ record self.old { marked = true } }
    {
        self.marked = true;
    }

    /// What a give to the link comes to. One that fails takes the mark off and ends the link.
    pub fn give(&mut self) -> Given
        ensures fails { self.old.marked ≡ true → (result ≡ Given.Failed)
            × (self.new ≡ record self.old { live = false; marked = false }) }
        ensures sent { self.old.marked ≡ false → (result ≡ Given.Sent) × (self.new ≡ self.old) }
    {
        if self.marked {
            self.marked = false;
            self.live = false;
            Given::Failed
        } else {
            Given::Sent
        }
    }

    /// The place of the first event that waits.
    pub fn first_place(&self) -> Option<u64>
        ensures { result ≡ first_place self.now.waiting }
    {
        match self.waiting.front() {
            Some(coming) => Some(coming.place),
            None => None,
        }
    }

    /// Takes the first event that waits, where it may come of a link that is held or isn't.
    pub fn take(&mut self, is_held: bool) -> Option<Taken>
        ensures { TakesAt self.old.waiting self.old is_held result self.new }
    {
        let Some(first) = self.waiting.front() else {
            return None;
        };
        if is_amiss(&first.event, is_held) {
            return None;
        }
        let link = self.link;
        match self.waiting.pop_front() {
            Some(coming) => Some(taken_at(link, coming.event)),
            None => None,
        }
    }
}

// Whether the event can't come of a link that is held or isn't.
fn is_amiss(event: &Event, is_held: bool) -> bool
    ensures { result ≡ is_same (opens event.now) is_held }
{
    match event {
        Event::Opens => is_held,
        Event::Says(_) | Event::Leaves => !is_held,
    }
}

fn taken_at(link: LinkId, event: Event) -> Taken
    ensures { result ≡ taken_of (event_at link event) }
{
    match event {
        Event::Opens => Taken::Opened(link),
        Event::Says(bytes) => Taken::Said(link, bytes),
        Event::Leaves => Taken::Left(link),
    }
}
