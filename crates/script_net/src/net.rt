// A net in memory.
ghost use Rattle.std.specs.Prelude.{◌≡◌, ◌==◌, ◌<◌, ◌++◌, ◌∷◌, ◌+◌, ◌-◌, ◌^◌, min, [], not, true};
ghost use Rattle.std.specs.Prelude.{false, length, option_map, IfSome, Some, None};
ghost use Rattle.std.specs.List.{position, list_any};
ghost use Rattle.script_net.specs.Queues.{next_from, index_of, sooner};
ghost use Rattle.script_net.specs.Past.{is_one_of, without};
ghost use Rattle.script_net.specs.Gives.{GivesAt};

use crate::events::{Event, ScriptLink};
use crate::gifts::{Frame, Gift};
use cool_base::{LinkId, ListOf, Memory};
use http_server::Log;
use net_traits::{Given, Net, Taken};
use std::alloc::Global;
use std::mem;

/// A net in memory. Each event has a place in one order of coming over all nets, and the next event
/// is
/// the one that came first, whichever link it is of.
#[derive(Drop)]
pub struct ScriptNet {
    alloc: Global,
    links: Vec<ScriptLink>,
    held: Vec<LinkId>,
    frames: Vec<Frame>,
    take_faults: u64,
    give_faults: u64,
    // What the net tells. No code reads it, and it has no bytes.
    calls: Log<Taken, Option<Gift>>,
    misses: Log<LinkId, LinkId>,
}

// The index of the link whose first event came first.
#[tactic(auto, using(crate::proofs::Next::next_step))]
fn next_at(links: &[ScriptLink]) -> Option<usize>
    ensures next { result ≡ option_map (λ n. n.0) (next_from 0 links.now) }
    ensures within { IfSome result (λ i. i < length links.now) }
{
    let mut best: Option<(usize, u64)> = None;
    let mut left = links.len();
    while left > 0 {
        left -= 1;
        best = sooner(left, links[left].first_place(), best);
    }
    match best {
        Some((index, _)) => Some(index),
        None => None,
    }
}

// The sooner of two.
fn sooner(index: usize, place: Option<u64>, best: Option<(usize, u64)>) -> Option<(usize, u64)>
    ensures { result ≡ sooner index place best }
{
    match (place, best) {
        (None, _) => best,
        (Some(place), None) => Some((index, place)),
        (Some(place), Some(other)) => {
            if place <= other.1 {
                Some((index, place))
            } else {
                best
            }
        }
    }
}

// The index of the link with this name.
fn index_of(links: &[ScriptLink], link: LinkId) -> Option<usize>
    ensures index { result ≡ index_of link links.now }
    ensures within { IfSome result (λ i. i < length links.now) }
{
    links.iter().position(|other| other.link().0 == link.0)
}

// Whether the link is one of these.
fn is_one_of(links: &[LinkId], link: LinkId) -> bool
    ensures { result ≡ is_one_of links.now link.0 }
{
    links.iter().any(|other| link.0 == other.0)
}

// Takes the link off.
fn forget(links: &mut Vec<LinkId>, link: LinkId)
    ensures { links.new.items ≡ without link links.old.items }
{
    links.retain(|other| other.0 != link.0);
}

// What a give to the link with this name comes to.
fn give_to(links: &mut Vec<ScriptLink>, link: LinkId) -> Given
    ensures { GivesAt (index_of link links.old.items) links.old.items result links.new.items }
{
    match index_of(links, link) {
        Some(at) => links[at].give(),
        None => Given::Sent,
    }
}

impl ScriptNet {
    ghost use Rattle.std.specs.Prelude.{◌≡◌, ◌++◌, ◌∷◌, [], Some, None, Ok, true, false, IfOk};
    ghost use Rattle.std.specs.Prelude.{OnErr, MatchOption};
    ghost use Rattle.std.specs.Prelude.{◌<◌, ◌+◌, ◌-◌, ◌^◌, min, vec_len, vec_capacity};
    ghost use Rattle.outside.specs.Causes.{HasCause};
    ghost use Rattle.net_traits.specs.Nets.{MayTake, Takes};
    ghost use Rattle.script_net.specs.Past.{held_after, told_of};
    ghost use Rattle.script_net.specs.Queues.{index_of, is_live_in, Added, MarkedAt};

    /// A net without links.
    pub fn new(alloc: Global) -> ScriptNet
        ensures links { (result.links.items ≡ []) × (result.held.items ≡ []) }
        ensures frames { result.frames.items ≡ [] }
        ensures faults { (result.take_faults ≡ 0) × (result.give_faults ≡ 0) }
        ensures calls { result.calls.items ≡ [] }
        ensures missed { result.misses.items ≡ [] }
    {
        ScriptNet {
            alloc,
            links: Vec::new(alloc),
            held: Vec::new(alloc),
            frames: Vec::new(alloc),
            take_faults: 0,
            give_faults: 0,
            calls: Log::new(),
            misses: Log::new(),
        }
    }

    /// The frames that were sent since the last drain, in order. They are kept no longer.
    pub fn drain(&mut self) -> Vec<Frame>
        ensures frames { result.items ≡ self.old.frames.items }
        ensures drained { self.new.frames.items ≡ [] }
        ensures links { (self.new.links ≡ self.old.links) × (self.new.held ≡ self.old.held) }
        ensures faults { (self.new.take_faults ≡ self.old.take_faults)
            × (self.new.give_faults ≡ self.old.give_faults) }
        ensures told { (self.new.calls ≡ self.old.calls) × (self.new.misses ≡ self.old.misses) }
    {
        mem::replace(&mut self.frames, Vec::new(self.alloc))
    }

    /// Whether the link is here and says more.
    pub fn is_live(&self, link: LinkId) -> bool
        ensures { result ≡ is_live_in link self.now.links.items }
    {
        self.links
            .iter()
            .any(|other| other.link().0 == link.0 && other.is_live())
    }

    /// A link opens: it is live, and its Opened waits. False exactly where the link is here
    /// already.
    pub fn open(&mut self, link: LinkId, place: u64) -> Result<bool, Memory>
        ensures opened { IfOk result (λ opened. MatchOption (index_of link self.old.links.items)
            ((opened ≡ true) × (self.new.links.items ≡ self.old.links.items
            ++ (record {
              link = link;
              live = true;
              marked = false;
              waiting =
                  (record { place = place; event = Event.Opens }) ∷ [];
            }) ∷ []))
            (λ _. (opened ≡ false) × (self.new.links.items ≡ self.old.links.items))) }
        ensures err { OnErr result (self.new.links.items ≡ self.old.links.items) }
        ensures frames { self.new.frames ≡ self.old.frames }
        ensures held { self.new.held ≡ self.old.held }
        ensures told { (self.new.calls ≡ self.old.calls) × (self.new.misses ≡ self.old.misses) }
        ensures faults { (self.new.take_faults ≡ self.old.take_faults)
            × (self.new.give_faults ≡ self.old.give_faults) }
    {
        if index_of(&self.links, link).is_some() {
            return Ok(false);
        }
        let mut fresh = ScriptLink::new(self.alloc, link);
        fresh.add(place, Event::Opens, true)?;
        self.links.push(fresh)?;
        Ok(true)
    }

    /// A live link says something. False exactly where no such link is live here.
    pub fn say(&mut self, link: LinkId, bytes: ListOf<u8>, place: u64) -> Result<bool, Memory>
        ensures said { IfOk result
            (λ said. Added link (record { place = place; event = Event.Says bytes }) true
            self.old.links.items said self.new.links.items) }
        ensures err { OnErr result (self.new.links.items ≡ self.old.links.items) }
        ensures frames { self.new.frames ≡ self.old.frames }
        ensures held { self.new.held ≡ self.old.held }
        ensures told { (self.new.calls ≡ self.old.calls) × (self.new.misses ≡ self.old.misses) }
        ensures faults { (self.new.take_faults ≡ self.old.take_faults)
            × (self.new.give_faults ≡ self.old.give_faults) }
    {
        self.add(link, place, Event::Says(bytes), true)
    }

    /// A live link leaves: it is live no longer, and its Left waits. False exactly where no such
    /// link is
    /// live here.
    pub fn drop_link(&mut self, link: LinkId, place: u64) -> Result<bool, Memory>
        ensures left { IfOk result
            (λ left. Added link (record { place = place; event = Event.Leaves }) false
            self.old.links.items left self.new.links.items) }
        ensures err { OnErr result (self.new.links.items ≡ self.old.links.items) }
        ensures frames { self.new.frames ≡ self.old.frames }
        ensures held { self.new.held ≡ self.old.held }
        ensures told { (self.new.calls ≡ self.old.calls) × (self.new.misses ≡ self.old.misses) }
        ensures faults { (self.new.take_faults ≡ self.old.take_faults)
            × (self.new.give_faults ≡ self.old.give_faults) }
    {
        self.add(link, place, Event::Leaves, false)
    }

    // Adds an event at a live link.
    fn add(&mut self, link: LinkId, place: u64, event: Event, live: bool) -> Result<bool, Memory>
        ensures added { IfOk result
            (λ added. Added link
            (record { place = place; event = event }) live self.old.links.items added
            self.new.links.items) }
        ensures err { OnErr result (self.new.links.items ≡ self.old.links.items) }
        ensures frames { self.new.frames ≡ self.old.frames }
        ensures held { self.new.held ≡ self.old.held }
        ensures told { (self.new.calls ≡ self.old.calls) × (self.new.misses ≡ self.old.misses) }
        ensures faults { (self.new.take_faults ≡ self.old.take_faults)
            × (self.new.give_faults ≡ self.old.give_faults) }
    {
        let Some(at) = index_of(&self.links, link) else {
            return Ok(false);
        };
        if !self.links[at].is_live() {
            return Ok(false);
        }
        self.links[at].add(place, event, live)?;
        Ok(true)
    }

    /// The next give to the link fails. False exactly where the link isn't here.
    pub fn fail_next(&mut self, link: LinkId) -> bool
        ensures marked { MatchOption (index_of link self.old.links.items)
            ((result ≡ false) × (self.new.links.items ≡ self.old.links.items))
            (λ i. (result ≡ true) × MarkedAt i self.old.links.items self.new.links.items) }
        ensures frames { self.new.frames ≡ self.old.frames }
        ensures held { self.new.held ≡ self.old.held }
        ensures told { (self.new.calls ≡ self.old.calls) × (self.new.misses ≡ self.old.misses) }
        ensures faults { (self.new.take_faults ≡ self.old.take_faults)
            × (self.new.give_faults ≡ self.old.give_faults) }
    {
        match index_of(&self.links, link) {
            Some(at) => {
                self.links[at].mark();
                true
            }
            None => false,
        }
    }

    // Notes what was taken, and which links are held after it.
    #[tactic(auto, using(crate::proofs::Told::take_told))]
    fn took(&mut self, taken: Taken) -> Taken
        requires room { vec_len self.old.held < vec_capacity self.old.held }
        requires may { MayTake taken
            (told_of self.old.held.items self.old.calls.items self.old.misses.items) }
        ensures same { result ≡ taken }
        ensures told { Takes
            (told_of self.old.held.items self.old.calls.items self.old.misses.items) taken
            (told_of self.new.held.items self.new.calls.items self.new.misses.items) }
        ensures held { self.new.held.items ≡ held_after taken self.old.held.items }
        ensures calls { self.new.calls.items ≡ self.old.calls.items ++ (taken, None) ∷ [] }
        ensures misses { self.new.misses ≡ self.old.misses }
        ensures links { self.new.links ≡ self.old.links }
        ensures frames { self.new.frames ≡ self.old.frames }
        ensures faults { (self.new.take_faults ≡ self.old.take_faults)
            × (self.new.give_faults ≡ self.old.give_faults) }
    {
        self.calls = self.calls.and(&taken, &None);
        match &taken {
            Taken::Opened(link) => self.held.push(*link).unwrap(),
            Taken::Left(link) => forget(&mut self.held, *link),
            Taken::Said(_, _) | Taken::Nothing | Taken::Failed => {}
        }
        taken
    }

    // Notes a give with its answer. A frame that was sent is kept.
    fn note_give(&mut self, frame: Frame, given: Given)
        requires { vec_len self.old.frames < vec_capacity self.old.frames }
        ensures calls { self.new.calls.items ≡ self.old.calls.items
            ++ (Taken.Nothing, Some (record { frame = frame; given = given })) ∷ [] }
        ensures cause { HasCause self.old.give_faults self.new.give_faults (given ≡ Given.Failed) }
        ensures sent { given ≡ Given.Sent
            → (self.new.frames.items ≡ self.old.frames.items ++ frame ∷ [])
            × (self.new.give_faults ≡ self.old.give_faults) }
        ensures failed { given ≡ Given.Failed → (self.new.frames.items ≡ self.old.frames.items)
            × (self.new.give_faults ≡ min (self.old.give_faults + 1) (2 ^ 64 - 1)) }
        ensures misses { self.new.misses ≡ self.old.misses }
        ensures links { (self.new.links ≡ self.old.links) × (self.new.held ≡ self.old.held) }
        ensures takes { self.new.take_faults ≡ self.old.take_faults }
    {
        let noted = Some(Gift { frame, given });
        self.calls = self.calls.and(&Taken::Nothing, &noted);
        match given {
            Given::Sent => {
                if let Some(gift) = noted {
                    self.frames.push(gift.frame).unwrap();
                }
            }
            Given::Failed => self.give_faults = self.give_faults.saturating_add(1),
        }
    }
}

impl Net for ScriptNet {
    type Link = ScriptLink;

    ghost use Rattle.std.specs.Prelude.{◌≡◌, Some, Ok, MatchOption, IfOk, OnErr, true, false};
    ghost use Rattle.std.specs.Prelude.{MatchResult};
    ghost use Rattle.outside.specs.Causes.{HasCause};
    ghost use Rattle.net_traits.specs.Nets.{TakeTold, GiveTold, Tells, Releases, Adopts};
    ghost use Rattle.script_net.specs.Past.{told_of};
    ghost use Rattle.script_net.specs.Gives.{GivesAt, ReleasesFrom, with_sent};
    ghost use Rattle.script_net.specs.Queues.{events_of, index_of, next_from, TakesFrom};

    ghost told = { λ net. Some (told_of net.held.items net.calls.items net.misses.items) };

    ghost carried = { λ link. events_of link };

    ghost take_faults = { λ net. net.take_faults };

    ghost give_faults = { λ net. net.give_faults };

    #[tactic(auto, using(crate::proofs::Told::may_take))]
    fn take(&mut self, _alloc: Global) -> Result<Taken, Memory>
        ensures told { TakeTold
            (Some (told_of self.old.held.items self.old.calls.items self.old.misses.items)) result
            (Some (told_of self.new.held.items self.new.calls.items self.new.misses.items)) }
        ensures cause { HasCause self.old.take_faults self.new.take_faults
            (result ≡ Ok Taken.Failed) }
        ensures gives { self.new.give_faults ≡ self.old.give_faults }

        // It gives the event that came first. What was sent stays.
        ensures next { IfOk result
            (λ taken. TakesFrom (next_from 0 self.old.links.items) self.old.held.items
            self.old.links.items taken self.new.links.items) }
        ensures refused { OnErr result (self.new.links.items ≡ self.old.links.items) }
        ensures frames { self.new.frames ≡ self.old.frames }
    {
        self.held.reserve(1)?;
        let Some(at) = next_at(&self.links) else {
            return Ok(self.took(Taken::Nothing));
        };
        let link = self.links[at].link();
        let is_held = is_one_of(&self.held, link);
        match self.links[at].take(is_held) {
            Some(taken) => Ok(self.took(taken)),
            None => {
                self.take_faults = self.take_faults.saturating_add(1);
                Ok(self.took(Taken::Failed))
            }
        }
    }

    #[tactic(auto, using(crate::proofs::Told::answered))]
    fn give(&mut self, alloc: Global, link: LinkId, frame: &[u8]) -> Result<Given, Memory>
        ensures told { GiveTold
            (Some (told_of self.old.held.items self.old.calls.items self.old.misses.items)) link
            frame.now result (Some
            (told_of self.new.held.items self.new.calls.items self.new.misses.items)) }
        ensures cause { HasCause self.old.give_faults self.new.give_faults
            (result ≡ Ok Given.Failed) }
        ensures takes { self.new.take_faults ≡ self.old.take_faults }

        // It fails exactly where the link is marked, which then is neither marked nor live. A frame
        // that
        // was sent is kept.
        ensures given { IfOk result
            (λ given. GivesAt (index_of link self.old.links.items) self.old.links.items given
            self.new.links.items) }
        ensures frames { IfOk result
            (λ given. self.new.frames.items
            ≡ with_sent given (record { link = link; bytes = frame.now }) self.old.frames.items) }
        ensures refused { OnErr result
            ((self.new.links.items ≡ self.old.links.items)
            × (self.new.frames.items ≡ self.old.frames.items)) }
    {
        let bytes = ListOf::of(Vec::from_slice(alloc, frame)?);
        self.frames.reserve(1)?;
        let given = give_to(&mut self.links, link);
        self.note_give(Frame { link, bytes }, given);
        Ok(given)
    }

    #[tactic(auto, using(crate::proofs::Held::held_without, crate::proofs::Held::missed_pushed))]
    fn release(&mut self, link: LinkId) -> Option<ScriptLink>
        ensures told { MatchOption result
            (Tells (λ a b. Releases a link false b)
            (Some (told_of self.old.held.items self.old.calls.items self.old.misses.items))
            (Some (told_of self.new.held.items self.new.calls.items self.new.misses.items)))
            (λ _. Tells (λ a b. Releases a link true b)
            (Some (told_of self.old.held.items self.old.calls.items self.old.misses.items))
            (Some (told_of self.new.held.items self.new.calls.items self.new.misses.items))) }
        ensures takes { self.new.take_faults ≡ self.old.take_faults }
        ensures gives { self.new.give_faults ≡ self.old.give_faults }

        // Its events go along, also where it gives None.
        ensures link { ReleasesFrom
            (index_of link self.old.links.items) link self.old.links.items result
            self.new.links.items }
        ensures frames { self.new.frames ≡ self.old.frames }
    {
        let found = match index_of(&self.links, link) {
            Some(at) => Some(self.links.remove(at)),
            None => None,
        };
        let is_held = is_one_of(&self.held, link);
        forget(&mut self.held, link);
        if !is_held {
            self.misses = self.misses.and(&link, &link);
            return None;
        }
        match found {
            Some(released) => Some(released),
            None => Some(ScriptLink::new(self.alloc, link)),
        }
    }

    #[tactic(auto, using(crate::proofs::Held::held_pushed))]
    fn adopt(&mut self, _alloc: Global, link: ScriptLink) -> Result<LinkId, Memory>
        ensures told { IfOk result
            (λ id. Tells (λ a b. Adopts a id (events_of link) b)
            (Some (told_of self.old.held.items self.old.calls.items self.old.misses.items))
            (Some (told_of self.new.held.items self.new.calls.items self.new.misses.items))) }
        ensures kept { OnErr result
            (Some (told_of self.new.held.items self.new.calls.items self.new.misses.items)
            ≡ Some (told_of self.old.held.items self.old.calls.items self.old.misses.items)) }
        ensures takes { self.new.take_faults ≡ self.old.take_faults }
        ensures gives { self.new.give_faults ≡ self.old.give_faults }

        // Its events come along with their places.
        ensures name { IfOk result (λ id. id ≡ link.link) }
        ensures links { MatchResult result
            (λ _. self.new.links.items ≡ self.old.links.items ++ link ∷ [])
            (λ _. self.new.links.items ≡ self.old.links.items) }
        ensures frames { self.new.frames ≡ self.old.frames }
    {
        let id = link.link();
        if is_one_of(&self.held, id) {
            return Err(Memory);
        }
        self.links.reserve(1)?;
        self.held.push(id)?;
        self.links.push(link).unwrap();
        Ok(id)
    }
}
