//! `Slot`: a key that a view sees or asks for, and what of it is on the screen. Lists of slots are in
//! key order.
ghost use Rattle.std.specs.Prelude.{◌≡◌, ◌≢◌, ◌+◌, ◌<◌, ◌≤◌, ◌&&◌, ◌||◌, true, [], ◌⊎◌, not, length, map, filter, take, IfOk, IfErr, OnOk, OnErr, find, option_map};
ghost use Rattle.std.specs.List.{list_any, AllByRecursion};
ghost use Rattle.tile_key.specs.Places.{IsKey, same_place};
ghost use Rattle.tile_key.specs.Visible.{IsBefore};
ghost use Rattle.document_machine.specs.Keys.{is_among, Pairwise};
ghost use Rattle.document_machine.specs.Message.{asked_with_all};
ghost use Rattle.document_machine.specs.Due.{asked_after};
ghost use Rattle.view_session.specs.Viewing.{is_behind};
ghost use Rattle.view_session.specs.Slots.{keys_in, seen_in, screen_in, slot_due, due_place, IsSlotted};
ghost use Rattle.view_session.specs.Moves.{IsAt, IsGap, IsBehindFrom, IsAsked, seen_slot, shown_in, shown_again, hit_slot};

use cool_base::{Memory, Rect, meets};
use std::alloc::Global;
use tile_key::{TileKey, rect_of};

/// What of a key is on the screen: the version last sent, and whether it is stale.
#[derive(Clone, Copy)]
pub(crate) struct OnScreen {
    pub(crate) version: u64,
    pub(crate) stale: bool,
}

/// A key that a view sees or asks for.
#[derive(Clone, Copy)]
pub(crate) struct Slot {
    pub(crate) key: TileKey,
    pub(crate) visible: bool,
    pub(crate) asked: bool,
    pub(crate) shown: Option<OnScreen>,
}

impl Slot {
    ghost use Rattle.std.specs.Prelude.{◌≡◌, ◌&&◌, ◌||◌, true, not, option_map, Some};
    ghost use Rattle.view_session.specs.Slots.{slot_due};
    ghost use Rattle.view_session.specs.Moves.{hit_slot};

    /// The version on the screen.
    pub(crate) fn version(&self) -> Option<u64>
        ensures { result ≡ option_map (λ shown. shown.version) self.now.shown }
    {
        match self.shown {
            Some(shown) => Some(shown.version),
            None => None,
        }
    }

    /// Whether the key is due.
    pub(crate) fn is_due(&self) -> bool
        ensures { result ≡ slot_due self.now }
    {
        if self.asked {
            return true;
        }
        if !self.visible {
            return false;
        }
        match self.shown {
            Some(shown) => shown.stale,
            None => true,
        }
    }

    // Whether the view sees or asks for the key.
    fn is_needed(&self) -> bool
        ensures { result ≡ (self.now.visible || self.now.asked) }
    {
        self.visible || self.asked
    }

    // The slot with this on the screen; where `ends`, the asking for it has ended.
    fn showing(&self, shown: OnScreen, ends: bool) -> Slot
        ensures { result ≡ record self.now { asked = self.now.asked && not ends; shown = Some shown } }
    {
        Slot {
            key: self.key,
            visible: self.visible,
            asked: self.asked && !ends,
            shown: Some(shown),
        }
    }

    // The slot, marked as asked for.
    fn asking(&self) -> Slot
        ensures { result ≡ record self.now { asked = true } }
    {
        Slot {
            key: self.key,
            visible: self.visible,
            asked: true,
            shown: self.shown,
        }
    }

    // The slot once the rectangle of the part was damaged.
    fn hit(self, part: u32, rect: &Rect) -> Slot
        ensures { result ≡ hit_slot part rect.now self }
    {
        let Some(shown) = self.shown else {
            return self;
        };
        let met = part == self.key.part() && meets(rect, &rect_of(&self.key));
        Slot {
            key: self.key,
            visible: self.visible,
            asked: self.asked,
            shown: Some(OnScreen {
                version: shown.version,
                stale: shown.stale || met,
            }),
        }
    }
}

/// Where the key's slot is, or where it would go.
pub(crate) fn find(slots: &[Slot], key: &TileKey) -> Result<usize, usize>
    requires { Pairwise (λ a b. IsBefore a.key b.key) slots.now }
    ensures found { IfOk result (IsAt slots.now key.now) }
    ensures absent { IfErr result (IsGap slots.now key.now) }
{
    slots.binary_search_by(|slot| slot.key.compare(key))
}

/// Slots of these keys, all of them seen, with nothing on the screen.
pub(crate) fn see(alloc: Global, keys: &[TileKey]) -> Result<Vec<Slot>, Memory>
    ensures { IfOk result (λ slots. slots.items ≡ map seen_slot keys.now) }
{
    let mut slots = Vec::with_capacity(alloc, keys.len())?;
    for key in keys {
        slots.push(Slot {
            key: *key,
            visible: true,
            asked: false,
            shown: None,
        })?;
    }
    Ok(slots)
}

/// Asks for the key, where it isn't asked for yet.
fn ask_one(slots: &mut Vec<Slot>, asked: &mut Vec<TileKey>, key: &TileKey) -> Result<(), Memory>
    requires { IsSlotted slots.old.items asked.old.items }
    ensures asked { OnOk result (IsAsked slots.old.items asked.old.items key.now slots.new.items asked.new.items) }
    ensures key { IsKey key.now }
{
    let _part = key.part();
    match find(slots.as_slice(), key) {
        Ok(i) => {
            let slot = slots[i];
            if slot.asked {
                return Ok(());
            }
            asked.push(*key)?;
            slots[i] = slot.asking();
            Ok(())
        }
        Err(i) => {
            asked.push(*key)?;
            slots.insert(
                i,
                Slot {
                    key: *key,
                    visible: false,
                    asked: true,
                    shown: None,
                },
            )?;
            Ok(())
        }
    }
}

/// Asks for these keys in the order given, each once.
pub(crate) fn ask_all(
    slots: &mut Vec<Slot>,
    asked: &mut Vec<TileKey>,
    keys: &[TileKey],
) -> Result<(), Memory>
    requires { IsSlotted slots.old.items asked.old.items }
    ensures asked { OnOk result (asked.new.items ≡ asked_with_all asked.old.items keys.now) }
    ensures slotted { OnOk result (IsSlotted slots.new.items asked.new.items) }
    ensures seen { OnOk result (seen_in slots.new.items ≡ seen_in slots.old.items) }
    ensures screen { OnOk result (screen_in slots.new.items ≡ screen_in slots.old.items) }
    ensures keys { OnOk result (AllByRecursion IsKey asked.old.items → AllByRecursion IsKey asked.new.items) }
{
    for key in keys {
        ask_one(slots, asked, key)?;
    }
    Ok(())
}

/// What of the key is on the screen from now on; where `ends`, the asking for it ends. A slot that is
/// needed no longer goes. How many slots before it are as they were.
pub(crate) fn show(slots: &mut Vec<Slot>, key: &TileKey, shown: OnScreen, ends: bool) -> usize
    requires { Pairwise (λ a b. IsBefore a.key b.key) slots.old.items }
    ensures shown { slots.new.items ≡ shown_in slots.old.items key.now shown ends }
    ensures front { take result slots.new.items ≡ take result slots.old.items }
{
    let Ok(i) = find(slots.as_slice(), key) else {
        return slots.len();
    };
    let slot = slots[i].showing(shown, ends);
    if slot.is_needed() {
        slots[i] = slot;
        i
    } else {
        slots.remove(i);
        i
    }
}

/// Slots of a view that sees these keys and asks for those, with what of them was on the screen.
pub(crate) fn seeing(
    alloc: Global,
    keys: &[TileKey],
    asked: &[TileKey],
    old: &[Slot],
) -> Result<Vec<Slot>, Memory>
    requires order { Pairwise IsBefore keys.now }
    requires old { IsSlotted old.now asked.now }
    requires once { Pairwise (λ p q. p ≢ q) asked.now }
    ensures slotted { IfOk result (λ slots. IsSlotted slots.items asked.now) }
    ensures seen { IfOk result (λ slots. seen_in slots.items ≡ keys.now) }
    ensures screen { IfOk result (λ slots. screen_in slots.items ≡ filter (λ entry. is_among keys.now entry.key || is_among asked.now entry.key) (screen_in old.now)) }
{
    let mut slots = see(alloc, keys)?;
    let mut again = Vec::new(alloc);
    ask_all(&mut slots, &mut again, asked)?;
    for slot in old {
        show_again(&mut slots, slot);
    }
    Ok(slots)
}

/// What was on the screen of the slot's key is there again, where the key has a slot.
fn show_again(slots: &mut Vec<Slot>, slot: &Slot)
    requires { Pairwise (λ a b. IsBefore a.key b.key) slots.old.items }
    ensures { slots.new.items ≡ shown_again slots.old.items slot.now.key slot.now.shown }
{
    let Some(shown) = slot.shown else {
        return;
    };
    let _place = show(slots, &slot.key, shown, false);
}

/// Where `ends`, the asking for the key ends.
pub(crate) fn end_asking(asked: &mut Vec<TileKey>, key: &TileKey, ends: bool)
    ensures { asked.new.items ≡ asked_after asked.old.items key.now ends }
{
    if !ends {
        return;
    }
    asked.retain(|other| !other.is_same(key));
}

/// Keeps of the asked keys those that the view sees.
pub(crate) fn keep_seen(asked: &mut Vec<TileKey>, slots: &[Slot])
    requires { Pairwise (λ a b. IsBefore a.key b.key) slots.now }
    ensures { asked.new.items ≡ filter (is_among (seen_in slots.now)) asked.old.items }
{
    asked.retain(|key| is_seen(slots, key));
}

/// Whether the view sees the key.
fn is_seen(slots: &[Slot], key: &TileKey) -> bool
    requires { Pairwise (λ a b. IsBefore a.key b.key) slots.now }
    ensures { result ≡ is_among (seen_in slots.now) key.now }
{
    match find(slots, key) {
        Ok(i) => slots[i].visible,
        Err(_) => false,
    }
}

/// What of the part is on the screen and meets the rectangle is stale from now on.
pub(crate) fn damage(slots: &mut [Slot], part: u32, rect: &Rect)
    ensures { slots.new ≡ map (hit_slot part rect.now) slots.old }
{
    for slot in slots.iter_mut() {
        *slot = slot.hit(part, rect);
    }
}

/// The keys of the slots.
pub(crate) fn keys(alloc: Global, slots: &[Slot]) -> Result<Vec<TileKey>, Memory>
    ensures { IfOk result (λ keys. keys.items ≡ keys_in slots.now) }
{
    let keys = slots.iter().map(|slot| slot.key).collect(alloc)?;
    Ok(keys)
}

/// The keys of the slots that are due.
pub(crate) fn due_keys(alloc: Global, slots: &[Slot]) -> Result<Vec<TileKey>, Memory>
    ensures { IfOk result (λ keys. keys.items ≡ keys_in (filter slot_due slots.now)) }
{
    let mut keys = Vec::new(alloc);
    for slot in slots {
        if slot.is_due() {
            keys.push(slot.key)?;
        }
    }
    Ok(keys)
}

/// The key of the first slot that is due.
pub(crate) fn first_due(slots: &[Slot]) -> Option<TileKey>
    ensures { result ≡ option_map (λ slot. slot.key) (find slot_due slots.now) }
{
    for slot in slots {
        if slot.is_due() {
            return Some(slot.key);
        }
    }
    None
}

/// How many slots come before those behind the key.
fn behind_from(slots: &[Slot], before: Option<TileKey>) -> usize
    requires { Pairwise (λ a b. IsBefore a.key b.key) slots.now }
    ensures { IsBehindFrom slots.now before result }
{
    let Some(key) = before else {
        return 0;
    };
    match find(slots, &key) {
        Ok(i) => i + 1,
        Err(i) => i,
    }
}

/// The key of the first slot that is due, of those behind the key, where so many slots come before the
/// first that is due.
pub(crate) fn next_due(slots: &[Slot], first: usize, before: Option<TileKey>) -> Option<TileKey>
    requires order { Pairwise (λ a b. IsBefore a.key b.key) slots.now }
    requires first { first ≡ due_place slots.now }
    ensures { result ≡ option_map (λ slot. slot.key) (find (λ slot. is_behind before slot.key && slot_due slot) slots.now) }
{
    let start = later(first, behind_from(slots, before));
    let (_front, back) = slots.split_at(start);
    first_due(back)
}

/// The later of two places.
fn later(first: usize, second: usize) -> usize
    ensures behind { (first ≤ result) × (second ≤ result) }
    ensures one { (result ≡ first) ⊎ (result ≡ second) }
{
    if first < second {
        return second;
    }
    first
}

/// The earlier of two places.
pub(crate) fn earlier(first: usize, second: usize) -> usize
    ensures { (result ≤ first) × (result ≤ second) }
{
    if first < second {
        return first;
    }
    second
}

/// How many slots come before the first that is due, where so many do at least.
pub(crate) fn due_place(slots: &[Slot], from: usize) -> usize
    requires { from ≤ due_place slots.now }
    ensures { result ≡ due_place slots.now }
{
    for i in from..slots.len() {
        if slots[i].is_due() {
            return i;
        }
    }
    slots.len()
}

/// Whether one of the keys that the view sees is due.
pub(crate) fn sees_due(slots: &[Slot]) -> bool
    ensures { result ≡ list_any (λ slot. slot.visible && slot_due slot) slots.now }
{
    slots.iter().any(|slot| slot.visible && slot.is_due())
}
