//! How many keys a view would ask for, counted without memory.
ghost use Rattle.std.specs.Prelude.{◌≡◌, ◌++◌, List, nat_lt, length};
ghost use Rattle.tile_key.specs.Places.{Place};
ghost use Rattle.tile_key.specs.Visible.{IsBefore};
ghost use Rattle.document_machine.specs.Keys.{is_among, Pairwise};
ghost use Rattle.document_machine.specs.Message.{asked_with_all};
ghost use Rattle.view_session.specs.Slots.{IsSlotted};

use crate::slots::{Slot, find};
use arrayvec::ArrayVec;
use document_machine::MOST_ASKED;
use tile_key::TileKey;

/// Whether the view would ask for more keys than it may, if it asked for these too. It takes no memory.
#[tactic(auto, using(crate::proofs::CountFacts::few_together))]
pub(crate) fn asks_too_many(slots: &[Slot], asked: &[TileKey], keys: &[TileKey]) -> bool
    requires { IsSlotted slots.now asked.now }
    ensures { result ≡ nat_lt MOST_ASKED (length (asked_with_all asked.now keys.now)) }
{
    if asked.len() + keys.len() <= MOST_ASKED {
        return false;
    }
    are_more(slots, asked, keys)
}

// The same, where the new keys have to be told apart: they are kept up to the first that is too many.
#[tactic(auto, using(crate::proofs::CountFacts::many_before, crate::proofs::CountFacts::all_first, crate::proofs::CountFacts::all_known, crate::proofs::CountFacts::all_new, crate::proofs::CountFacts::too_many, crate::proofs::CountFacts::few_at_end))]
fn are_more(slots: &[Slot], asked: &[TileKey], keys: &[TileKey]) -> bool
    requires { IsSlotted slots.now asked.now }
    ensures { result ≡ nat_lt MOST_ASKED (length (asked_with_all asked.now keys.now)) }
{
    if asked.len() > MOST_ASKED {
        return true;
    }
    let room = MOST_ASKED - asked.len();
    let mut fresh: ArrayVec<TileKey, MOST_ASKED> = ArrayVec::new();
    for key in keys {
        if is_known(slots, fresh.as_slice(), key) {
            continue;
        }
        if fresh.len() >= room {
            return true;
        }
        fresh.push(*key);
    }
    false
}

// Whether the key is asked for, or one of the new keys.
fn is_known(slots: &[Slot], fresh: &[TileKey], key: &TileKey) -> bool
    requires { Pairwise (λ a b. IsBefore a.key b.key) slots.now }
    ensures { (asked : List Place) → IsSlotted slots.now asked → result ≡ is_among (asked ++ fresh.now) key.now }
{
    if is_asked(slots, key) {
        return true;
    }
    is_among(fresh, key)
}

/// Whether the slots say that the key is asked for.
pub(crate) fn is_asked(slots: &[Slot], key: &TileKey) -> bool
    requires { Pairwise (λ a b. IsBefore a.key b.key) slots.now }
    ensures { (asked : List Place) → IsSlotted slots.now asked → result ≡ is_among asked key.now }
{
    match find(slots, key) {
        Ok(i) => slots[i].asked,
        Err(_) => false,
    }
}

// Whether the key is one of these.
fn is_among(keys: &[TileKey], key: &TileKey) -> bool
    ensures { result ≡ is_among keys.now key.now }
{
    keys.iter().any(|other| other.is_same(key))
}
