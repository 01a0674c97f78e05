//! Saves in the order asked for.
ghost use Rattle.std.specs.Prelude.{◌≡◌, ◌≤◌, ◌&&◌, not, true, length, map, filter, find, nat_eq, nat_le, vec_capacity, IfOk, OnOk, OnErr};
ghost use Rattle.std.specs.List.{list_any};
ghost use Rattle.std.specs.Option.{option_copied, option_map};
ghost use Rattle.save_core.specs.Saving.{is_of, is_full, is_ready_save, is_unmodified, needs_put, views_of, bound_to, left_over, token_for, stored_with, answer_of};

use crate::values::{MOST_SAVES, Save, SaveAnswer};
use cool_base::{Memory, Token, ViewId};
use std::alloc::Global;

// Whether the save is the view's.
fn is_of(save: &Save, view: ViewId) -> bool
    ensures { result ≡ is_of view save.now }
{
    match save.view {
        Some(other) => other.0 == view.0,
        None => false,
    }
}

// How many of the saves are the view's.
fn count_of(saves: &[Save], view: ViewId) -> usize
    ensures { result ≡ length (filter (is_of view) saves.now) }
{
    let mut count = 0;
    for save in saves {
        if is_of(save, view) {
            count += 1;
        }
    }
    count
}

/// Whether the view has as many saves as it may have.
pub(crate) fn is_full(saves: &[Save], view: Option<ViewId>) -> bool
    ensures { result ≡ is_full view saves.now }
{
    match view {
        Some(view) => MOST_SAVES <= count_of(saves, view),
        None => false,
    }
}

// Whether a content of so many inputs answers the save, and no put is for it yet.
fn is_ready_save(save: &Save, applied: u64) -> bool
    ensures { result ≡ is_ready_save applied save.now }
{
    !save.bound && save.mark <= applied
}

// Whether the save is ready and needs no put, where so many inputs were stored last.
fn is_unmodified(save: &Save, applied: u64, last: u64) -> bool
    ensures { result ≡ is_unmodified applied last save.now }
{
    is_ready_save(save, applied) && save.skip && last == applied
}

// Whether the save is ready and needs a put, where so many inputs were stored last.
fn needs_put(save: &Save, applied: u64, last: u64) -> bool
    ensures { result ≡ needs_put applied last save.now }
{
    is_ready_save(save, applied) && !(save.skip && last == applied)
}

/// Whether some save is ready.
pub(crate) fn is_any_ready(saves: &[Save], applied: u64) -> bool
    ensures { result ≡ list_any (is_ready_save applied) saves.now }
{
    saves.iter().any(|save| is_ready_save(save, applied))
}

/// Whether some save has this mark.
pub(crate) fn has_mark(saves: &[Save], mark: u64) -> bool
    ensures { result ≡ list_any (λ save. nat_eq save.mark mark) saves.now }
{
    saves.iter().any(|save| save.mark == mark)
}

/// The views that are answered that nothing was new.
pub(crate) fn unmodified(
    alloc: Global,
    saves: &[Save],
    applied: u64,
    last: u64,
) -> Result<Vec<ViewId>, Memory>
    ensures { IfOk result (λ views. views.items ≡ views_of (filter (is_unmodified applied last) saves.now)) }
{
    let views = saves
        .iter()
        .filter(|save| is_unmodified(save, applied, last))
        .filter_map(|save| save.view)
        .collect(alloc)?;
    Ok(views)
}

/// An equal of the token of the first save that needs a put.
pub(crate) fn token_for(
    alloc: Global,
    saves: &[Save],
    applied: u64,
    last: u64,
) -> Result<Option<Token>, Memory>
    ensures { IfOk result (λ token. token ≡ token_for applied last saves.now) }
{
    for save in saves {
        if needs_put(save, applied, last) {
            let token = save.token.copy(alloc)?;
            return Ok(Some(token));
        }
    }
    Ok(None)
}

/// The token of the first save that a put is for.
pub(crate) fn put_token(saves: &[Save]) -> Option<&Token>
    ensures { option_copied result ≡ option_map (λ save. save.token) (find (λ save. save.bound) saves.now) }
{
    for save in saves {
        let is_bound = save.bound;
        if is_bound {
            return Some(&save.token);
        }
    }
    None
}

// Binds the save, where it is ready.
fn bind(save: &mut Save, applied: u64)
    ensures { save.new ≡ bound_to applied save.old }
{
    save.bound = save.bound || save.mark <= applied;
}

// Binds the ready saves.
fn bind_all(saves: &mut [Save], applied: u64)
    ensures { saves.new ≡ map (bound_to applied) saves.old }
{
    for save in saves.iter_mut() {
        bind(save, applied);
    }
}

// Takes out the saves that need no put.
fn drop_unmodified(saves: &mut Vec<Save>, applied: u64, last: u64)
    ensures left { saves.new.items ≡ filter (λ save. not (is_unmodified applied last save)) saves.old.items }
    ensures fewer { length saves.new.items ≤ length saves.old.items }
    ensures capacity { vec_capacity saves.new ≡ vec_capacity saves.old }
{
    saves.retain(|save| !is_unmodified(save, applied, last));
}

/// Takes out the saves that need no put, and binds the other ready ones.
pub(crate) fn serve(saves: &mut Vec<Save>, applied: u64, last: u64)
    ensures left { saves.new.items ≡ left_over applied last saves.old.items }
    ensures fewer { length saves.new.items ≤ length saves.old.items }
    ensures capacity { vec_capacity saves.new ≡ vec_capacity saves.old }
{
    drop_unmodified(saves, applied, last);
    bind_all(saves.as_mut_slice(), applied);
}

/// What the bound saves are answered once their put has ended.
pub(crate) fn endings(
    alloc: Global,
    saves: &[Save],
    number: u64,
    stored: bool,
) -> Result<Vec<SaveAnswer>, Memory>
    ensures { IfOk result (λ answers. answers.items ≡ map (answer_of number stored) (filter (λ save. save.bound) saves.now)) }
{
    let mut answers = Vec::new(alloc);
    for save in saves {
        if save.bound {
            answers.push(SaveAnswer {
                view: save.view,
                number,
                stored,
            })?;
        }
    }
    Ok(answers)
}

/// Takes out the bound saves.
pub(crate) fn end(saves: &mut Vec<Save>)
    ensures left { saves.new.items ≡ filter (λ save. not save.bound) saves.old.items }
    ensures fewer { length saves.new.items ≤ length saves.old.items }
    ensures capacity { vec_capacity saves.new ≡ vec_capacity saves.old }
{
    saves.retain(|save| !save.bound);
}

/// Adds the number where it was stored.
pub(crate) fn store(numbers: &mut Vec<u64>, number: u64, stored: bool) -> Result<(), Memory>
    ensures ok { OnOk result (numbers.new.items ≡ stored_with stored number numbers.old.items) }
    ensures err { OnErr result (numbers.new.items ≡ numbers.old.items) }
{
    if stored {
        numbers.push(number)?;
    }
    Ok(())
}
