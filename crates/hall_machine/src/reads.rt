//! What is answered from the open documents and changes nothing.
ghost use Rattle.std.specs.Prelude.{◌≡◌, ◌==◌, ℕ, ◌+◌, ◌≤◌, ◌<◌, count_by, true, None, Some, Ok};
ghost use Rattle.std.specs.Prelude.{Err, length, MatchOption, MatchResult};
ghost use Rattle.std.specs.Option.{option_map};
ghost use Rattle.hall_machine.specs.Machine.{poll_of, load_of, IsLeast, place_of, place_bound_to};
ghost use Rattle.hall_machine.specs.Machine.{is_bound_to, desk_at, owed, arrive_answer};
ghost use Rattle.hall_machine.specs.Machine.{find_answer, collect_answer, close_answer};
ghost use Rattle.hall_machine.specs.States.{sights, staged, where_of};

use crate::checks::{check_owner, place_bound_to, place_of_file, see};
use crate::words::{CloseFault, Ground, Holder, Labelled, OpenDocument, Owner};
use cool_base::{DocId, FileId};

fn poll_of<P>(holder: &Holder<P>) -> u32
    ensures { result ≡ poll_of (where_of holder.now) }
{
    match holder {
        Holder::At(poll) => *poll,
        Holder::To(poll, _) => *poll,
    }
}

fn count_with<P: Drop, M: Labelled>(opens: &[OpenDocument<P, M>], poll: u32) -> usize
    ensures { result ≡ count_by (λ o. poll_of (where_of o.holder) == poll) opens.now }
{
    opens.iter().filter(|o| poll_of(&o.holder) == poll).count()
}

/// How many documents the poll owns or are on their way to it.
pub fn load_of<P: Drop, M: Labelled>(opens: &[OpenDocument<P, M>], poll: u32) -> usize
    ensures { result ≡ load_of poll (sights M.tag opens.now) }
{
    count_with(opens, poll)
}

/// The poll with the fewest documents, the lowest of several.
pub fn least_loaded<P: Drop, M: Labelled>(opens: &[OpenDocument<P, M>], polls: u32) -> u32
    requires { 1 ≤ polls }
    ensures { IsLeast polls (sights M.tag opens.now) result }
{
    let mut best = 0;
    let mut least = load_of(opens, 0);
    for p in 1..polls {
        let load = load_of(opens, p);
        if load < least {
            best = p;
            least = load;
        }
    }
    best
}

/// The answer of `find`.
pub fn check_find<P: Drop, M: Labelled>(
    next: u32,
    opens: &[OpenDocument<P, M>],
    entries: u64,
    file: &FileId,
) -> Option<DocId>
    ensures { result ≡ option_map (λ d. record { 0 = d })
        (find_answer (staged M.tag next opens.now entries) file.now) }
{
    match place_of_file(opens, file) {
        Some(at) => Some(DocId(see(opens, at, 0).doc)),
        None => None,
    }
}

/// The answer of `arrive`, and where the document stands.
pub fn check_arrive<P: Drop, M: Labelled>(
    next: u32,
    opens: &[OpenDocument<P, M>],
    entries: u64,
    due: u64,
    who: u32,
) -> Option<(usize, u32)>
    requires { due ≡ owed (sights M.tag opens.now) }
    ensures { MatchOption result
        (arrive_answer (staged M.tag next opens.now entries) who ≡ None)
        (λ t. (arrive_answer (staged M.tag next opens.now entries) who ≡ Some t.1)
        × (place_bound_to who (sights M.tag opens.now) ≡ Some t.0)
        × (is_bound_to who (desk_at (sights M.tag opens.now) t.0).holder ≡ true)
        × (t.0 < length opens.now) × (1 ≤ due)) }
{
    match place_bound_to(opens, who) {
        Some(at) => Some((at, see(opens, at, 0).doc)),
        None => None,
    }
}

/// The answer of `collect`, and where the document stands.
pub fn check_collect<P: Drop, M: Labelled>(
    ground: Ground,
    next: u32,
    opens: &[OpenDocument<P, M>],
    entries: u64,
    due: u64,
    who: u32,
    doc: u32,
) -> Result<(usize, u32), Owner>
    requires { due ≡ owed (sights M.tag opens.now) }
    ensures { MatchResult result
        (λ t. (collect_answer (staged M.tag next opens.now entries) who doc ≡ Ok t.1)
        × (place_of doc (sights M.tag opens.now) ≡ Some t.0) × (t.0 < length opens.now)
        × (t.1 ≤ due))
        (λ why. collect_answer (staged M.tag next opens.now entries) who doc ≡ Err why) }
{
    match check_owner(ground, next, opens, entries, who, doc) {
        Ok((at, mails)) => Ok((at, mails.min(64) as u32)),
        Err(why) => Err(why),
    }
}

/// The answer of `close`, and where the document stands.
pub fn check_close<P: Drop, M: Labelled>(
    ground: Ground,
    next: u32,
    opens: &[OpenDocument<P, M>],
    entries: u64,
    due: u64,
    who: u32,
    doc: u32,
) -> Result<usize, CloseFault>
    requires due { due ≡ owed (sights M.tag opens.now) }
    requires few { due ≤ 4194304 }
    ensures { MatchResult result
        (λ i. (close_answer (staged M.tag next opens.now entries) who doc ≡ Ok tt)
        × (place_of doc (sights M.tag opens.now) ≡ Some i) × (i < length opens.now) × (1 ≤ due))
        (λ why. close_answer (staged M.tag next opens.now entries) who doc ≡ Err why) }
{
    match check_owner(ground, next, opens, entries, who, doc) {
        Ok((at, mails)) => {
            if 0 < mails {
                Err(CloseFault::Waiting(mails as u32))
            } else {
                Ok(at)
            }
        }
        Err(Owner::Gone) => Err(CloseFault::Gone),
        Err(Owner::NotHere(poll)) => Err(CloseFault::NotHere(poll)),
    }
}
