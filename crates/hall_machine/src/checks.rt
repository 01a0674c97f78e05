//! What the machine answers, decided over the open documents.
ghost use Rattle.std.specs.Prelude.{◌≡◌, ◌≢◌, ℕ, ◌+◌, ◌-◌, ◌≤◌, ◌<◌, ◌^◌, Option, None, Some};
ghost use Rattle.std.specs.Prelude.{Result, IfErr};
ghost use Rattle.std.specs.Prelude.{Ok, Err, length, min, IfOk, IfSome, MatchOption, MatchResult};
ghost use Rattle.std.specs.List.{position};
ghost use Rattle.std.specs.Cmp.Lexicographic.{pointwise};
ghost use Rattle.std.specs.Prelude.{◌==◌, nat_eq};
ghost use Rattle.hall_machine.specs.Machine.{place_of, place_of_file, place_bound_to, is_bound_to};
ghost use Rattle.hall_machine.specs.Machine.{desk_at, other_than, owed, enter_answer, post_answer};
ghost use Rattle.hall_machine.specs.Machine.{depart_answer, collect_answer, close_answer};
ghost use Rattle.hall_machine.specs.Machine.{depart_by, close_by, hall_fault, close_fault};
ghost use Rattle.hall_machine.specs.States.{sights, staged, where_of};

use crate::words::{Entered, Ground, HallFault, Holder, Labelled, OpenDocument, Owner};
use cool_base::{DocId, FileId};

fn find_doc<P: Drop, M: Labelled>(opens: &[OpenDocument<P, M>], doc: u32) -> Option<usize>
    ensures place { result ≡ position (λ o. o.doc == doc) opens.now }
    ensures within { IfSome result (λ i. i < length opens.now) }
{
    opens.iter().position(|o| o.doc == doc)
}

fn find_file<P: Drop, M: Labelled>(opens: &[OpenDocument<P, M>], file: &FileId) -> Option<usize>
    ensures place { result ≡ position (λ o. pointwise nat_eq o.file file.now) opens.now }
    ensures within { IfSome result (λ i. i < length opens.now) }
{
    opens.iter().position(|o| o.file.text() == file.text())
}

fn is_on_its_way<P>(holder: &Holder<P>, who: u32) -> bool
    ensures { result ≡ is_bound_to who (where_of holder.now) }
{
    match holder {
        Holder::At(_) => false,
        Holder::To(poll, _) => *poll == who,
    }
}

fn find_bound<P: Drop, M: Labelled>(opens: &[OpenDocument<P, M>], who: u32) -> Option<usize>
    ensures place { result ≡ position (λ o. is_bound_to who (where_of o.holder)) opens.now }
    ensures within { IfSome result (λ i. i < length opens.now) }
{
    opens.iter().position(|o| is_on_its_way(&o.holder, who))
}

/// Where the document stands among the open ones.
pub fn place_of<P: Drop, M: Labelled>(opens: &[OpenDocument<P, M>], doc: u32) -> Option<usize>
    ensures place { result ≡ place_of doc (sights M.tag opens.now) }
    ensures within { IfSome result (λ i. i < length opens.now) }
{
    find_doc(opens, doc)
}

/// Where the document of the file stands among the open ones.
pub fn place_of_file<P: Drop, M: Labelled>(
    opens: &[OpenDocument<P, M>],
    file: &FileId,
) -> Option<usize>
    ensures place { result ≡ place_of_file file.now (sights M.tag opens.now) }
    ensures within { IfSome result (λ i. i < length opens.now) }
{
    find_file(opens, file)
}

/// Where the first document stands whose parcel is in transit to the poll.
pub fn place_bound_to<P: Drop, M: Labelled>(opens: &[OpenDocument<P, M>], who: u32) -> Option<usize>
    ensures place { result ≡ place_bound_to who (sights M.tag opens.now) }
    ensures within { IfSome result (λ i. i < length opens.now) }
{
    find_bound(opens, who)
}

// What a call needs to know of one open document.
#[derive(Drop)]
pub struct Seen {
    pub doc: u32,
    pub other: Option<u32>,
    pub mails: usize,
}

fn other_poll<P>(holder: &Holder<P>, who: u32) -> Option<u32>
    ensures { result ≡ other_than who (where_of holder.now) }
{
    match holder {
        Holder::At(poll) => { if *poll == who { None } else { Some(*poll) } }
        Holder::To(poll, _) => Some(*poll),
    }
}

/// What a call needs to know of the document there.
pub fn see<P: Drop, M: Labelled>(opens: &[OpenDocument<P, M>], at: usize, who: u32) -> Seen
    requires { at < length opens.now }
    ensures doc { result.doc ≡ (desk_at (sights M.tag opens.now) at).doc }
    ensures other { result.other ≡ other_than who (desk_at (sights M.tag opens.now) at).holder }
    ensures mails { result.mails ≡ length (desk_at (sights M.tag opens.now) at).mails }
{
    let o = &opens[at];
    Seen {
        doc: o.doc,
        other: other_poll(&o.holder, who),
        mails: o.mails.len(),
    }
}

/// The answer of `enter`: the document of the file where it is open, or None where a new one is to
/// be opened.
pub fn check_enter<P: Drop, M: Labelled>(
    ground: Ground,
    next: u32,
    opens: &[OpenDocument<P, M>],
    entries: u64,
    due: u64,
    file: &FileId,
) -> Result<Option<DocId>, HallFault>
    requires due { due ≡ owed (sights M.tag opens.now) }
    requires room { (entries + due ≤ ground.room) × (16384 ≤ ground.room) }
    ensures answer { MatchResult result
        (λ o. MatchOption o
        ((enter_answer ground (staged M.tag next opens.now entries) file.now
        ≡ Ok (Entered.Fresh (record { 0 = next }))) × (length opens.now < 64)
        × ((entries + due) + 2 ≤ ground.room))
        (λ doc. enter_answer ground (staged M.tag next opens.now entries) file.now
        ≡ Ok (Entered.There doc)))
        (λ why. enter_answer ground (staged M.tag next opens.now entries) file.now ≡ Err why) }
    ensures memory { IfErr result (λ why. why ≢ HallFault.Memory) }
{
    match place_of_file(opens, file) {
        Some(at) => Ok(Some(DocId(see(opens, at, 0).doc))),
        None => {
            if opens.len() >= 64 {
                Err(HallFault::HallFull)
            } else if u64::from(ground.room - 16384) < entries + due + 2 {
                Err(HallFault::BookFull)
            } else {
                Ok(None)
            }
        }
    }
}

/// The answer of `post`, and where the document stands.
pub fn check_post<P: Drop, M: Labelled>(
    ground: Ground,
    next: u32,
    opens: &[OpenDocument<P, M>],
    entries: u64,
    due: u64,
    doc: u32,
    urgent: bool,
) -> Result<usize, HallFault>
    requires due { due ≡ owed (sights M.tag opens.now) }
    requires room { (entries + due ≤ ground.room) × (16384 ≤ ground.room) }
    ensures answer { MatchResult result
        (λ i. (post_answer ground (staged M.tag next opens.now entries) doc urgent ≡ Ok tt)
        × (place_of doc (sights M.tag opens.now) ≡ Some i) × (i < length opens.now)
        × ((entries + due) + 2 ≤ ground.room))
        (λ why. post_answer ground (staged M.tag next opens.now entries) doc urgent ≡ Err why) }
    ensures memory { IfErr result (λ why. why ≢ HallFault.Memory) }
{
    let Some(at) = place_of(opens, doc) else {
        return Err(HallFault::Gone);
    };
    let most = if urgent { 4096 } else { 2048 };
    if see(opens, at, 0).mails >= most {
        return Err(HallFault::MailFull);
    }
    let end = if urgent {
        ground.room
    } else {
        ground.room - 16384
    };
    if u64::from(end) < entries + due + 2 {
        return Err(HallFault::BookFull);
    }
    Ok(at)
}

/// Where the document stands that the poll owns, the number of mails that wait for it, or why the
/// poll can do nothing with it.
pub fn check_owner<P: Drop, M: Labelled>(
    ground: Ground,
    next: u32,
    opens: &[OpenDocument<P, M>],
    entries: u64,
    who: u32,
    doc: u32,
) -> Result<(usize, usize), Owner>
    ensures owned { IfOk result
        (λ t. (place_of doc (sights M.tag opens.now) ≡ Some t.0) × (t.0 < length opens.now)
        × (t.1 ≡ length (desk_at (sights M.tag opens.now) t.0).mails)) }
    ensures collect { MatchResult result
        (λ t. collect_answer (staged M.tag next opens.now entries) who doc ≡ Ok (min 64 t.1))
        (λ why. collect_answer (staged M.tag next opens.now entries) who doc ≡ Err why) }
    ensures depart { MatchResult result
        (λ _. depart_answer ground (staged M.tag next opens.now entries) who doc
        ≡ depart_by ground (staged M.tag next opens.now entries) None)
        (λ why. depart_answer ground (staged M.tag next opens.now entries) who doc
        ≡ Err (hall_fault why)) }
    ensures close { MatchResult result
        (λ t. close_answer (staged M.tag next opens.now entries) who doc
        ≡ close_by (desk_at (sights M.tag opens.now) t.0) None)
        (λ why. close_answer (staged M.tag next opens.now entries) who doc
        ≡ Err (close_fault why)) }
{
    let Some(at) = place_of(opens, doc) else {
        return Err(Owner::Gone);
    };
    let seen = see(opens, at, who);
    match seen.other {
        Some(poll) => Err(Owner::NotHere(poll)),
        None => Ok((at, seen.mails)),
    }
}

/// The answer of `depart`, and where the document stands.
pub fn check_depart<P: Drop, M: Labelled>(
    ground: Ground,
    next: u32,
    opens: &[OpenDocument<P, M>],
    entries: u64,
    due: u64,
    who: u32,
    doc: u32,
) -> Result<usize, HallFault>
    requires due { due ≡ owed (sights M.tag opens.now) }
    requires room { (entries + due ≤ ground.room) × (16384 ≤ ground.room) }
    ensures { MatchResult result
        (λ i. (depart_answer ground (staged M.tag next opens.now entries) who doc ≡ Ok tt)
        × (place_of doc (sights M.tag opens.now) ≡ Some i) × (i < length opens.now)
        × ((entries + due) + 2 ≤ ground.room))
        (λ why. depart_answer ground (staged M.tag next opens.now entries) who doc ≡ Err why) }
{
    match check_owner(ground, next, opens, entries, who, doc) {
        Ok((at, _)) => {
            if u64::from(ground.room - 16384) < entries + due + 2 {
                Err(HallFault::BookFull)
            } else {
                Ok(at)
            }
        }
        Err(Owner::Gone) => Err(HallFault::Gone),
        Err(Owner::NotHere(poll)) => Err(HallFault::NotHere(poll)),
    }
}
