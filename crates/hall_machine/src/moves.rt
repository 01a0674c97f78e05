//! How mails and parcels leave and reach an open document. Nothing here takes memory.
ghost use Rattle.std.specs.Prelude.{◌≡◌, ◌≤◌, ◌<◌, true, Some, [], length, take, drop, slice_set};
ghost use Rattle.std.specs.List.{slice_get};
ghost use Rattle.hall_machine.specs.declared.words.OpenDocument.{OpenDocument};
ghost use Rattle.hall_machine.specs.declared.words.Holder.TheVariants.{At, To};
ghost use Rattle.hall_machine.specs.Machine.{is_bound_to, desk_at};
ghost use Rattle.hall_machine.specs.States.{where_of, sights};

use crate::bag::MailBag;
use crate::words::{Holder, Labelled, OpenDocument};
use std::collections::LinkedList;
use std::mem::replace;

/// The oldest `n` mails, in order, in the empty bag.
fn move_mails<M: Drop>(mails: &mut LinkedList<M>, mut bag: MailBag<M>, n: usize) -> MailBag<M>
    requires empty { bag ≡ [] }
    requires few { (n ≤ 64) × (n ≤ length mails.old) }
    ensures bag { result ≡ take n mails.old }
    ensures rest { mails.new ≡ drop n mails.old }
{
    for _i in 0..n {
        if let Some(mail) = mails.pop_front() {
            bag.put(mail);
        }
    }
    bag
}

/// The oldest mails of the document there, at most 64, in order, in the empty bag.
pub fn take_mails<P: Drop, M: Labelled>(
    opens: &mut [OpenDocument<P, M>],
    at: usize,
    bag: MailBag<M>,
) -> MailBag<M>
    requires empty { bag ≡ [] }
    requires there { at < length opens.old }
    ensures { (o : OpenDocument P M) × (slice_get opens.old at ≡ Some o)
        × (opens.new ≡ slice_set opens.old at (record o { mails = drop 64 o.mails }))
        × (result ≡ take 64 o.mails) }
{
    let o = &mut opens[at];
    let n = o.mails.len().min(64);
    move_mails(&mut o.mails, bag, n)
}

/// The parcel, on its way to the poll.
pub fn send_off<P: Drop, M: Labelled>(
    opens: &mut [OpenDocument<P, M>],
    at: usize,
    to: u32,
    parcel: P,
)
    requires { at < length opens.old }
    ensures { (o : OpenDocument P M) × (slice_get opens.old at ≡ Some o)
        × (opens.new ≡ slice_set opens.old at (record o { holder = To to parcel })) }
{
    let o = &mut opens[at];
    o.holder = Holder::To(to, parcel);
}

fn unpack<P: Drop>(holder: &mut Holder<P>, who: u32) -> P
    requires { is_bound_to who (where_of holder.old) ≡ true }
    ensures was { holder.old ≡ To who result }
    ensures is { holder.new ≡ At who }
{
    match replace(holder, Holder::At(who)) {
        Holder::To(_, parcel) => parcel,
        Holder::At(_) => unreachable!(),
    }
}

/// The parcel that was on its way to the poll, which owns the document from then on.
pub fn land<P: Drop, M: Labelled>(opens: &mut [OpenDocument<P, M>], at: usize, who: u32) -> P
    requires there { at < length opens.old }
    requires bound { is_bound_to who (desk_at (sights M.tag opens.old) at).holder ≡ true }
    ensures { (o : OpenDocument P M) × (slice_get opens.old at ≡ Some o)
        × (opens.new ≡ slice_set opens.old at (record o { holder = At who }))
        × (o.holder ≡ To who result) }
{
    let o = &mut opens[at];
    unpack(&mut o.holder, who)
}
