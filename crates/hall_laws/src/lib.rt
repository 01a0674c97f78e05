//! Laws over the legal histories of a hall: what follows from the machine alone, whatever runs it.
//! Each is a function with an empty body whose contract is the law. The history of a hall is legal,
//! as each call of `HallState` says.
#![tactic(auto)]

ghost use Rattle.std.specs.Prelude.{◌≡◌, ℕ, ◌≤◌, min, List, [], ◌∷◌, ◌++◌, length, drop};
ghost use Rattle.hall_machine.specs.declared.words.Ground.{Ground};
ghost use Rattle.hall_machine.specs.declared.words.HallAct.TheVariants.{Collect};
ghost use Rattle.hall_machine.specs.declared.words.Entry.{Entry};
ghost use Rattle.hall_machine.specs.declared.words.OpenDocument.{OpenDocument};
ghost use Rattle.hall_machine.specs.Entries.{stage_of, IsLegal, entry};
ghost use Rattle.hall_laws.specs.History.{place_in, place_told, IsAllowed, mails_in, posted, taken};
ghost use Rattle.hall_laws.specs.History.{given, CountUp, IsMove};
ghost use Rattle.hall_laws.specs.Parcels.{Deed, departed, arrived, Runs, Leaves, AreSorted};

use hall_machine::Labelled;

/// At each point of a legal history each document has at most one owner: the entries before it tell
/// who has the document, the machine's state says the same, and each entry is one that the
/// document's place at that point allows.
pub fn one_owner()
    ensures told { (g : Ground) (book : List Entry) → IsLegal g book → (doc : ℕ)
        → place_in doc (stage_of book) ≡ place_told doc book }
    ensures allowed { (g : Ground) (before rest : List Entry) (e : Entry)
        → IsLegal g (before ++ e ∷ rest) → IsAllowed e.who e.act (place_told e.doc before) }
{}

/// The ids that a legal history gives are 0, 1, 2 and so on, so none is given twice.
pub fn ids_count_up()
    ensures { (g : Ground) (book : List Entry) → IsLegal g book → CountUp 0 (given book) }
{}

/// The mails that wait for a document are those that were posted to it without the first ones,
/// which were collected: so mails are collected in the order posted, each at most once, and one
/// that wasn't collected waits. A collect takes all that wait, at most 64.
pub fn mails_in_order()
    ensures waits { (g : Ground) (book : List Entry) → IsLegal g book → (doc : ℕ)
        → mails_in doc (stage_of book) ≡ drop (taken doc book) (posted doc book) }
    ensures once { (g : Ground) (book : List Entry) → IsLegal g book → (doc : ℕ)
        → taken doc book ≤ length (posted doc book) }
    ensures oldest { (g : Ground) (before rest : List Entry) (who doc n : ℕ)
        → IsLegal g (before ++ entry who doc (Collect n) ∷ rest)
        → n ≡ min 64 (length (drop (taken doc before) (posted doc before))) }
{}

/// A move takes no mail away.
pub fn moves_keep_mail()
    ensures { (g : Ground) (before rest : List Entry) (e : Entry) → IsLegal g (before ++ e ∷ rest)
        → IsMove e.act → (doc : ℕ)
        → mails_in doc (stage_of (before ++ e ∷ [])) ≡ mails_in doc (stage_of before) }
{}

/// What an `arrive` of a `HallState` gives is the very parcel that the last `depart` of that
/// document left, and it is given to the poll that the document departed to.
pub fn parcels_arrive<P: Drop, M: Labelled>()
    ensures { (old new : List (OpenDocument P M)) (doc to who : ℕ) (left given : P)
        (between : List (Deed P M)) → AreSorted M.tag old
        → Runs M.tag old (departed doc to left ∷ (between ++ arrived who doc given ∷ [])) new
        → Leaves doc between → (given ≡ left) × (who ≡ to) }
{}
