//! Laws of scripts that are played on a world with one document, for any kit: what a whole transcript is, in the
//! words of the document machine. Each is a function whose contract is the law; its body is empty, or takes another law
//! to a kit.
#![tactic(auto)]

ghost use Rattle.std.specs.Prelude.{◌≡◌, ℕ, List, [], ◌∷◌, ◌++◌, codes, Option, Some};
ghost use Rattle.std.specs.List.{flat_map, AllByRecursion};
ghost use Rattle.cool_script.specs.Replay.{PlaysTo};
ghost use Rattle.cool_script.specs.Script.{Standing, first, Acting, UnderWay};
ghost use Rattle.document_machine.specs.Quiet.{IsQuiet, AllRight};
ghost use Rattle.document_machine.specs.Held.{Held};
ghost use Rattle.kit_trait.specs.Patch.{patch_rules};
ghost use Rattle.kit_trait.specs.PatchSeen.{patch_cut};
ghost use Rattle.script_laws.specs.LastTiles.{ArePainted};
ghost use Rattle.script_laws.specs.Played.{given_of, IsPlayed, Shows};
ghost use Rattle.script_laws.specs.Replayed.{IsReplayed};
ghost use Rattle.script_laws.specs.Rising.{Rises};
ghost use Rattle.script_laws.specs.Saves.{IsEarned};
ghost use Rattle.document_machine.specs.Event.{Event as Happening};
ghost use Rattle.tile_key.specs.Places.{Place};
ghost use Rattle.script_run.specs.Transcript.{Runs};
ghost use Rattle.script_run.specs.Uses.{SourceUse, SinkUse};
ghost use Rattle.script_world.specs.Seats.{Seats};
ghost use Rattle.script_world.specs.World.{IsAtRest};
ghost use Rattle.sheet_kit.specs.Seen.{sheet_cut};
ghost use Rattle.sheet_kit.specs.SheetKind.{sheet_kind};

use document_laws::saves_are_stored;
use kit_trait::{Kit, PatchKit};
use sheet_kit::SheetKit;

/// The transcript of a script, from its first line on, is records, each to one link: answers in the lobby, and
/// the frames that the document gave to its views, each written to the link of its view. The latter are, in
/// order and without any other, the frames of one run of moves of the document machine, from the loaded document
/// to the document, with the tiles kept of it, that is there behind the lines (`lines`). So it is with what a line makes that is under way behind
/// them (`under_way`), of which a front is written where the sink or memory stops the line.
pub fn scripts_are_runs<K: Kit>()
    ensures lines { (lines : List (List ℕ)) (out : List ℕ) (t : Standing K.Scene) → Runs (Acting K.rules K.cut) first lines out t → IsPlayed K.rules K.cut out t.world.house.seats t.world.house.document }
    ensures under_way { (lines : List (List ℕ)) (line out more : List ℕ) (t : Standing K.Scene) → Runs (Acting K.rules K.cut) first lines out t → UnderWay K.rules K.cut t line more → (seats : Seats) × (document : Option (Held K.Scene)) × IsPlayed K.rules K.cut (out ++ more) seats document }
{}

/// Each tile of such a transcript shows the document after as many of its accepted inputs as the tile's version
/// says, point by point.
pub fn script_tiles_show_prefixes<K: Kit>()
    ensures { (out : List ℕ) (seats : Seats) (document : Option (Held K.Scene)) (played : IsPlayed K.rules K.cut out seats document) → AllByRecursion (Shows K.rules document) played.pieces }
{}

/// No screen falls back: of two tiles of a key that a transcript gives to a view, and between which the view's screen
/// had the key, the later has no lower version. The run of which the transcript has the frames is cut at any two of
/// its events for that.
pub fn versions_never_fall<K: Kit>()
    ensures { (out : List ℕ) (seats : Seats) (held : Held K.Scene) (played : IsPlayed K.rules K.cut out seats (Some held)) (id : ℕ) (key : Place)
        (before : List (Happening K.Scene)) (first : Happening K.Scene) (between : List (Happening K.Scene)) (last : Happening K.Scene) (after : List (Happening K.Scene))
        → played.run.events ≡ before ++ first ∷ (between ++ last ∷ after)
        → Rises K.rules K.cut played.run.file (flat_map given_of played.pieces) held.document id key before first between last after }
{}

/// Behind a line `settle` nothing waits, and the document, if there is one, is quiet, and all that its views see
/// or asked for is right (`settled`). Behind any line, whenever the document is quiet, all that its views see or
/// asked for is right (`quiet`).
pub fn settled_scripts_are_right<K: Kit>()
    ensures settled { (lines : List (List ℕ)) (out : List ℕ) (t : Standing K.Scene) → Runs (Acting K.rules K.cut) first (lines ++ codes "settle" ∷ []) out t → (t.world.waiting ≡ []) × IsAtRest K.rules t.world.house.document }
    ensures quiet { (out : List ℕ) (seats : Seats) (held : Held K.Scene) → IsPlayed K.rules K.cut out seats (Some held) → IsQuiet K.rules held.document → AllRight K.rules held.document }
{}

/// In a quiet document each key that a view sees or asked for was sent to the view, and the last tile of it in the
/// transcript has the pixels of the document painted from scratch, after all accepted inputs (`quiet`). So it is
/// behind a line `settle` (`settled`).
pub fn last_tiles_are_right<K: Kit>()
    ensures quiet { (out : List ℕ) (seats : Seats) (held : Held K.Scene) (played : IsPlayed K.rules K.cut out seats (Some held)) → IsQuiet K.rules held.document → ArePainted K.rules (Some held) (flat_map given_of played.pieces) }
    ensures settled { (lines : List (List ℕ)) (out : List ℕ) (t : Standing K.Scene) → Runs (Acting K.rules K.cut) first (lines ++ codes "settle" ∷ []) out t → (played : IsPlayed K.rules K.cut out t.world.house.seats t.world.house.document) → ArePainted K.rules t.world.house.document (flat_map given_of played.pieces) }
{}

/// Each save that a transcript tells a view is done was said by the view before, with no more inputs accepted than the
/// frame's number says, and by then a content of that many inputs was stored: the loaded file, or one that a receipt
/// came for.
pub fn told_saves_are_stored<K: Kit>()
    ensures { (out : List ℕ) (seats : Seats) (held : Held K.Scene) (played : IsPlayed K.rules K.cut out seats (Some held)) → AllByRecursion (IsEarned K.rules K.cut played.run.file played.run.events) (flat_map given_of played.pieces) }
{
    saves_are_stored::<K>();
}

/// What `replay` writes of the lines that act is a transcript, and its tiles are right in all these senses. What
/// is written behind it, where the sink or memory stops a line, is a front of what the transcript goes on with;
/// or it is the text that names a refused line, or a front of that (`written`). Where `replay` ends with 0 nothing
/// is written behind it (`done`).
pub fn replays_are_right<K: Kit>()
    ensures written { (source : SourceUse) (sink : SinkUse) (code : ℕ) (plays : PlaysTo K.rules K.cut source sink code) → IsReplayed K.rules K.cut plays.1.ended.written plays.1.ended.tail plays.1.ended.state.world.house }
    ensures done { (source : SourceUse) (sink : SinkUse) (plays : PlaysTo K.rules K.cut source sink 0) → plays.1.ended.tail ≡ [] }
{
    told_saves_are_stored::<K>();
}

/// The same of the documents that `replay patch` and `replay sheet` play.
pub fn patches_and_sheets_are_right()
    ensures patch { (source : SourceUse) (sink : SinkUse) (code : ℕ) (plays : PlaysTo patch_rules patch_cut source sink code) → IsReplayed patch_rules patch_cut plays.1.ended.written plays.1.ended.tail plays.1.ended.state.world.house }
    ensures sheet { (source : SourceUse) (sink : SinkUse) (code : ℕ) (plays : PlaysTo sheet_kind sheet_cut source sink code) → IsReplayed sheet_kind sheet_cut plays.1.ended.written plays.1.ended.tail plays.1.ended.state.world.house }
{
    replays_are_right::<PatchKit>();
    replays_are_right::<SheetKit>();
}
