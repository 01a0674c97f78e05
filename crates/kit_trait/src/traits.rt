//! `Kit` and `Scene` with their laws.
ghost use Rattle.std.specs.Prelude.{◌≡◌, ℕ, ◌<◌, ◌≤◌, Bool, true, false, List, length, Ok, Err, IfOk, OnOk, OnErr};
ghost use Rattle.std.specs.List.{list_any, AllByRecursion};
ghost use Rattle.kit_trait.specs.declared.values.Pixels.{Pixels as Painted};
ghost use Rattle.kit_trait.specs.declared.values.Input.{Input as Typed};
ghost use Rattle.tile_key.specs.Places.{Place, IsArea};
ghost use Rattle.kit_trait.specs.Rules.{Rules, shown, hurts_point, IsWithin, ReadsAs};

use crate::values::{Damage, Input, KitName, LoadFault, Pixels};
use cool_base::{Memory, Size};
use std::alloc::Global;
use tile_key::Area;

/// A cut of a document: what an area shows, owned, so that another thread can paint it later.
pub trait Scene: Sized + Drop + Send + Eq {
    /// The picture that the scene holds.
    ghost paints: { Self → Painted };

    /// The scene's picture.
    fn paint(&self, alloc: Global) -> Result<Pixels, Memory>
        ensures { IfOk result (λ pixels. pixels ≡ paints self.now) };

    /// An equal scene.
    fn copy(&self, alloc: Global) -> Result<Self, Memory>
        ensures { IfOk result (λ scene. scene ≡ self.now) };

    /// Scenes that compare equal are one.
    ghost exact: { (a b : Self) → Self.PartialEq.eq a b ≡ true → a ≡ b };
}

/// A kind of document, as plain functions on its contents and the calls that compute them.
pub trait Kit: Sized + Drop + Send {
    type Scene: Scene;

    /// All that a document holds: the body, and for each view its place.
    ghost Contents: { Type 0 };

    /// What is shown and saved.
    ghost Body: { Type 0 };

    /// The plain functions of this kind of document.
    ghost rules: { Rules Contents Body };

    /// What the kit holds.
    ghost contents: { Self → Contents };

    /// What holds of all contents that a file and inputs lead to.
    ghost IsSound: { Contents → Type 0 };

    /// The scene of a place: what it holds of the contents.
    ghost cut: { Contents → Place → Self.Scene };

    /// The files that are refused before memory is taken.
    ghost refuses: { List ℕ → Bool };

    /// The document of the file. BadFile exactly where the file is none of this kind; and where it is
    /// refused before memory is taken, nothing else comes in its place.
    fn load(alloc: Global, file: &[u8]) -> Result<Self, LoadFault>
        ensures accepted { OnOk result (rules.accepts file.now ≡ true) }
        ensures ok { IfOk result (λ kit. contents kit ≡ rules.start file.now) }
        ensures bad { result ≡ Err LoadFault.BadFile → rules.accepts file.now ≡ false }
        ensures refused { refuses file.now ≡ true → result ≡ Err LoadFault.BadFile };

    /// The kind of document.
    fn name(&self) -> KitName
        ensures { result ≡ rules.name };

    /// How many parts the document has. It never changes.
    fn parts(&self) -> u32
        ensures { result ≡ rules.parts (rules.body (contents self.now)) };

    /// The size of a part in twips. It never changes.
    fn size(&self, part: u32) -> Size
        requires { part < rules.parts (rules.body (contents self.now)) }
        ensures { result ≡ rules.size (rules.body (contents self.now)) part };

    /// Takes the input and tells what it damaged. After `Memory` nothing has changed.
    fn input(&mut self, alloc: Global, input: &Input) -> Result<Vec<Damage>, Memory>
        requires { input.now.part < rules.parts (rules.body (contents self.old)) }
        ensures contents { OnOk result (contents self.new ≡ rules.step (contents self.old) input.now) }
        ensures hurt { IfOk result (λ hurt. hurt.items ≡ rules.hurt (contents self.old) input.now) }
        ensures err { OnErr result (contents self.new ≡ contents self.old) };

    /// What the area shows now. The contents stay.
    fn scene(&mut self, alloc: Global, area: &Area) -> Result<Self::Scene, Memory>
        requires { area.now.part < rules.parts (rules.body (contents self.old)) }
        ensures cut { IfOk result (λ scene. scene ≡ cut (contents self.old) area.now) }
        ensures kept { contents self.new ≡ contents self.old };

    /// The document as a file. The contents stay.
    fn save_text(&mut self, alloc: Global) -> Result<Vec<u8>, Memory>
        ensures text { IfOk result (λ text. text.items ≡ rules.text (rules.body (contents self.old))) }
        ensures kept { contents self.new ≡ contents self.old };

    /// Every file leads to sound contents.
    ghost sound_start: { (file : List ℕ) → IsSound (rules.start file) };

    /// Every input keeps them sound.
    ghost sound_step: { (c : Contents) (input : Typed) → IsSound c → IsSound (rules.step c input) };

    /// In both looks, a point in no damaged rectangle keeps its colour.
    ghost covered: { (c : Contents) (input : Typed) (nviewid part x y : ℕ) → IsSound c
        → list_any (λ d. hurts_point d part x y) (rules.hurt c input) ≡ false
        → rules.colour (rules.body (rules.step c input)) nviewid part x y
        ≡ rules.colour (rules.body c) nviewid part x y };

    /// The scene of a place of one of the parts has the picture that the place shows.
    ghost pictures: { (c : Contents) (place : Place) → IsSound c → IsArea place
        → place.part < rules.parts (rules.body c)
        → Self.Scene.paints (cut c place) ≡ shown rules c place };

    /// Each damaged rectangle lies inside its part.
    ghost within: { (c : Contents) (input : Typed) → IsSound c → AllByRecursion (IsWithin rules c) (rules.hurt c input) };

    /// An input damages at most 256 rectangles.
    ghost few: { (c : Contents) (input : Typed) → IsSound c → length (rules.hurt c input) ≤ 256 };

    /// The saved text reads as the body that was saved.
    ghost reads_back: { (c : Contents) → IsSound c → ReadsAs rules (rules.text (rules.body c)) c };

    /// A document has a part.
    ghost some_part: { (c : Contents) → IsSound c → 1 ≤ rules.parts (rules.body c) };

    /// An input changes neither the number of parts nor their sizes.
    ghost same_parts: { (c : Contents) (input : Typed) → IsSound c → rules.parts (rules.body (rules.step c input)) ≡ rules.parts (rules.body c) };

    ghost same_sizes: { (c : Contents) (input : Typed) (part : ℕ) → IsSound c → rules.size (rules.body (rules.step c input)) part ≡ rules.size (rules.body c) part };
}
