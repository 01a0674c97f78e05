//! `Script`: the world with the position in the grammar, played line by line.
ghost use Rattle.std.specs.Prelude.{◌≡◌, ℕ, List, Some, Err, OnOk, IfErr};
ghost use Rattle.outside.specs.Causes.{HasCause};
ghost use Rattle.outside.specs.Streams.{Adds};
ghost use Rattle.script_run.specs.Determined.{StepsOnce, StaysGood};
ghost use Rattle.cool_script.specs.Script.{Acting, Does, Doing, Halted, IsGood, CarriesOut};

use kit_trait::{Kit, PatchKit};
use outside::Sink;
use script_lines::{LineRole, Position, ScriptLine, Stop};
use script_run::{Play, Status, refuse};
use script_world::{World, settling_has_one_record, turns_have_one_record};
use sheet_kit::SheetKit;
use std::alloc::Global;
use std::marker::Model;

/// Where the script stands, and the world of its document.
#[derive(Drop)]
pub struct Script<K: Kit> {
    position: Position,
    world: World<K>,
}

impl<K: Kit> Model for Script<K> {
    ghost use Rattle.cool_script.specs.Script.{Standing};

    ghost Value = { Standing K.Scene };

    ghost view = { λ s. record { position = s.position; world = s.world } };
}

impl<K: Kit> Script<K> {
    ghost use Rattle.std.specs.Prelude.{◌≡◌, Some};
    ghost use Rattle.script_run.specs.Play.{Answers};
    ghost use Rattle.cool_script.specs.Script.{first, Acting, UnderWay};

    /// A script before its first line.
    pub fn new(alloc: Global) -> Script<K>
        ensures { result ≡ first }
    {
        Script {
            position: Position::start(alloc),
            world: World::new(alloc),
        }
    }

    /// Takes one line: None where it acts, else the status that it decides. A refused line is named by
    /// its number.
    pub fn take_line<T: Sink>(
        &mut self,
        alloc: Global,
        sink: &mut T,
        line: &[u8],
        number: u64,
    ) -> Option<Status>
        ensures answers { Answers (λ s. s.position) (Acting K.rules K.cut) (UnderWay K.rules K.cut) result self.old line.now number self.new (T.written sink.old) (T.written sink.new) }
        ensures cause { HasCause (T.faults sink.old) (T.faults sink.new) (result ≡ Some Status.WriteFault) }
    {
        let Ok(role) = self.position.advance(alloc, line) else {
            return Some(Status::Memory);
        };
        match role {
            LineRole::Acts(said) => carry_out(&mut self.world, alloc, sink, said),
            LineRole::Ends => Some(Status::Done),
            LineRole::Refused => Some(refuse(alloc, sink, number)),
        }
    }
}

// Lets the world do what the line says: None where it is done, else the status that it decides.
fn carry_out<K: Kit, T: Sink>(
    world: &mut World<K>,
    alloc: Global,
    sink: &mut T,
    said: ScriptLine,
) -> Option<Status>
    ensures carries_out { CarriesOut K.rules K.cut said result world.old world.new (T.written sink.old) (T.written sink.new) }
    ensures cause { HasCause (T.faults sink.old) (T.faults sink.new) (result ≡ Some Status.WriteFault) }
{
    match act(world, alloc, sink, said) {
        Ok(()) => None,
        Err(Stop::Sink) => Some(Status::WriteFault),
        Err(Stop::Memory) => Some(Status::Memory),
    }
}

// Lets the world do what the line says.
fn act<K: Kit, T: Sink>(
    world: &mut World<K>,
    alloc: Global,
    sink: &mut T,
    said: ScriptLine,
) -> Result<(), Stop>
    ensures ok { OnOk result ((out : List ℕ) × Does K.rules K.cut said world.old out world.new × Adds (T.written sink.old) out (T.written sink.new)) }
    ensures halted { IfErr result (λ stop. Halted stop (Doing K.rules K.cut said world.old) (T.written sink.old) (T.written sink.new)) }
    ensures cause { HasCause (T.faults sink.old) (T.faults sink.new) (result ≡ Err Stop.Sink) }
{
    match said {
        ScriptLine::Open(link, file, writes) => Ok(world.open(alloc, link, file, writes)?),
        ScriptLine::Say(link, message) => Ok(world.say(link, message)?),
        ScriptLine::Keys(link, typed) => Ok(world.type_all(alloc, link, typed.get())?),
        ScriptLine::Leave(link) => Ok(world.leave(link)?),
        ScriptLine::Turn(count) => world.make_turns(alloc, sink, count),
        ScriptLine::Settle => world.settle(alloc, sink),
        ScriptLine::Blank => Ok(()),
        ScriptLine::End => Ok(()),
    }
}

// A law: what a line that acts writes, and where it leads, is no choice.
fn steps_once<K: Kit>()
    ensures once { StepsOnce (Acting K.rules K.cut) (IsGood K.rules K.cut) }
    ensures stays { StaysGood (Acting K.rules K.cut) (IsGood K.rules K.cut) }
{
    turns_have_one_record::<K>();
    settling_has_one_record::<K>();
}

impl Play for Script<PatchKit> {
    ghost use Rattle.kit_trait.specs.Patch.{patch_rules};
    ghost use Rattle.kit_trait.specs.PatchSeen.{patch_cut};
    ghost use Rattle.kit_trait.specs.declared.patch_scene.PatchScene.{PatchScene};
    ghost use Rattle.cool_script.specs.Script.{Standing, Acting, UnderWay, IsGood};
    ghost use Rattle.cool_script.specs.Follows.{acting_follows};

    ghost State = { Standing PatchScene };

    ghost state = { λ s. s };

    ghost position = { λ s. s.position };

    ghost step = { Acting patch_rules patch_cut };

    ghost under = { UnderWay patch_rules patch_cut };

    ghost is_good = { IsGood patch_rules patch_cut };

    fn steps_once() {
        steps_once::<PatchKit>();
    }

    fn answer<T: Sink>(
        &mut self,
        alloc: Global,
        sink: &mut T,
        line: &[u8],
        number: u64,
    ) -> Option<Status> {
        self.take_line(alloc, sink, line, number)
    }

    ghost follows = { acting_follows patch_rules patch_cut };
}

impl Play for Script<SheetKit> {
    ghost use Rattle.sheet_kit.specs.Seen.{sheet_cut};
    ghost use Rattle.sheet_kit.specs.SheetKind.{sheet_kind};
    ghost use Rattle.sheet_kit.specs.declared.scene.SheetScene.{SheetScene};
    ghost use Rattle.cool_script.specs.Script.{Standing, Acting, UnderWay, IsGood};
    ghost use Rattle.cool_script.specs.Follows.{acting_follows};

    ghost State = { Standing SheetScene };

    ghost state = { λ s. s };

    ghost position = { λ s. s.position };

    ghost step = { Acting sheet_kind sheet_cut };

    ghost under = { UnderWay sheet_kind sheet_cut };

    ghost is_good = { IsGood sheet_kind sheet_cut };

    fn steps_once() {
        steps_once::<SheetKit>();
    }

    fn answer<T: Sink>(
        &mut self,
        alloc: Global,
        sink: &mut T,
        line: &[u8],
        number: u64,
    ) -> Option<Status> {
        self.take_line(alloc, sink, line, number)
    }

    ghost follows = { acting_follows sheet_kind sheet_cut };
}
