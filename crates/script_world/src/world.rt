//! The world of a script.
ghost use Rattle.std.specs.Prelude.{◌≡◌, ◌++◌, codes, IfOk, OnOk};
ghost use Rattle.script_world.specs.World.{key_text, typed_events};

use crate::event::Waiting;
use crate::moves::{all_events, turns_up_to};
use crate::seats::Seats;
use crate::settling::comes_to_rest;
use broker_core::Broker;
use cool_base::{FileId, ListOf, Memory};
use kit_trait::Kit;
use outside::Sink;
use script_lines::Stop;
use std::alloc::Global;
use std::collections::VecDeque;
use std::marker::Model;

/// What waits, who is there, and the document once a load of it was taken.
#[derive(Drop)]
pub struct World<K: Kit> {
    waiting: VecDeque<Waiting>,
    seats: Seats,
    broker: Option<Broker<K>>,
}

impl<K: Kit> Model for World<K> {
    ghost use Rattle.script_world.specs.House.{IsHoused, document_of};
    ghost use Rattle.script_world.specs.World.{Seen};

    ghost Value = { Seen K.Scene };

    ghost view = { λ w. record { waiting = w.waiting.items; house = record { seats = w.seats; document = document_of w.broker } } };

    ghost invariant = { λ w. IsHoused K.rules K.cut (record { seats = w.seats; document = document_of w.broker }) };
}

impl<K: Kit> World<K> {
    ghost use Rattle.std.specs.Prelude.{◌≡◌, [], ◌∷◌, ◌++◌, OnOk, OnErr, IfErr, Err, List, ℕ};
    ghost use Rattle.outside.specs.Causes.{HasCause};
    ghost use Rattle.outside.specs.Streams.{Adds};
    ghost use Rattle.script_run.specs.Play.{Stopped};
    ghost use Rattle.script_world.specs.World.{unopened, opening_events, typed_events, Turned, Settled, Begun};

    /// Nothing waits, nobody is there, and no document is loaded.
    pub fn new(alloc: Global) -> World<K>
        ensures { result ≡ unopened }
    {
        World {
            waiting: VecDeque::new(alloc),
            seats: Seats::new(alloc),
            broker: None,
        }
    }

    /// The link opens the file: it is there, greets and loads. After `Memory` the world is unchanged.
    pub fn open(
        &mut self,
        alloc: Global,
        link: u32,
        file: FileId,
        writes: bool,
    ) -> Result<(), Memory>
        ensures ok { OnOk result (self.new ≡ record self.old { waiting = self.old.waiting ++ opening_events link file writes }) }
        ensures err { OnErr result (self.new ≡ self.old) }
    {
        let greeting = greeting(alloc)?;
        self.waiting.reserve(3)?;
        self.waiting.push_back_reserved(Waiting::Opened(link));
        self.waiting
            .push_back_reserved(Waiting::Says(link, greeting));
        self.waiting
            .push_back_reserved(Waiting::Loads(link, file, writes));
        Ok(())
    }

    /// The link says the message. After `Memory` the world is unchanged.
    pub fn say(&mut self, link: u32, message: ListOf<u8>) -> Result<(), Memory>
        ensures ok { OnOk result (self.new ≡ record self.old { waiting = self.old.waiting ++ Waiting.Says link message ∷ [] }) }
        ensures err { OnErr result (self.new ≡ self.old) }
    {
        self.waiting.push_back(Waiting::Says(link, message))?;
        Ok(())
    }

    /// The link types the characters, each as the message of a key. After `Memory` some of them wait.
    pub fn type_all(&mut self, alloc: Global, link: u32, typed: &[char]) -> Result<(), Memory>
        ensures { OnOk result (self.new ≡ record self.old { waiting = self.old.waiting ++ typed_events link typed.now }) }
    {
        type_into(alloc, link, typed, &mut self.waiting)
    }

    /// The link is gone. After `Memory` the world is unchanged.
    pub fn leave(&mut self, link: u32) -> Result<(), Memory>
        ensures ok { OnOk result (self.new ≡ record self.old { waiting = self.old.waiting ++ Waiting.Gone link ∷ [] }) }
        ensures err { OnErr result (self.new ≡ self.old) }
    {
        self.waiting.push_back(Waiting::Gone(link))?;
        Ok(())
    }

    /// Makes so many poll turns, or fewer up to one that would do nothing, and writes the records of their
    /// frames. Where it is stopped, whole turns were written and a front of one more; what stands in the
    /// world after that is open.
    pub fn make_turns<T: Sink>(
        &mut self,
        alloc: Global,
        sink: &mut T,
        count: u32,
    ) -> Result<(), Stop>
        ensures ok { OnOk result ((out : List ℕ) × Turned K.rules K.cut count self.old out self.new × Adds (T.written sink.old) out (T.written sink.new)) }
        ensures stop { IfErr result (λ stop. Stopped stop (Begun K.rules K.cut self.old) (T.written sink.old) (T.written sink.new)) }
        ensures cause { HasCause (T.faults sink.old) (T.faults sink.new) (result ≡ Err Stop.Sink) }
    {
        let broker = self.broker.take();
        self.broker = turns_up_to(
            alloc,
            broker,
            &mut self.seats,
            &mut self.waiting,
            sink,
            count,
        )?;
        Ok(())
    }

    /// Does all that is to do, and writes the records of the frames: poll turns up to one that would do
    /// nothing, then the acknowledgements of all tiles that were sent, and anew. Where it is stopped, whole
    /// moves were written and a front of one more; what stands in the world after that is open.
    pub fn settle<T: Sink>(&mut self, alloc: Global, sink: &mut T) -> Result<(), Stop>
        ensures ok { OnOk result ((out : List ℕ) × Settled K.rules K.cut self.old out self.new × Adds (T.written sink.old) out (T.written sink.new)) }
        ensures stop { IfErr result (λ stop. Stopped stop (Begun K.rules K.cut self.old) (T.written sink.old) (T.written sink.new)) }
        ensures cause { HasCause (T.faults sink.old) (T.faults sink.new) (result ≡ Err Stop.Sink) }
    {
        let broker = self.broker.take();
        let broker = all_events(alloc, broker, &mut self.seats, &mut self.waiting, sink)?;
        self.broker = comes_to_rest(alloc, broker, &mut self.seats, &mut self.waiting, sink)?;
        Ok(())
    }
}

// What a link says first.
fn greeting(alloc: Global) -> Result<ListOf<u8>, Memory>
    ensures { IfOk result (λ text. text ≡ codes "coolclient 0.1") }
{
    let text = String::from_str(alloc, "coolclient 0.1")?;
    Ok(ListOf::of(Vec::from_slice(alloc, text.as_bytes())?))
}

// The messages of keys come to wait.
fn type_into(
    alloc: Global,
    link: u32,
    typed: &[char],
    waiting: &mut VecDeque<Waiting>,
) -> Result<(), Memory>
    ensures { OnOk result (waiting.new.items ≡ waiting.old.items ++ typed_events link typed.now) }
{
    for character in typed {
        let text = key_text(alloc, *character)?;
        waiting.push_back(Waiting::Says(link, text))?;
    }
    Ok(())
}

// The message of a key for a character.
fn key_text(alloc: Global, character: char) -> Result<ListOf<u8>, Memory>
    ensures { IfOk result (λ text. text ≡ key_text character) }
{
    let code = u32::from(character);
    let text = format!(in alloc; "key type=input char={code} key=0")?;
    Ok(ListOf::of(Vec::from_slice(alloc, text.as_bytes())?))
}
