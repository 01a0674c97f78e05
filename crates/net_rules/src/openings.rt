// How many links may still open.
ghost use Rattle.std.specs.Prelude.{◌≡◌, ◌<◌, ◌-◌, Option, ℕ};

use std::marker::Model;

/// How many links may still open over a net. Contracts see the number, or None for any number.
#[derive(Drop)]
pub struct Openings {
    left: Option<u64>,
}

impl Model for Openings {
    ghost Value = { Option ℕ };

    ghost view = { λ o. o.left };
}

impl Openings {
    ghost use Rattle.std.specs.Prelude.{◌≡◌, ◌==◌, ◌<◌, ◌↔◌, IsTrue, Some, None, if◌then◌else◌};
    ghost use Rattle.net_rules.specs.Rooms.{room_of, HasRoom, room_less};

    /// So many links may open, or any number where that is 0.
    pub fn of(sessions: u64) -> Openings
        ensures { result ≡ room_of sessions }
    {
        if sessions == 0 {
            Openings { left: None }
        } else {
            Openings {
                left: Some(sessions),
            }
        }
    }

    /// No link may open.
    pub fn none() -> Openings
        ensures { result ≡ Some 0 }
    {
        Openings { left: Some(0) }
    }

    /// Whether a link may open.
    pub fn has_room(&self) -> bool
        ensures { IsTrue result ↔ HasRoom self.now }
    {
        match self.left {
            Some(left) => left > 0,
            None => true,
        }
    }

    /// A link opens, if it may: one fewer may open from then on. False exactly where none may, and
    /// then nothing changes.
    pub fn open(&mut self) -> bool
        ensures may { IsTrue result ↔ HasRoom self.old }
        ensures left { self.new ≡ room_less self.old }
    {
        match self.left {
            Some(0) => false,
            Some(left) => {
                self.left = Some(left - 1);
                true
            }
            None => true,
        }
    }
}
