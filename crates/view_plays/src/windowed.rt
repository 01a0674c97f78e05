//! `Windowed`: a window, and what it answered.
use crate::words::{at, numbers};
use cool_base::{Memory, Wid};
use send_window::Window;
use std::alloc::Global;
use tile_key::TileKey;

/// A window, and in lines what it answered.
#[derive(Drop)]
pub(crate) struct Windowed {
    window: Window,
    text: String,
}

impl Windowed {
    /// An empty window.
    pub(crate) fn new(alloc: Global) -> Windowed {
        Windowed {
            window: Window::new(),
            text: String::new(alloc),
        }
    }

    /// All that it answered.
    pub(crate) fn text(&self) -> &str {
        self.text.as_str()
    }

    /// `put 3`: a tile with this number is sent, where there is room. `fill 1 64`: those with these numbers.
    /// `close 3`: it is acknowledged. `tell`: the numbers, and the room.
    pub(crate) fn act(&mut self, alloc: Global, line: &str) -> Result<(), Memory> {
        let (word, rest) = line.split_once(' ').unwrap_or((line, ""));
        let numbers = numbers(alloc, rest)?;
        let first = at(numbers.as_slice(), 0);
        match word {
            "put" => self.puts(first),
            "fill" => {
                for number in first..at(numbers.as_slice(), 1) {
                    self.puts(number)?;
                }
                Ok(())
            }
            "close" => {
                let open = self.window.close(Wid(u64::from(first)));
                self.write(if open { "open" } else { "not open" })
            }
            "tell" => self.tells(alloc),
            _ => self.write("no such act"),
        }
    }

    fn write(&mut self, line: &str) -> Result<(), Memory> {
        self.text.push_str(line)?;
        self.text.push('\n')?;
        Ok(())
    }

    fn puts(&mut self, number: u32) -> Result<(), Memory> {
        if self.window.room() == 0 {
            return self.write("full");
        }
        self.window.put(Wid(u64::from(number)), &TileKey::default());
        Ok(())
    }

    fn tells(&mut self, alloc: Global) -> Result<(), Memory> {
        for wid in self.window.wids().as_slice() {
            let number = wid.0;
            let word = format!(in alloc; "{number} ")?;
            self.text.push_str(word.as_str())?;
        }
        let room = self.window.room();
        let empty = self.window.is_empty();
        let line = format!(in alloc; "and room for {room}, empty {empty}")?;
        self.write(line.as_str())
    }
}
