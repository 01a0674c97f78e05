// A link, and the lines that are played on it.
use crate::pipe::Pipe;
use anyhow::Result;
use std::alloc::Global;
use web_link::{Heard, WebLink};
use web_upgrade::{Driven, Shake};

/// How many bytes are printed at most.
const SHOWN: usize = 150;

/// How far the link is.
#[derive(Drop)]
enum Link {
    Shakes(Shake<Pipe>),
    Open(WebLink<Pipe>),
    Gone,
}

/// The link that lines are played on.
#[derive(Drop)]
pub struct Player {
    alloc: Global,
    link: Link,
}

// The first of the words, as a number, and those behind it.
fn number(words: &str) -> (usize, &str) {
    let (word, rest) = words.split_once(' ').unwrap_or((words, ""));
    (word.parse::<usize>().unwrap_or(0), rest)
}

// The first of the words, as a byte in hex, and those behind it.
fn byte(words: &str) -> (u8, &str) {
    let (word, rest) = words.split_once(' ').unwrap_or((words, ""));
    (u8::from_str_radix(word, 16).unwrap_or(0), rest)
}

// A frame of a browser, with equal bytes.
fn frame(alloc: Global, words: &str) -> Result<Vec<u8>> {
    let (first, rest) = byte(words);
    let (masked, rest) = number(rest);
    let (length, rest) = number(rest);
    let (fill, _) = byte(rest);
    let mask = if masked == 1 { 0x80 } else { 0 };
    let mut bytes = Vec::new(alloc);
    bytes.push(first)?;
    if length < 126 {
        bytes.push(mask | length as u8)?;
    } else if let Ok(short) = u16::try_from(length) {
        bytes.push(mask | 126)?;
        bytes.extend_from_slice(&short.to_be_bytes())?;
    } else {
        bytes.push(mask | 127)?;
        bytes.extend_from_slice(&(length as u64).to_be_bytes())?;
    }
    if masked == 1 {
        bytes.extend_from_slice(&[0x55; 4])?;
    }
    let fill = if masked == 1 { fill ^ 0x55 } else { fill };
    let whole = bytes.len().saturating_add(length);
    bytes.resize(whole, fill)?;
    Ok(bytes)
}

// A tile's frame of so many bytes.
fn tile(alloc: Global, words: &str) -> Result<Vec<u8>> {
    let (length, _) = number(words);
    let mut bytes = Vec::from_slice(alloc, b"tile: ")?;
    bytes.resize(length, 7)?;
    Ok(bytes)
}

// The front of the bytes as text, and how many there are.
fn show(rt: &HostRuntime, what: &str, bytes: &[u8]) -> Result<()> {
    let shown = if bytes.len() < SHOWN {
        bytes
    } else {
        &bytes[..SHOWN]
    };
    println!(rt; "  {what} {}: {}", bytes.len(), shown.escape_ascii())?;
    Ok(())
}

impl Player {
    /// No link.
    pub fn new(alloc: Global) -> Player {
        Player {
            alloc,
            link: Link::Gone,
        }
    }

    /// Plays a line.
    pub fn play(&mut self, rt: &HostRuntime, form: &str, words: &str) -> Result<()> {
        match form {
            "link" => self.link = Link::Shakes(Shake::new(self.alloc, Pipe::new(self.alloc))),
            "go" => self.go(rt)?,
            "give" => self.give(rt, words.as_bytes())?,
            "tile" => self.give(rt, &tile(self.alloc, words)?)?,
            _ => self.come(form, words)?,
        }
        Ok(())
    }

    // What comes over the stream.
    fn come(&mut self, form: &str, words: &str) -> Result<()> {
        let alloc = self.alloc;
        let pipe = match &mut self.link {
            Link::Shakes(shake) => shake.stream_mut(),
            Link::Open(link) => link.stream_mut(),
            Link::Gone => return Ok(()),
        };
        match form {
            "line" => {
                pipe.put(words.as_bytes())?;
                pipe.put(b"\r\n")?;
            }
            "hex" => pipe.put(&hex::decode(alloc, words)?)?,
            "frame" => pipe.put(&frame(alloc, words)?)?,
            "end" => pipe.end(),
            "room" => pipe.set_room(number(words).0),
            _ => {}
        }
        Ok(())
    }

    fn give(&mut self, rt: &HostRuntime, frame: &[u8]) -> Result<()> {
        if let Link::Open(link) = &mut self.link {
            let alive = link.give(frame)?;
            println!(rt; "  alive {alive}, busy {}", link.is_busy())?;
        }
        Ok(())
    }

    // The link does what it can.
    fn go(&mut self, rt: &HostRuntime) -> Result<()> {
        match std::mem::replace(&mut self.link, Link::Gone) {
            Link::Shakes(shake) => self.shake(rt, shake),
            Link::Open(link) => self.hear(rt, link),
            Link::Gone => Ok(()),
        }
    }

    fn shake(&mut self, rt: &HostRuntime, mut shake: Shake<Pipe>) -> Result<()> {
        let driven = shake.drive()?;
        println!(rt; "  {driven:?}")?;
        show(rt, "sent", shake.stream_mut().sent())?;
        shake.stream_mut().forget();
        match driven {
            Driven::Waits => self.link = Link::Shakes(shake),
            Driven::Opens => {
                let (pipe, rest) = shake.into_parts();
                self.link = Link::Open(WebLink::open(self.alloc, pipe, rest));
            }
            Driven::Ends => {}
        }
        Ok(())
    }

    fn hear(&mut self, rt: &HostRuntime, mut link: WebLink<Pipe>) -> Result<()> {
        let mut goes_on = link.push()?;
        for _ in 0..100 {
            if !goes_on {
                break;
            }
            match link.hear()? {
                Heard::Said(bytes) => show(rt, "said", bytes.get())?,
                Heard::Control => println!(rt; "  control")?,
                Heard::Blocked => break,
                Heard::Ended => goes_on = false,
            }
        }
        show(rt, "sent", link.stream_mut().sent())?;
        link.stream_mut().forget();
        println!(rt; "  open {goes_on}, busy {}", link.is_busy())?;
        if goes_on {
            self.link = Link::Open(link);
        }
        Ok(())
    }
}
