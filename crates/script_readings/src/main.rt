//! Reads cases line by line, and prints what scripts make of them. `line`, a blank and a text: what the line says.
//! `position` and lines parted by `;`: what the last of them does behind the others. `source` and bytes: the lines
//! that are taken off them. `record`, a link and a frame: its record. `fault` and a number: the text of a
//! refusal. In a text `%` and two digits are a byte. Other lines are printed as they are.
#![tactic(auto)]

use cool_base::Memory;
use cool_words::percent_decoded;
use outside::MemorySource;
use script_lines::{
    LineRole, LineStep, Position, ScriptLine, fault_text, next_line, read_line, record_of,
};
use std::alloc::Global;
use std::io::{self, Write};

/// What the line says, in words.
fn saying(alloc: Global, said: &Option<ScriptLine>) -> Result<String, Memory> {
    let Some(said) = said else {
        return Ok(String::from_str(alloc, "nothing that a script has")?);
    };
    match said {
        ScriptLine::Open(link, file, writes) => {
            let rights = if *writes { "rw" } else { "ro" };
            Ok(format!(in alloc; "open link={link} file={} {rights}", file.text())?)
        }
        ScriptLine::Say(link, message) => {
            let length = message.get().len();
            Ok(format!(in alloc; "say link={link} bytes={length}")?)
        }
        ScriptLine::Keys(link, typed) => characters(alloc, *link, typed.get()),
        ScriptLine::Leave(link) => Ok(format!(in alloc; "drop link={link}")?),
        ScriptLine::Turn(count) => Ok(format!(in alloc; "turn count={count}")?),
        ScriptLine::Settle => Ok(String::from_str(alloc, "settle")?),
        ScriptLine::Blank => Ok(String::from_str(alloc, "blank")?),
        ScriptLine::End => Ok(String::from_str(alloc, "end")?),
    }
}

/// What a link types, by the numbers of the characters.
fn characters(alloc: Global, link: u32, typed: &[char]) -> Result<String, Memory> {
    let mut text = format!(in alloc; "type link={link} characters=")?;
    for character in typed {
        let number = format!(in alloc; "[{}]", u32::from(*character))?;
        text.push_str(&number)?;
    }
    Ok(text)
}

/// What the last of these lines does behind the others.
fn role_of(alloc: Global, lines: &str) -> Result<Option<LineRole>, Memory> {
    let mut position = Position::start(alloc);
    let mut last = None;
    for line in lines.split(';') {
        last = Some(position.advance(alloc, line.as_bytes())?);
    }
    Ok(last)
}

/// The word for what a line does.
fn role_word(role: &Option<LineRole>) -> &'static str {
    match role {
        None => "none",
        Some(LineRole::Acts(_)) => "acts",
        Some(LineRole::Ends) => "ends",
        Some(LineRole::Refused) => "refused",
    }
}

/// The lines that are taken off a source of these bytes.
fn taken(alloc: Global, bytes: &[u8]) -> Result<String, Memory> {
    let mut source = MemorySource::new(bytes);
    let mut line = Vec::new(alloc);
    let mut room = 1_000_000;
    let mut text = String::new(alloc);
    for _ in 0..100u32 {
        let step = next_line(&mut source, &mut line, &mut room);
        let length = line.len();
        let left = source.rest().len();
        let said = format!(in alloc; "[{step:?} length={length} left={left}]")?;
        text.push_str(&said)?;
        if step != LineStep::Whole {
            return Ok(text);
        }
    }
    Ok(text)
}

/// The record of a link and a frame.
fn record(alloc: Global, words: &str) -> Result<Vec<u8>, Memory> {
    match words.split_once(' ') {
        Some((link, frame)) => {
            let frame = percent_decoded(alloc, frame.as_bytes())?;
            record_of(alloc, link.parse::<u64>().unwrap_or(0), &frame)
        }
        None => Ok(Vec::new(alloc)),
    }
}

/// What is printed behind a line.
fn reading(alloc: Global, line: &str) -> Result<Vec<u8>, Memory> {
    let (word, rest) = line.split_once(' ').unwrap_or((line, ""));
    match word {
        "line" => {
            let text = percent_decoded(alloc, rest.as_bytes())?;
            let said = saying(alloc, &read_line(alloc, &text)?)?;
            Ok(said.into_bytes())
        }
        "position" => {
            let role = role_of(alloc, rest)?;
            Ok(Vec::from_slice(alloc, role_word(&role).as_bytes())?)
        }
        "source" => {
            let bytes = percent_decoded(alloc, rest.as_bytes())?;
            Ok(taken(alloc, &bytes)?.into_bytes())
        }
        "record" => record(alloc, rest),
        "fault" => {
            let text = fault_text(alloc, rest.parse::<u64>().unwrap_or(0))?;
            Ok(text.into_bytes())
        }
        _ => Ok(Vec::new(alloc)),
    }
}

fn main(rt: HostRuntime) -> io::Result<()> {
    for line in rt.lines(rt.alloc()) {
        let line = line?;
        println!(rt; "{line}")?;
        let Ok(said) = reading(rt.alloc(), &line) else {
            continue
        };
        if !said.is_empty() {
            io::writer(&rt).write_all(&said)?;
            println!(rt; "")?;
        }
    }
    Ok(())
}
