//! What a script's line says.
ghost use Rattle.std.specs.Prelude.{◌≡◌, ◌==◌, ◌||◌, true, IfOk, OnErr, IfSome, is_some, length};
ghost use Rattle.std.specs.Option.{option_map};
ghost use Rattle.std.specs.Str.{chars, is_utf8};
ghost use Rattle.cool_base.specs.Words.{file_id};
ghost use Rattle.script_lines.specs.Grammar.{split_word, counted, link_of, linked, rights_of, file_part, open_part, say_part, keys_part, leave_part, turn_part, worded_by, line_of, is_comment, is_copied};

use cool_base::{FileId, ListOf, Memory, read_number};
use cool_words::split_once;
use std::alloc::Global;

/// What a line says.
#[derive(Drop)]
pub enum ScriptLine {
    /// `open <link> <file> <ro or rw>`: the link opens the file, and may write or not.
    Open(u32, FileId, bool),
    /// `say <link> <rest>`: the link says the message.
    Say(u32, ListOf<u8>),
    /// `type <link> <rest>`: the link types these characters.
    Keys(u32, ListOf<char>),
    /// `drop <link>`: the link is gone.
    Leave(u32),
    /// `turn 0 <n>`: so many turns, or up to one that is idle.
    Turn(u32),
    /// `settle`: all that waits is done.
    Settle,
    /// A line without a byte, or a comment, which begins with `#`: nothing is done.
    Blank,
    /// `end`: the script ends.
    End,
}

/// What the line says, if anything. `Memory` may come only where it says a message or characters: any
/// other line is judged without memory.
#[tactic(auto, unfolding(crate::specs::Grammar::line_of))]
pub fn read_line(alloc: Global, line: &[u8]) -> Result<Option<ScriptLine>, Memory>
    ensures ok { IfOk result (λ said. said ≡ line_of line.now) }
    ensures lacks { OnErr result (is_copied (line_of line.now) ≡ true) }
{
    if is_blank(line) {
        return Ok(Some(ScriptLine::Blank));
    }
    if line == b"end".as_slice() {
        return Ok(Some(ScriptLine::End));
    }
    if line == b"settle".as_slice() {
        return Ok(Some(ScriptLine::Settle));
    }
    let Some((word, rest)) = split_once(line, b' ') else {
        return Ok(None);
    };
    worded(alloc, word, rest)
}

// What a line of this first word and this rest says.
fn worded(alloc: Global, word: &[u8], rest: &[u8]) -> Result<Option<ScriptLine>, Memory>
    ensures ok { IfOk result (λ said. said ≡ worded_by word.now rest.now) }
    ensures lacks { OnErr result (is_copied (worded_by word.now rest.now) ≡ true) }
{
    if word == b"say".as_slice() {
        return say_part(alloc, rest);
    }
    if word == b"open".as_slice() {
        return Ok(open_part(rest));
    }
    if word == b"type".as_slice() {
        return keys_part(alloc, rest);
    }
    if word == b"drop".as_slice() {
        return Ok(leave_part(rest));
    }
    if word == b"turn".as_slice() {
        return Ok(turn_part(rest));
    }
    Ok(None)
}

// Whether the line has no byte or begins with `#`.
fn is_blank(line: &[u8]) -> bool
    ensures { result ≡ (length line.now == 0 || is_comment line.now) }
{
    match line.first() {
        Some(byte) => *byte == b'#',
        None => true,
    }
}

// The number of the digits, from 1 to the limit.
fn counted(word: &[u8], limit: u32) -> Option<u32>
    ensures { result ≡ counted limit word.now }
{
    let number = read_number(word, 70_000, u64::from(limit))?;
    if number == 0 {
        return None;
    }
    Some(number as u32)
}

// The link before the first blank, and all that stands behind that blank.
fn linked(rest: &[u8]) -> Option<(u32, &[u8])>
    ensures { option_map (λ part. (part.0, part.1.now)) result ≡ linked rest.now }
{
    let (word, rest) = split_once(rest, b' ')?;
    let link = counted(word, 65_535)?;
    Some((link, rest))
}

fn say_part(alloc: Global, rest: &[u8]) -> Result<Option<ScriptLine>, Memory>
    ensures ok { IfOk result (λ said. said ≡ say_part (linked rest.now)) }
    ensures lacks { OnErr result (is_copied (say_part (linked rest.now)) ≡ true) }
{
    let Some((link, message)) = linked(rest) else {
        return Ok(None);
    };
    let message = Vec::from_slice(alloc, message)?;
    Ok(Some(ScriptLine::Say(link, ListOf::of(message))))
}

fn keys_part(alloc: Global, rest: &[u8]) -> Result<Option<ScriptLine>, Memory>
    ensures ok { IfOk result (λ said. said ≡ keys_part (linked rest.now)) }
    ensures lacks { OnErr result (is_copied (keys_part (linked rest.now)) ≡ true) }
{
    let Some((link, typed)) = linked(rest) else {
        return Ok(None);
    };
    let Some(text) = text_of(typed) else {
        return Ok(None);
    };
    let typed = characters(alloc, text)?;
    Ok(Some(ScriptLine::Keys(link, typed)))
}

// The bytes as a text, where they are UTF-8.
fn text_of(bytes: &[u8]) -> Option<&str>
    ensures text { IfSome result (λ text. text.now ≡ bytes.now) }
    ensures form { is_some result ≡ is_utf8 bytes.now }
{
    match str::from_utf8(bytes) {
        Ok(text) => Some(text),
        Err(_) => None,
    }
}

// The characters of the text.
fn characters(alloc: Global, text: &str) -> Result<ListOf<char>, Memory>
    ensures { IfOk result (λ typed. typed ≡ chars text.now) }
{
    let typed: Vec<char> = text.chars().collect(alloc)?;
    Ok(ListOf::of(typed))
}

fn leave_part(rest: &[u8]) -> Option<ScriptLine>
    ensures { result ≡ leave_part (link_of rest.now) }
{
    Some(ScriptLine::Leave(counted(rest, 65_535)?))
}

fn turn_part(rest: &[u8]) -> Option<ScriptLine>
    ensures { result ≡ turn_part (split_word rest.now) }
{
    let (poll, count) = split_once(rest, b' ')?;
    if read_number(poll, 70_000, 0).is_none() {
        return None;
    }
    Some(ScriptLine::Turn(counted(count, 100_000)?))
}

fn open_part(rest: &[u8]) -> Option<ScriptLine>
    ensures { result ≡ open_part (linked rest.now) }
{
    let (link, rest) = linked(rest)?;
    file_part(link, rest)
}

fn file_part(link: u32, rest: &[u8]) -> Option<ScriptLine>
    ensures { result ≡ file_part link (split_word rest.now) }
{
    let (file, rights) = split_once(rest, b' ')?;
    let writes = rights_of(rights)?;
    Some(ScriptLine::Open(link, file_of(file)?, writes))
}

fn rights_of(word: &[u8]) -> Option<bool>
    ensures { result ≡ rights_of word.now }
{
    if word == b"rw".as_slice() {
        return Some(true);
    }
    if word == b"ro".as_slice() {
        return Some(false);
    }
    None
}

// The file id that the bytes are.
fn file_of(bytes: &[u8]) -> Option<FileId>
    ensures { result ≡ file_id bytes.now }
{
    match str::from_utf8(bytes) {
        Ok(text) => FileId::read(text),
        Err(_) => None,
    }
}
