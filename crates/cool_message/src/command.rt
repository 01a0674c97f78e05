//! The command that an error frame names.
ghost use Rattle.std.specs.Prelude.{◌≡◌, ◌≤◌, not, length};
ghost use Rattle.std.specs.List.{position, position_or_len};
ghost use Rattle.std.specs.Str.{is_utf8};
ghost use Rattle.cool_words.specs.Words.{is_blank};
ghost use Rattle.cool_message.specs.Command.{command_name, first_word, is_readable};

use crate::limits::MESSAGE_LIMIT;
use cool_words::{command_text, is_command};

/// The command that an error frame names for a refused message: the message's first word, or
/// `unknown` where the text is longer than 65,536 bytes or not UTF-8, or where that word isn't 1 to
/// 32 letters a to z.
#[tactic(auto, unfolding(crate::specs::Command::command_name))]
pub fn command_of(text: &[u8]) -> &str
    ensures { result.now ≡ command_name text.now }
{
    let word = first_word(text);
    if is_readable(text) && is_command(word) {
        command_text(word)
    } else {
        "unknown"
    }
}

/// The bytes from the first that isn't a blank up to the next blank.
#[tactic(auto, unfolding(crate::specs::Command::first_word))]
fn first_word(text: &[u8]) -> &[u8]
    ensures { result.now ≡ first_word text.now }
{
    let rest = &text[blanks(text)..];
    &rest[..word_len(rest)]
}

/// How many blanks the text begins with.
#[tactic(auto, using(crate::proofs::Places::place_or_len, crate::proofs::Places::place_within))]
fn blanks(text: &[u8]) -> usize
    ensures place { result ≡ position_or_len (λ byte. not (is_blank byte)) text.now }
    ensures within { result ≤ length text.now }
{
    other_at(text).unwrap_or(text.len())
}

/// How many bytes stand before the first blank.
#[tactic(auto, using(crate::proofs::Places::place_or_len, crate::proofs::Places::place_within))]
fn word_len(text: &[u8]) -> usize
    ensures { result ≡ position_or_len is_blank text.now }
{
    blank_at(text).unwrap_or(text.len())
}

/// Where the first blank stands.
fn blank_at(text: &[u8]) -> Option<usize>
    ensures { result ≡ position is_blank text.now }
{
    text.iter().position(|byte| *byte == b' ')
}

/// Where the first byte stands that isn't a blank.
fn other_at(text: &[u8]) -> Option<usize>
    ensures { result ≡ position (λ byte. not (is_blank byte)) text.now }
{
    text.iter().position(|byte| *byte != b' ')
}

/// Whether the text is at most 65,536 bytes of UTF-8.
#[tactic(auto, unfolding(crate::specs::Command::is_readable))]
fn is_readable(text: &[u8]) -> bool
    ensures { result ≡ is_readable text.now }
{
    text.len() <= MESSAGE_LIMIT && is_utf8(text)
}

fn is_utf8(text: &[u8]) -> bool
    ensures { result ≡ is_utf8 text.now }
{
    match std::str::from_utf8(text) {
        Ok(_) => true,
        Err(_) => false,
    }
}
