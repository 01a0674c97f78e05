//! The faults of a command's words.
ghost use Rattle.std.specs.Prelude.{◌≡◌};
ghost use Rattle.std.specs.List.{find};
ghost use Rattle.std.specs.Option.{option_copied};
ghost use Rattle.cool_message.specs.Reading.{texts, standing, text_of, fits, is_missing, is_bad, is_repeated, fault_of};

use crate::fault::{MessageFault, Word};
use crate::limits::URL_LIMIT;
use crate::table::{Field, Kind, default_of};
use cool_base::read_u31;
use cool_words::{count_named, count_parts, first_value, is_list_31, is_list_64};

/// The first fault of a command's words: a required word that is not there, then a word whose first
/// occurrence is out of form, then a word that stands twice.
pub fn fault_of(fields: &[Field], words: &[&str]) -> Option<MessageFault>
    ensures { result ≡ fault_of fields.now (texts words.now) }
{
    if let Some(field) = first_missing(fields, words) {
        return Some(MessageFault::MissingWord(field.word));
    }
    if let Some(field) = first_bad(fields, words) {
        return Some(MessageFault::BadWord(field.word));
    }
    match first_repeated(fields, words) {
        Some(field) => Some(MessageFault::RepeatedWord(field.word)),
        None => None,
    }
}

fn first_missing(fields: &[Field], words: &[&str]) -> Option<Field>
    ensures { result ≡ find (is_missing (texts words.now)) fields.now }
{
    fields
        .iter()
        .copied()
        .find(|field| is_missing(words, *field))
}

fn first_bad(fields: &[Field], words: &[&str]) -> Option<Field>
    ensures { result ≡ find (is_bad (texts words.now)) fields.now }
{
    fields.iter().copied().find(|field| is_bad(words, *field))
}

fn first_repeated(fields: &[Field], words: &[&str]) -> Option<Field>
    ensures { result ≡ find (is_repeated (texts words.now)) fields.now }
{
    fields
        .iter()
        .copied()
        .find(|field| is_repeated(words, *field))
}

/// Whether a required word is not there.
fn is_missing(words: &[&str], field: Field) -> bool
    ensures { result ≡ is_missing (texts words.now) field }
{
    standing(words, field.word).is_none()
}

/// Whether the text that stands for a word is not of its kind.
fn is_bad(words: &[&str], field: Field) -> bool
    ensures { result ≡ is_bad (texts words.now) field }
{
    !fits(words, field.kind, text_of(words, field.word))
}

/// Whether a word stands twice.
fn is_repeated(words: &[&str], field: Field) -> bool
    ensures { result ≡ is_repeated (texts words.now) field }
{
    count_named(words, field.word.name()) > 1
}

/// The text that stands for a word: the value of its first occurrence, or its default; None where a
/// required word is not there.
fn standing<'a>(words: &[&'a str], word: Word) -> Option<&'a str>
    ensures { option_copied result ≡ standing (texts words.now) word }
{
    match first_value(words, word.name()) {
        Some(value) => Some(value),
        None => default_of(word),
    }
}

/// The same text, and nothing for a required word that is not there.
pub fn text_of<'a>(words: &[&'a str], word: Word) -> &'a str
    ensures { result.now ≡ text_of (texts words.now) word }
{
    standing(words, word).unwrap_or("")
}

/// Whether a text is a value of the kind, among these words.
fn fits(words: &[&str], kind: Kind, text: &str) -> bool
    ensures { result ≡ fits (texts words.now) kind text.now }
{
    match kind {
        Kind::Address => 1 <= text.len() && text.len() <= URL_LIMIT,
        Kind::KeyType => text == "input" || text == "up",
        Kind::MouseType => text == "buttondown" || text == "buttonup" || text == "move",
        Kind::Number | Kind::Look => read_u31(text.as_bytes()).is_some(),
        Kind::Numbers => is_list_31(text),
        Kind::AsManyNumbers => {
            is_list_31(text) && count_parts(text) == count_parts(text_of(words, Word::TilePosX))
        }
        Kind::LongNumbers => is_list_64(text),
        Kind::Flag => text == "0" || text == "1",
    }
}
