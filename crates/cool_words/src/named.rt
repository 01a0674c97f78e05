//! Words that give a name a value.
ghost use Rattle.std.specs.Prelude.{◌≡◌, ◌==◌, map};
ghost use Rattle.std.specs.List.{position, find};
ghost use Rattle.std.specs.Option.{option_map, option_copied};
ghost use Rattle.cool_words.specs.Words.{cut_at, name_and_value, is_named, value_of, first_value, count_named};

/// What stands before the first such byte of the line and what stands behind it; None where it has
/// no such byte.
pub fn split_once(line: &[u8], byte: u8) -> Option<(&[u8], &[u8])>
    ensures { option_map (λ sides. (sides.0.now, sides.1.now)) result ≡ cut_at byte line.now }
{
    match place_of(line, byte) {
        Some(place) => Some((&line[..place], &line[place + 1..])),
        None => None,
    }
}

/// Where the first such byte stands.
fn place_of(line: &[u8], byte: u8) -> Option<usize>
    ensures { result ≡ position (λ found. found == byte) line.now }
{
    line.iter().position(|found| *found == byte)
}

/// The two sides of a word `name=value`, cut at its first equals sign; None where it has none.
pub fn name_and_value(word: &str) -> Option<(&str, &str)>
    ensures { option_map (λ sides. (sides.0.now, sides.1.now)) result ≡ name_and_value word.now }
{
    word.split_once('=')
}

/// Whether the word is `name=` and a value.
pub fn is_named(word: &str, name: &str) -> bool
    ensures { result ≡ is_named name.now word.now }
{
    match name_and_value(word) {
        Some((found, _)) => found == name,
        None => false,
    }
}

/// The value of a word `name=value`.
fn value_of(word: &str) -> Option<&str>
    ensures { option_copied result ≡ value_of word.now }
{
    let (_, value) = name_and_value(word)?;
    Some(value)
}

/// The value of the first word of this name; None where no word has the name.
pub fn first_value<'a>(words: &[&'a str], name: &str) -> Option<&'a str>
    ensures { option_copied result ≡ first_value name.now (map (λ word. word.now) words.now) }
{
    value_of(first_named(words, name)?)
}

/// The first word of this name.
fn first_named<'a>(words: &[&'a str], name: &str) -> Option<&'a str>
    ensures { option_copied result ≡ find (is_named name.now) (map (λ word. word.now) words.now) }
{
    words.iter().copied().find(|word| is_named(word, name))
}

/// How many of the words have this name.
pub fn count_named(words: &[&str], name: &str) -> usize
    ensures { result ≡ count_named name.now (map (λ word. word.now) words.now) }
{
    words.iter().filter(|word| is_named(word, name)).count()
}
