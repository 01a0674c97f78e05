//! Commands: words of 1 to 32 letters a to z.
ghost use Rattle.std.specs.Prelude.{◌≡◌, ◌≤◌, true, length};
ghost use Rattle.std.specs.List.{list_all};
ghost use Rattle.cool_words.specs.Words.{is_letter, is_command};

/// The most letters of a command.
pub const COMMAND_LIMIT: usize = 32;

/// Whether the word is a command.
pub fn is_command(word: &[u8]) -> bool
    ensures { result ≡ is_command word.now }
{
    1 <= word.len() && word.len() <= COMMAND_LIMIT && are_letters(word)
}

fn are_letters(word: &[u8]) -> bool
    ensures { result ≡ list_all is_letter word.now }
{
    word.iter().all(|byte| is_letter(*byte))
}

/// Whether the byte is a letter a to z.
pub fn is_letter(byte: u8) -> bool
    ensures { result ≡ is_letter byte }
{
    byte.is_ascii_lowercase()
}

/// The command as a text.
pub fn command_text(word: &[u8]) -> &str
    requires { is_command word.now ≡ true }
    ensures { result.now ≡ word.now }
{
    match std::str::from_utf8(word) {
        Ok(text) => text,
        Err(_) => "",
    }
}
