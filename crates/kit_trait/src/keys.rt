//! What a key means: by its code, and else by its char.
ghost use Rattle.std.specs.Prelude.{◌≡◌, Some, None, if◌then◌else◌};
ghost use Rattle.kit_trait.specs.Keys.{key_with, is_typed};

/// The keys that act by their code. Any other key acts by its char.
#[derive(Clone, Copy, Debug, PartialEq, Eq)]
pub enum KeyCode {
    Down,
    Up,
    Left,
    Right,
    Home,
    End,
    Return,
    Tab,
    Backspace,
    Delete,
}

impl KeyCode {
    /// The key with the code; None exactly where the key acts by its char.
    pub fn with(code: u32) -> Option<KeyCode>
        ensures { result ≡ key_with code }
    {
        match code {
            1024 => Some(KeyCode::Down),
            1025 => Some(KeyCode::Up),
            1026 => Some(KeyCode::Left),
            1027 => Some(KeyCode::Right),
            1028 => Some(KeyCode::Home),
            1029 => Some(KeyCode::End),
            1280 => Some(KeyCode::Return),
            1282 => Some(KeyCode::Tab),
            1283 => Some(KeyCode::Backspace),
            1286 => Some(KeyCode::Delete),
            _ => None,
        }
    }
}

/// The char, where it can be typed: a character of at least 32 that isn't 127.
pub fn typed(chr: u32) -> Option<char>
    ensures { result ≡ (if is_typed chr then Some chr else None) }
{
    if chr < 32 || chr == 127 {
        return None;
    }
    char::from_u32(chr)
}
