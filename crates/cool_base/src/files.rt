//! `FileId`.
ghost use Rattle.std.specs.Prelude.{◌≡◌, IsTrue, ◌&&◌, nat_le, length, ◌↔◌};
ghost use Rattle.std.specs.List.{list_all};
ghost use Rattle.cool_base.specs.Words.{file_id, is_file_id, is_file_character};

use arrayvec::ArrayString;
use std::marker::Model;

/// The id of a file: 1 to 64 of the characters A to Z, a to z, 0 to 9, `_` and `-`. Contracts see its
/// bytes.
#[derive(Drop)]
pub struct FileId {
    text: ArrayString<64>,
}

impl Model for FileId {
    ghost use Rattle.std.specs.Prelude.{ℕ, List, IsTrue};
    ghost use Rattle.std.specs.Coded.{coded_list, coded_ℕ};
    ghost use Rattle.cool_base.specs.Words.{is_file_id};

    ghost Value = { List ℕ };

    ghost coded = { coded_list coded_ℕ };

    ghost view = { λ a. a.text.bytes };

    ghost invariant = { λ a. IsTrue (is_file_id a.text.bytes) };
}

impl FileId {
    /// The file id that the text is; None exactly where it is none.
    pub fn read(text: &str) -> Option<FileId>
        ensures { result ≡ file_id text.now }
    {
        if !is_file_id(text) {
            return None;
        }
        let text = ArrayString::from(text).ok()?;
        Some(FileId { text })
    }

    /// The text that was read.
    pub fn text(&self) -> &str
        ensures value { result.now ≡ self.now }
        ensures form { IsTrue (is_file_id self.now) }
    {
        self.text.as_str()
    }

    /// Whether the two are one file id.
    pub fn is_same(&self, other: &FileId) -> bool
        ensures { IsTrue result ↔ (self.now ≡ other.now) }
    {
        self.text.as_str() == other.text.as_str()
    }

    /// An equal file id. It takes no memory.
    pub fn copy(&self) -> FileId
        ensures { result ≡ self.now }
    {
        FileId { text: self.text }
    }
}

fn is_file_id(text: &str) -> bool
    ensures { result ≡ is_file_id text.now }
{
    let length = text.len();
    1 <= length && length <= 64 && are_file_characters(text.as_bytes())
}

fn are_file_characters(text: &[u8]) -> bool
    ensures { result ≡ list_all is_file_character text.now }
{
    text.iter().all(|byte| is_file_byte(*byte))
}

// One of A to Z, a to z, 0 to 9, `_` and `-`.
fn is_file_byte(byte: u8) -> bool
    ensures { result ≡ is_file_character byte }
{
    byte.is_ascii_alphanumeric() || byte == b'_' || byte == b'-'
}
