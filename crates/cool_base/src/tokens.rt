//! `Token`.
ghost use Rattle.std.specs.Prelude.{◌≡◌, ◌↔◌, Ok, None, IsTrue, IfOk, string_bytes, ◌&&◌, nat_le, length};
ghost use Rattle.std.specs.List.{list_all};
ghost use Rattle.cool_base.specs.Words.{token, is_token, is_token_byte};

use crate::want::Memory;
use std::alloc::Global;
use std::marker::Model;

/// An access token: 1 to 2,048 bytes, each from 33 to 126. Contracts see its bytes.
#[derive(Drop)]
pub struct Token {
    text: String,
}

impl Model for Token {
    ghost use Rattle.std.specs.Prelude.{ℕ, List, IsTrue, string_bytes};
    ghost use Rattle.std.specs.Coded.{coded_list, coded_ℕ};
    ghost use Rattle.cool_base.specs.Words.{is_token};

    ghost Value = { List ℕ };

    ghost coded = { coded_list coded_ℕ };

    ghost view = { λ a. string_bytes a.text };

    ghost invariant = { λ a. IsTrue (is_token (string_bytes a.text)) };
}

impl Token {
    /// The token that the text is; `Ok(None)` exactly where it is none, judged before memory is taken.
    pub fn read(alloc: Global, text: &str) -> Result<Option<Token>, Memory>
        ensures read { IfOk result (λ read. read ≡ token text.now) }
        ensures none { (result ≡ Ok None) ↔ (token text.now ≡ None) }
    {
        if !is_token(text) {
            return Ok(None);
        }
        let text = String::from_str(alloc, text)?;
        Ok(Some(Token { text }))
    }

    /// The text that was read.
    pub fn text(&self) -> &str
        ensures value { result.now ≡ self.now }
        ensures form { IsTrue (is_token self.now) }
    {
        self.text.as_str()
    }

    /// An equal token.
    pub fn copy(&self, alloc: Global) -> Result<Token, Memory>
        ensures { IfOk result (λ copy. copy ≡ self.now) }
    {
        let text = String::from_str(alloc, self.text.as_str())?;
        Ok(Token { text })
    }
}

fn is_token(text: &str) -> bool
    ensures { result ≡ is_token text.now }
{
    let length = text.len();
    1 <= length && length <= 2048 && are_token_bytes(text.as_bytes())
}

fn are_token_bytes(text: &[u8]) -> bool
    ensures { result ≡ list_all is_token_byte text.now }
{
    text.iter().all(|byte| matches!(*byte, 33..=126))
}
