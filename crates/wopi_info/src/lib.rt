//! CheckFileInfo's JSON: what a host tells of a file and a token, written and read.
#![tactic(auto)]

ghost use Rattle.std.specs.Prelude.{◌≡◌, Some, None, codes, IfOk, string_bytes, IsUtf8, ◌&&◌, is_some, option_and_then};
ghost use Rattle.std.specs.Option.{option_copied};
ghost use Rattle.serde_json.specs.Read.{read};
ghost use Rattle.serde_json.specs.View.{view};
ghost use Rattle.serde_json.specs.Find.{get};
ghost use Rattle.wopi_info.specs.Infos.{info_data, info_text, text_of, size_in, right_in, has_names, joined, admitted};

use cool_base::TextOf;
use outside::Admission;
use serde_json::error::Category;
use serde_json::{Value, json};
use std::alloc::{AllocError, Global};
use thiserror::Error;

/// Why a body tells nothing.
#[derive(Clone, Copy, Debug, PartialEq, Eq, Error)]
pub enum InfoFault {
    #[error("the body is not the JSON object that was asked for")]
    BadJson,
    #[error("out of memory")]
    Memory,
}

fn info_value(
    alloc: Global,
    file: &str,
    size: u64,
    can_write: bool,
    user: &str,
    version: &str,
) -> Result<Value, AllocError>
    ensures { IfOk result (λ v. view v ≡ info_data file.now size can_write user.now version.now) }
{
    json!(in alloc; {"BaseFileName": file, "OwnerId": "owner", "Size": size, "UserCanWrite": can_write, "UserId": user, "Version": version})
}

/// The JSON that a host writes of a file of this size for this user.
#[tactic(auto, unfolding(crate::specs::Infos::info_text))]
pub fn write_info(
    alloc: Global,
    file: &str,
    size: u64,
    can_write: bool,
    user: &str,
    version: &str,
) -> Result<String, AllocError>
    ensures { IfOk result (λ s. string_bytes s ≡ info_text file.now size can_write user.now version.now) }
{
    let value = info_value(alloc, file, size, can_write, user, version)?;
    value.to_string(alloc)
}

fn text<'a>(value: &'a Value, name: &str) -> Option<&'a str>
    ensures { option_copied result ≡ text_of name.now (view value.now) }
{
    value.get(name).and_then(Value::as_str)
}

fn size(value: &Value) -> Option<u64>
    ensures { result ≡ size_in (view value.now) }
{
    let number = value.get("Size").and_then(Value::as_u64)?;
    if number < 1 << 63 { Some(number) } else { None }
}

fn right(value: &Value) -> Option<bool>
    ensures { result ≡ right_in (get (codes "UserCanWrite") (view value.now)) }
{
    match value.get("UserCanWrite") {
        None => Some(false),
        Some(value) => value.as_bool(),
    }
}

fn named(value: &Value) -> bool
    ensures { result ≡ has_names (view value.now) }
{
    text(value, "BaseFileName").is_some()
        && (text(value, "OwnerId").is_some() && text(value, "Version").is_some())
}

fn join(
    alloc: Global,
    user: Option<&str>,
    size: Option<u64>,
    right: Option<bool>,
) -> Result<Option<Admission>, AllocError>
    ensures { IfOk result (λ a. a ≡ joined (option_copied user.entry) size right) }
{
    match (user, size, right) {
        (Some(user), Some(size), Some(can_write)) => {
            let user = TextOf::of(String::from_str(alloc, user)?);
            Ok(Some(Admission {
                can_write,
                user,
                size,
            }))
        }
        _ => Ok(None),
    }
}

#[tactic(auto, unfolding(crate::specs::Infos::admitted))]
fn admission(alloc: Global, value: &Value) -> Result<Option<Admission>, AllocError>
    ensures { IfOk result (λ a. a ≡ admitted (view value.now)) }
{
    if named(value) {
        join(alloc, text(value, "UserId"), size(value), right(value))
    } else {
        Ok(None)
    }
}

/// What the body tells of the token: BadJson exactly where it is no text, no JSON, or lacks a member.
pub fn read_info(alloc: Global, body: &[u8]) -> Result<Admission, InfoFault>
    ensures ok { IfOk result (λ a. IsUtf8 body.now × (option_and_then admitted (read body.now) ≡ Some a)) }
    ensures bad { result ≡ Err InfoFault.BadJson → IsUtf8 body.now → option_and_then admitted (read body.now) ≡ None }
{
    let value = match Value::from_slice(alloc, body) {
        Ok(value) => value,
        Err(error) => {
            if error.classify() == Category::Memory {
                return Err(InfoFault::Memory);
            }
            return Err(InfoFault::BadJson);
        }
    };
    match admission(alloc, &value) {
        Ok(Some(admission)) => Ok(admission),
        Ok(None) => Err(InfoFault::BadJson),
        Err(_) => Err(InfoFault::Memory),
    }
}
