// The command `host`, and what its words say.
ghost use Rattle.std.specs.Prelude.{◌≡◌, ◌≢◌, ◌≤◌, List, ℕ, [], Option, Some, None, Ok, Err, IfOk, IfErr, OnErr, map, string_bytes, option_map};
ghost use Rattle.clap.specs.Words.{App, FailsBy, app_of, fault_of, found_of, rows_of, matches_of, first_value, kind_of};
ghost use Rattle.std.specs.Option.{option_copied};
ghost use Rattle.server_words.specs.Hosts.{host_app, word_number, port_of, count_of, values_say, said_of, host_said};

use clap::error::ErrorKind;
use clap::{Arg, ArgAction, ArgMatches, Command, Error};
use cool_base::{Memory, read_number};
use std::alloc::{AllocError, Global};

/// What the words of `host` say.
#[derive(Clone, Copy, Debug, PartialEq, Eq)]
pub struct HostWords<'a> {
    /// The port on which the host listens.
    pub port: u16,
    /// The folder with the files.
    pub folder: &'a str,
    /// How many wires are served; 0 is without end.
    pub requests: u64,
}

/// Why words say nothing.
#[derive(Clone, Copy, Debug, PartialEq, Eq)]
pub enum WordsFault {
    /// The parser refuses them, or a number is out of bounds.
    Refused,
    Memory,
}

/// The command.
pub(crate) fn host_command<'a>(alloc: Global) -> Result<Command<'a>, AllocError>
    ensures { IfOk result (λ c. app_of c ≡ host_app) }
{
    let port = Arg::new(alloc, "port")
        .long("port")
        .required(true)
        .action(ArgAction::Set);
    let folder = Arg::new(alloc, "folder")
        .long("folder")
        .required(true)
        .action(ArgAction::Set);
    let requests = Arg::new(alloc, "requests")
        .long("requests")
        .action(ArgAction::Set);
    Command::new(alloc, "host")
        .arg(port)?
        .arg(folder)?
        .arg(requests)
}

// What the parser makes of the words.
pub(crate) fn host_matches<'a>(alloc: Global, words: &'a [String]) -> Result<ArgMatches<'a>, Error>
    ensures exact { FailsBy (fault_of host_app (map string_bytes words.now)) result }
    ensures found { IfOk result (λ m. rows_of (found_of m) ≡ matches_of host_app (map string_bytes words.now)) }
{
    host_command(alloc)?.try_get_matches_from(words)
}

// The number of decimal digits without a sign or a leading zero, where it is at most `limit`.
pub(crate) fn read_word_number(text: &str, limit: u64) -> Option<u64>
    ensures { result ≡ word_number limit text.now }
{
    let digits = text.as_bytes();
    if digits.len() > 1 && digits[0] == b'0' {
        return None;
    }
    read_number(digits, 20, limit)
}

pub(crate) fn read_port(text: &str) -> Option<u16>
    ensures { result ≡ port_of text.now }
{
    match read_word_number(text, 65_535) {
        Some(port) => Some(port as u16),
        None => None,
    }
}

pub(crate) fn read_count(text: Option<&str>) -> Option<u64>
    ensures { result ≡ count_of (option_copied text.entry) }
{
    match text {
        Some(text) => read_word_number(text, 4_294_967_295),
        None => Some(0),
    }
}

fn read_values<'a>(
    port: Option<&str>,
    folder: Option<&'a str>,
    requests: Option<&str>,
) -> Option<HostWords<'a>>
    ensures { option_map said_of result ≡ values_say (option_copied port.entry) (option_copied folder.entry) (option_copied requests.entry) }
{
    let port = port?;
    let folder = folder?;
    let port = read_port(port)?;
    let requests = read_count(requests)?;
    Some(HostWords {
        port,
        folder,
        requests,
    })
}

// Why the parser gave nothing.
pub(crate) fn fault_of(error: &Error) -> WordsFault
    ensures memory { result ≡ WordsFault.Memory → kind_of error.now ≡ ErrorKind.OutOfMemory }
    ensures refused { result ≡ WordsFault.Refused → kind_of error.now ≢ ErrorKind.OutOfMemory }
{
    if error.kind() == ErrorKind::OutOfMemory {
        WordsFault::Memory
    } else {
        WordsFault::Refused
    }
}

/// What the words say, of which the first is the command's name. They are refused exactly where the
/// parser refuses them for another cause than memory, or a number is out of bounds.
pub fn host_words<'a>(alloc: Global, words: &'a [String]) -> Result<HostWords<'a>, WordsFault>
    ensures said { IfOk result (λ w. host_said (map string_bytes words.now) ≡ Some (said_of w)) }
    ensures refused { result ≡ Err WordsFault.Refused → host_said (map string_bytes words.now) ≡ None }
{
    let matches = match host_matches(alloc, words) {
        Ok(matches) => matches,
        Err(error) => return Err(fault_of(&error)),
    };
    let port = matches.get_str("port");
    let folder = matches.get_str("folder");
    match read_values(port, folder, matches.get_str("requests")) {
        Some(said) => Ok(said),
        None => Err(WordsFault::Refused),
    }
}
