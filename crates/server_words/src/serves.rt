// The command `serve`, and what its words say.
ghost use Rattle.std.specs.Prelude.{◌≡◌, List, ℕ, Option, Some, None, Ok, Err, IfOk, map};
ghost use Rattle.std.specs.Prelude.{string_bytes, option_map, false};
ghost use Rattle.std.specs.Option.{option_copied};
ghost use Rattle.std.specs.List.{list_all};
ghost use Rattle.cool_base.specs.Words.{is_token_byte};
ghost use Rattle.clap.specs.Words.{FailsBy, app_of, rule_of, fault_of, found_of, rows_of};
ghost use Rattle.clap.specs.Words.{matches_of};
ghost use Rattle.server_words.specs.Hosts.{needed, optional};
ghost use Rattle.server_words.specs.Serves.{serve_app, is_host_name, address_of, address_said};
ghost use Rattle.server_words.specs.Serves.{polls_of, workers_of, kit_of, serve_values_say};
ghost use Rattle.server_words.specs.Serves.{serve_said_of, serve_said};

use crate::commands::{WordsFault, fault_of, read_count, read_port, read_word_number};
use clap::{Arg, ArgAction, ArgMatches, Command, Error};
use cool_base::read_number;
use std::alloc::{AllocError, Global};

/// The kit of which the documents are.
#[derive(Clone, Copy, Debug, PartialEq, Eq)]
pub enum KitName {
    Sheet,
    Patch,
}

/// The address of a WOPI host.
#[derive(Clone, Copy, Debug, PartialEq, Eq)]
pub struct HostAddress<'a> {
    /// The whole word.
    pub text: &'a str,
    /// What stands before its last colon.
    pub host: &'a str,
    /// The port behind it.
    pub port: u16,
}

/// What the words of `serve` say.
#[derive(Clone, Copy, Debug, PartialEq, Eq)]
pub struct ServeWords<'a> {
    /// The port on which the first poll listens.
    pub port: u16,
    /// The WOPI host that has the files.
    pub wopi: HostAddress<'a>,
    /// How many polls there are, 1 to 8.
    pub polls: u64,
    /// How many workers there are, 0 to 16.
    pub workers: u64,
    /// How many links are accepted; 0 is without end.
    pub sessions: u64,
    /// The kit.
    pub kit: KitName,
}

// An option with a value, which must be there.
fn needed_arg<'a>(alloc: Global, name: &'a str) -> Arg<'a>
    ensures rule { rule_of result ≡ needed name.entry.now }
    ensures local { result.global ≡ false }
{
    Arg::new(alloc, name)
        .long(name)
        .required(true)
        .action(ArgAction::Set)
}

// An option with a value, which may be left out.
fn optional_arg<'a>(alloc: Global, name: &'a str) -> Arg<'a>
    ensures rule { rule_of result ≡ optional name.entry.now }
    ensures local { result.global ≡ false }
{
    Arg::new(alloc, name).long(name).action(ArgAction::Set)
}

// The command.
fn serve_command<'a>(alloc: Global) -> Result<Command<'a>, AllocError>
    ensures { IfOk result (λ c. app_of c ≡ serve_app) }
{
    let port = needed_arg(alloc, "port");
    let wopi = needed_arg(alloc, "wopi");
    let polls = optional_arg(alloc, "polls");
    let workers = optional_arg(alloc, "workers");
    let sessions = optional_arg(alloc, "sessions");
    let kit = optional_arg(alloc, "kit");
    Command::new(alloc, "serve")
        .arg(port)?
        .arg(wopi)?
        .arg(polls)?
        .arg(workers)?
        .arg(sessions)?
        .arg(kit)
}

// What the parser makes of the words.
pub(crate) fn serve_matches<'a>(alloc: Global, words: &'a [String]) -> Result<ArgMatches<'a>, Error>
    ensures exact { FailsBy (fault_of serve_app (map string_bytes words.now)) result }
    ensures found { IfOk result (λ m. rows_of (found_of m)
        ≡ matches_of serve_app (map string_bytes words.now)) }
{
    serve_command(alloc)?.try_get_matches_from(words)
}

fn are_visible(name: &[u8]) -> bool
    ensures { result ≡ list_all is_token_byte name.now }
{
    name.iter().all(|byte| matches!(*byte, 33..=126))
}

fn is_host_name(name: &str) -> bool
    ensures { result ≡ is_host_name name.now }
{
    name.len() > 0 && are_visible(name.as_bytes())
}

// The address of a host, cut at its last colon.
fn read_address(text: &str) -> Option<HostAddress<'_>>
    ensures { option_map address_said result ≡ address_of text.now }
{
    let Some((host, port)) = text.rsplit_once(':') else {
        return None;
    };
    if !is_host_name(host) {
        return None;
    }
    match read_number(port.as_bytes(), 5, 65_535) {
        Some(port) => Some(HostAddress {
            text,
            host,
            port: port as u16,
        }),
        None => None,
    }
}

fn read_polls(text: Option<&str>) -> Option<u64>
    ensures { result ≡ polls_of (option_copied text.entry) }
{
    let Some(text) = text else {
        return Some(2);
    };
    match read_word_number(text, 8) {
        Some(polls) if polls > 0 => Some(polls),
        _ => None,
    }
}

fn read_workers(text: Option<&str>) -> Option<u64>
    ensures { result ≡ workers_of (option_copied text.entry) }
{
    match text {
        Some(text) => read_word_number(text, 16),
        None => Some(2),
    }
}

fn read_kit(text: Option<&str>) -> Option<KitName>
    ensures { result ≡ kit_of (option_copied text.entry) }
{
    let Some(text) = text else {
        return Some(KitName::Sheet);
    };
    if text == "sheet" {
        Some(KitName::Sheet)
    } else if text == "patch" {
        Some(KitName::Patch)
    } else {
        None
    }
}

fn read_values<'a>(
    port: Option<&str>,
    wopi: Option<&'a str>,
    polls: Option<&str>,
    workers: Option<&str>,
    sessions: Option<&str>,
    kit: Option<&str>,
) -> Option<ServeWords<'a>>
    ensures { option_map serve_said_of result
        ≡ serve_values_say (option_copied port.entry) (option_copied wopi.entry)
        (option_copied polls.entry) (option_copied workers.entry) (option_copied sessions.entry)
        (option_copied kit.entry) }
{
    let port = port?;
    let port = read_port(port)?;
    let wopi = wopi?;
    let wopi = read_address(wopi)?;
    let polls = read_polls(polls)?;
    let workers = read_workers(workers)?;
    let sessions = read_count(sessions)?;
    let kit = read_kit(kit)?;
    Some(ServeWords {
        port,
        wopi,
        polls,
        workers,
        sessions,
        kit,
    })
}

/// What the words say, of which the first is the command's name. They are refused exactly where the
/// parser refuses them for another cause than memory, or a number is out of bounds, or the kit is no
/// kit's name.
pub fn serve_words<'a>(alloc: Global, words: &'a [String]) -> Result<ServeWords<'a>, WordsFault>
    ensures said { IfOk result (λ w. serve_said (map string_bytes words.now)
        ≡ Some (serve_said_of w)) }
    ensures refused { result ≡ Err WordsFault.Refused
        → serve_said (map string_bytes words.now) ≡ None }
{
    let matches = match serve_matches(alloc, words) {
        Ok(matches) => matches,
        Err(error) => return Err(fault_of(&error)),
    };
    let port = matches.get_str("port");
    let wopi = matches.get_str("wopi");
    let polls = matches.get_str("polls");
    let workers = matches.get_str("workers");
    let sessions = matches.get_str("sessions");
    let kit = matches.get_str("kit");
    match read_values(port, wopi, polls, workers, sessions, kit) {
        Some(said) => Ok(said),
        None => Err(WordsFault::Refused),
    }
}
