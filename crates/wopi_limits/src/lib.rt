//! What the client asks is within what a host reads: each of its requests is one that is read
//! again, and its head has at most `HEAD_LIMIT` bytes, where the host's name has at most
//! `NAME_LIMIT`. So `read_request` answers it as it was written. The law stands on a function that
//! does nothing.
#![tactic(auto)]

ghost use Rattle.std.specs.Prelude.{◌≡◌, ◌≤◌, ◌++◌, ℕ, List, true, Some, Result, length};
ghost use Rattle.outside.specs.Wires.{Talk};
ghost use Rattle.http_message.specs.declared.Request.{Request};
ghost use Rattle.wire_body.specs.declared.faults.HttpFault.{HttpFault};
ghost use Rattle.http_wire.specs.Messages.{ReadsMessage};
ghost use Rattle.http_head.specs.declared.TheConstants.{HEAD_LIMIT};
ghost use Rattle.http_wire.specs.Kinds.{requests};
ghost use Rattle.http_write.specs.Texts.{request_head, request_bytes};
ghost use Rattle.http_write.specs.Again.{IsReadableRequest, is_word};
ghost use Rattle.http_again.specs.Given.{GivesFront, IsItself};
ghost use Rattle.wopi_client.specs.declared.asks.Ask.{Ask};
ghost use Rattle.wopi_client.specs.Asks.{request_for};
ghost use Rattle.wopi_limits.specs.Sound.{IsSound};
ghost use Rattle.wopi_limits.specs.declared.TheConstants.{NAME_LIMIT};

/// How many bytes a host's name has at most, so that each head that names it is within the limit.
pub const NAME_LIMIT: usize = 8_192;

/// Every ask by a file id and a token, of a content of at most `BODY_LIMIT` bytes, to a host whose
/// name has 1 to `NAME_LIMIT` bytes from 33 to 126: its request is one that is read again, its head is
/// within the reader's limit, and a wire that gives its bytes, with anything after them, lets
/// `read_request` answer it, unless memory ran out or a read failed.
pub fn client_requests_are_within()
    ensures read_again { (host : List ℕ) (ask : Ask) → is_word host ≡ true → IsSound ask
        → IsReadableRequest host (request_for ask) }
    ensures head { (host : List ℕ) (ask : Ask) → length host ≤ NAME_LIMIT → IsSound ask
        → length (request_head host (request_for ask)) ≤ HEAD_LIMIT }
    ensures answered { (host : List ℕ) (ask : Ask) (after : List ℕ)
        (old new : Talk) (result : Result Request HttpFault)
        → is_word host ≡ true → length host ≤ NAME_LIMIT → IsSound ask
        → GivesFront (request_bytes host (request_for ask) ++ after) old new
        → ReadsMessage requests (Some old) (Some new) result → IsItself (request_for ask) result }
{}
