//! What is written is read again by the calls themselves: where a wire gives the bytes that
//! `write_request` or `write_response` sent, whatever follows them, what `read_request` and
//! `read_response` answer is the message that was written. Each law stands on a function that does
//! nothing.
#![tactic(auto)]

ghost use Rattle.std.specs.Prelude.{◌≡◌, ◌≤◌, ◌++◌, ℕ, List, Bool, Some, Result, length};
ghost use Rattle.outside.specs.Wires.{Talk};
ghost use Rattle.http_message.specs.declared.Request.{Request};
ghost use Rattle.http_message.specs.declared.Response.{Response};
ghost use Rattle.wire_body.specs.declared.faults.HttpFault.{HttpFault};
ghost use Rattle.http_wire.specs.Messages.{IsAnswer, ReadsMessage};
ghost use Rattle.http_head.specs.declared.TheConstants.{HEAD_LIMIT};
ghost use Rattle.http_wire.specs.Kinds.{requests, responses};
ghost use Rattle.http_write.specs.Texts.{request_head, request_bytes};
ghost use Rattle.http_write.specs.Texts.{response_head, response_bytes};
ghost use Rattle.http_write.specs.Again.{IsReadableRequest, IsReadableResponse};
ghost use Rattle.http_again.specs.Given.{IsGiven, GivesFront, IsItself};

/// A request within the limits, written to a wire with anything after it, is what `read_request`
/// answers, unless memory ran out or a read failed: of the bytes that the call received, and of the
/// talks of its wire as its contract names them.
pub fn requests_are_answered()
    ensures bytes { (host : List ℕ) (r : Request) (after bytes : List ℕ)
        (ended : Bool) (result : Result Request HttpFault)
        → IsReadableRequest host r → length (request_head host r) ≤ HEAD_LIMIT
        → IsGiven (request_bytes host r ++ after) bytes ended
        → IsAnswer requests bytes ended result → IsItself r result }
    ensures talks { (host : List ℕ) (r : Request) (after : List ℕ)
        (old new : Talk) (result : Result Request HttpFault)
        → IsReadableRequest host r → length (request_head host r) ≤ HEAD_LIMIT
        → GivesFront (request_bytes host r ++ after) old new
        → ReadsMessage requests (Some old) (Some new) result → IsItself r result }
{}

/// The same of a response.
pub fn responses_are_answered()
    ensures bytes { (r : Response) (after bytes : List ℕ)
        (ended : Bool) (result : Result Response HttpFault)
        → IsReadableResponse r → length (response_head r) ≤ HEAD_LIMIT
        → IsGiven (response_bytes r ++ after) bytes ended
        → IsAnswer responses bytes ended result → IsItself r result }
    ensures talks { (r : Response) (after : List ℕ)
        (old new : Talk) (result : Result Response HttpFault)
        → IsReadableResponse r → length (response_head r) ≤ HEAD_LIMIT
        → GivesFront (response_bytes r ++ after) old new
        → ReadsMessage responses (Some old) (Some new) result → IsItself r result }
{}
