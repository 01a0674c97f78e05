//! What is written is read again.
ghost use Rattle.std.specs.Prelude.{◌≡◌, ℕ, List, ◌++◌};
ghost use Rattle.http_message.specs.declared.Request.{Request};
ghost use Rattle.http_message.specs.declared.Response.{Response};
ghost use Rattle.http_head.specs.Requests.{ReadsRequestHead};
ghost use Rattle.http_head.specs.Responses.{ReadsResponseHead};
ghost use Rattle.http_write.specs.Texts.{request_bytes, response_bytes};
ghost use Rattle.http_write.specs.Again.{IsReadableRequest, request_parts, IsReadableResponse, response_parts};

/// The bytes of a request, whatever follows, are a whole head that says what the request says, and
/// then its body, of the length that the head tells.
pub fn requests_are_read_again()
    ensures { (host : List ℕ) (r : Request) (rest : List ℕ) → IsReadableRequest host r → ReadsRequestHead (request_bytes host r ++ rest) (request_parts r) (r.body ++ rest) }
{}

/// The same of a response.
pub fn responses_are_read_again()
    ensures { (r : Response) (rest : List ℕ) → IsReadableResponse r → ReadsResponseHead (response_bytes r ++ rest) (response_parts r) (r.body ++ rest) }
{}
