// What the bytes of a message say.
ghost use Rattle.std.specs.Prelude.{◌≡◌, ℕ, Bool, false, List, ◌++◌, Some, Result};
ghost use Rattle.outside.specs.declared.faults.WireFault.{WireFault};
ghost use Rattle.http_message.specs.declared.Request.{Request};
ghost use Rattle.http_message.specs.declared.Response.{Response};
ghost use Rattle.http_wire.specs.Messages.{Front, message_said};
ghost use Rattle.http_wire.specs.Kinds.{requests, responses};

/// All bytes received say one thing of a request, and what they say stays whatever follows, whether
/// the wire ends there or not.
pub fn requests_say_one_thing()
    ensures one { (bytes : List ℕ) (f g : Front requests bytes) (ended : Bool) → message_said f ended ≡ message_said g ended }
    ensures stays { (bytes more : List ℕ) (f : Front requests bytes) (g : Front requests (bytes ++ more)) (said : Result Request WireFault) (ended : Bool) → message_said f false ≡ Some said → message_said g ended ≡ Some said }
{}

/// The same of a response.
pub fn responses_say_one_thing()
    ensures one { (bytes : List ℕ) (f g : Front responses bytes) (ended : Bool) → message_said f ended ≡ message_said g ended }
    ensures stays { (bytes more : List ℕ) (f : Front responses bytes) (g : Front responses (bytes ++ more)) (said : Result Response WireFault) (ended : Bool) → message_said f false ≡ Some said → message_said g ended ≡ Some said }
{}
