// What the bytes of a body say.
ghost use Rattle.std.specs.Prelude.{◌≡◌, ℕ, ◌<◌, ◌≤◌, Bool, false, List, ◌++◌, length, take, nat_le, if◌then◌else◌, Option, Some, None, Ok, Err, Result};
ghost use Rattle.outside.specs.declared.faults.WireFault.{WireFault};
ghost use Rattle.wire_body.specs.declared.states.BodyState.{BodyState};
ghost use Rattle.wire_body.specs.Bodies.{body_says, body_of, open_body};
ghost use Rattle.wire_body.specs.declared.states.TheConstants.{BODY_LIMIT};
ghost use Rattle.http_laws.specs.Lengths.{said_of_length, said_of_open};

/// A body with a stated length is exactly the first so many bytes, and a body to the end of the wire
/// is all of them, where they are at most `BODY_LIMIT`.
pub fn bodies_have_their_length()
    ensures by_length { (len : ℕ) (bytes : List ℕ) (ended : Bool) → body_says (body_of len) bytes ended ≡ said_of_length len bytes ended }
    ensures to_the_end { (bytes : List ℕ) (ended : Bool) → body_says open_body bytes ended ≡ said_of_open bytes ended }
{}

/// What the bytes of a body say stays whatever follows, whether the wire ends there or not.
pub fn bodies_stay()
    ensures { (start : BodyState) (bytes more : List ℕ) (said : Result (List ℕ) WireFault) (ended : Bool) → body_says start bytes false ≡ Some said → body_says start (bytes ++ more) ended ≡ Some said }
{}
