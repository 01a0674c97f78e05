//! Laws of the message grammar, over all messages: each is a function with an empty body whose
//! contract is the law.
#![tactic(auto)]

ghost use Rattle.std.specs.Prelude.{◌≡◌, ℕ, List, Ok};
ghost use Rattle.cool_message.specs.Reading.{reading};
ghost use Rattle.cool_message.specs.Writing.{written};
ghost use Rattle.cool_message.specs.declared.message.ClientMessage.{ClientMessage};
ghost use Rattle.message_laws.specs.Bounds.{IsMessage};

/// What is written of a message that some text says is read again as that message.
pub fn what_is_written_is_read()
    ensures { (message : ClientMessage) (text : List ℕ) → reading text ≡ Ok message → reading (written message) ≡ Ok message }
{}

/// Some text says a message exactly where its fields are within the grammar's bounds, and then what is
/// written of it is such a text.
pub fn messages_of_texts()
    ensures bounds { (message : ClientMessage) (text : List ℕ) → reading text ≡ Ok message → IsMessage message }
    ensures text { (message : ClientMessage) → IsMessage message → reading (written message) ≡ Ok message }
{}
