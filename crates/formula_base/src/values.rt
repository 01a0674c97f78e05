//! What a cell can have as its value.
ghost use Rattle.std.specs.Prelude.{◌≡◌, IfOk, string_bytes};

use cool_base::Memory;
use std::alloc::Global;
use std::marker::Model;

/// A text that is a value; contracts see it as its bytes.
#[derive(Debug, Drop)]
pub struct Name {
    text: String,
}

impl Model for Name {
    ghost use Rattle.std.specs.Prelude.{List, ℕ, string_bytes};
    ghost use Rattle.std.specs.Coded.{coded_list, coded_ℕ};

    ghost Value = { List ℕ };

    ghost coded = { coded_list coded_ℕ };

    ghost view = { λ name. string_bytes name.text };
}

impl Name {
    /// This text. It takes no memory.
    pub fn of(text: String) -> Name
        ensures { result ≡ string_bytes text }
    {
        Name { text }
    }

    /// The text, lent.
    pub fn get(&self) -> &str
        ensures { result.now ≡ self.now }
    {
        self.text.as_str()
    }

    /// An equal text.
    pub fn copy(&self, alloc: Global) -> Result<Name, Memory>
        ensures { IfOk result (λ name. name ≡ self.now) }
    {
        let text = String::from_str(alloc, self.text.as_str())?;
        Ok(Name { text })
    }
}

/// An error that a cell can have as its value.
#[derive(Clone, Copy, Debug, PartialEq, Eq)]
pub enum CellFault {
    /// `#NUM!`: a number beyond 64 signed bits.
    Num,
    /// `#DIV/0!`: a zero divisor.
    Div0,
    /// `#VALUE!`: a text where a number is wanted.
    Value,
    /// `#CIRC!`: the cell leads back to itself, or to such cells.
    Circ,
}

/// The value of a cell or of an expression.
#[derive(Debug, Drop)]
pub enum Value {
    Empty,
    Number(i64),
    Words(Name),
    Fault(CellFault),
}

impl Value {
    /// An equal value.
    pub fn copy(&self, alloc: Global) -> Result<Value, Memory>
        ensures { IfOk result (λ value. value ≡ self.now) }
    {
        match self {
            Value::Empty => Ok(Value::Empty),
            Value::Number(number) => Ok(Value::Number(*number)),
            Value::Words(name) => Ok(Value::Words(name.copy(alloc)?)),
            Value::Fault(fault) => Ok(Value::Fault(*fault)),
        }
    }
}
