ghost use Rattle.std.specs.Prelude.{◌≡◌, ◌↔◌, IsTrue};

use iom_base::{AccessKind, DeviceId, Sequence};

/// A cell of a test.
#[derive(Clone, Copy, PartialEq, Eq)]
pub struct Spot {
    /// The place of the column, from 0.
    pub column: usize,
    /// The place of the cell in the column, from 0.
    pub cell: usize,
}

/// An access that was made.
#[derive(Clone, Copy, PartialEq, Eq)]
pub struct Touch {
    pub device: DeviceId,
    pub kind: AccessKind,
    pub frame: u64,
}

/// Accesses that a test asks for.
#[derive(Clone, Copy, PartialEq, Eq)]
pub struct Reach {
    pub device: DeviceId,
    pub frame: u64,
    /// Those of this kind alone.
    pub kind: Option<AccessKind>,
    /// Those alone that are made after this cell was run.
    pub after: Option<Spot>,
}

/// What a test looks at in a schedule.
#[derive(Clone, Copy, PartialEq, Eq)]
pub enum Observable {
    /// What the cell was answered.
    Answer(Spot),
    /// That such an access was made.
    Touched(Reach),
    /// That both cells were run, in this order.
    Before { first: Spot, then: Spot },
    /// That the column didn't come to its end.
    Stuck { column: usize },
    /// That some answer said that a claim is wrong.
    Wrong,
    /// That some answer said that an access was made which no claim allows.
    Violated,
    /// So many bytes of memory at the end.
    Memory { address: u64, length: usize },
}

/// What was seen of it.
#[derive(Drop)]
pub enum Value {
    /// An answer, or bytes of memory in hexadecimal digits.
    Text(Sequence<u8>),
    Truth(bool),
}

impl Value {
    /// Whether the same was seen.
    pub fn is_same(&self, other: &Value) -> bool
        ensures { IsTrue result ↔ (self.now ≡ other.now) }
    {
        match (self, other) {
            (Value::Text(text), Value::Text(other)) => text.as_slice() == other.as_slice(),
            (Value::Truth(truth), Value::Truth(other)) => *truth == *other,
            (Value::Text(_), Value::Truth(_)) | (Value::Truth(_), Value::Text(_)) => false,
        }
    }
}
