use cl_value::{Slot, Value};

/// The value of a field by which tuples are kept apart: a number or a character, with its type. (This
/// project.)
#[derive(Clone, Copy, Debug, PartialEq, Eq, Hash, Drop)]
pub enum Key {
    /// An `int`.
    Int(i32),
    /// A `long`.
    Long(i64),
    /// A `char`.
    Char(u8),
}

impl Key {
    ghost use Rattle.std.specs.Prelude.{◌≡◌};
    ghost use Rattle.cl_keyed.specs.Keys.{key_of, key_at, asked_at};

    /// The key that a value is. A text is none.
    pub fn of(value: Value) -> Option<Key>
        ensures { result ≡ key_of value }
    {
        match value {
            Value::Int(number) => Some(Key::Int(number)),
            Value::Long(number) => Some(Key::Long(number)),
            Value::Char(code) => Some(Key::Char(code)),
            Value::Text(_) => None,
        }
    }

    /// The key at a field, where there is one.
    pub fn at(fields: &[Value], field: usize) -> Option<Key>
        ensures { result ≡ key_at field fields.now }
    {
        Key::of(*fields.get(field)?)
    }

    /// The key for which slots ask at a field: that of an actual, where there is one.
    pub fn asked(slots: &[Slot], field: usize) -> Option<Key>
        ensures { result ≡ asked_at field slots.now }
    {
        match *slots.get(field)? {
            Slot::Actual(value) => Key::of(value),
            Slot::Formal(_) => None,
        }
    }
}
