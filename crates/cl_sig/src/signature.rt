use cl_ground::Items;
use cl_value::{FieldType, Value};

/// What the text of an operation tells of one of its fields. (This project.)
#[derive(Clone, Copy, Debug, PartialEq, Eq)]
pub enum Mark {
    /// A literal, of this value at each act.
    Constant(Value),
    /// Evaluated at each act, to a value of this type.
    Actual(FieldType),
    /// Receives a value of this type.
    Formal(FieldType),
}

/// Which tuple operation it is (Gelernter 1985; Carriero and Gelernter, "How to Write Parallel Programs").
#[derive(Clone, Copy, Debug, PartialEq, Eq)]
pub enum Kind {
    /// Adds a tuple.
    Out,
    /// Waits for a tuple and takes it.
    In,
    /// Waits for a tuple and leaves it.
    Rd,
    /// Takes a tuple, or misses.
    Inp,
    /// Reads a tuple, or misses.
    Rdp,
    /// Makes a process that will add a tuple.
    Eval,
}

impl Kind {
    ghost use Rattle.std.specs.Prelude.{◌≡◌};
    ghost use Rattle.cl_sig.specs.Signatures.{is_producer};

    /// Whether it adds tuples. Each other operation is a consumer, which takes or reads them.
    pub fn is_producer(self) -> bool
        ensures { result ≡ is_producer self }
    {
        matches!(self, Kind::Out | Kind::Eval)
    }
}

/// What the text tells of one operation, its site. (This project.)
#[derive(Drop)]
pub struct Signature {
    /// The operation.
    pub kind: Kind,
    /// Its fields in order, from 1 to 16.
    pub fields: Items<Mark>,
    /// The byte offset of the operation in the source, from 0.
    pub place: u32,
}

impl Mark {
    ghost use Rattle.std.specs.Prelude.{◌≡◌};
    ghost use Rattle.cl_sig.specs.Signatures.{mark_type, may_meet};

    /// The type of the field.
    pub fn type_of(self) -> FieldType
        ensures { result ≡ mark_type self }
    {
        match self {
            Mark::Constant(value) => value.type_of(),
            Mark::Actual(field_type) => field_type,
            Mark::Formal(field_type) => field_type,
        }
    }

    // Whether a field with this mark at a producer may equal one with that mark at a consumer.
    fn may_meet(self, consumer: Mark) -> bool
        ensures { result ≡ may_meet self consumer }
    {
        match (self, consumer) {
            (Mark::Constant(given), Mark::Constant(asked)) => given == asked,
            (given, asked) => given.type_of() == asked.type_of(),
        }
    }
}

ghost use Rattle.std.specs.Prelude.{◌≡◌, false, IsTrue};
ghost use Rattle.cl_sig.specs.Beside.{all_beside};
ghost use Rattle.cl_sig.specs.Signatures.{is_producer, may_meet, may_match};
ghost use Rattle.cl_sig.specs.Views.{plain_signature};

/// Whether a tuple of the producer may match a template of the consumer: as many fields, of the same types,
/// and no field that is a literal in both with different values. It takes no memory.
pub fn may_match(producer: &Signature, consumer: &Signature) -> bool
    requires producer { IsTrue (is_producer producer.now.kind) }
    requires consumer { is_producer consumer.now.kind ≡ false }
    ensures { result ≡ may_match (plain_signature producer.now) (plain_signature consumer.now) }
{
    all_meet(producer.fields.as_slice(), consumer.fields.as_slice())
}

fn all_meet(producer: &[Mark], consumer: &[Mark]) -> bool
    ensures { result ≡ all_beside may_meet producer.now consumer.now }
{
    match producer {
        [] => consumer.is_empty(),
        [given, producer @ ..] => match consumer {
            [] => false,
            [asked, consumer @ ..] => given.may_meet(*asked) && all_meet(producer, consumer),
        },
    }
}
