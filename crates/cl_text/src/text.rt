ghost use Rattle.std.specs.Prelude.{◌≡◌, ◌++◌, OnOk};
ghost use Rattle.cl_value.specs.Text.{value_text, tuple_text};
ghost use Rattle.cl_text.specs.Stages.{Grown};
ghost use Rattle.cl_text.specs.Tables.{texts_of};

use crate::buffer::OutputBuffer;
use crate::growing::Growing;
use cl_ground::{Items, NoMemory};
use cl_outside::Failed;
use cl_value::Value;
use itoa::Buffer;
use std::alloc::Global;
use std::marker::Model;
use std::mem;

// Writes a value to a sink in memory.
fn write_value(
    alloc: Global,
    sink: &mut Growing,
    texts: &[&[u8]],
    value: &Value,
) -> Result<(), NoMemory>
    ensures { OnOk result (sink.new.bytes ≡ sink.old.bytes ++ value_text (texts_of texts.now) value.now) }
{
    let mut buffer = OutputBuffer::without_room(alloc);
    buffer.put_value(sink, texts, value);
    match buffer.finish(sink) {
        Ok(()) => Ok(()),
        Err(Failed) => Err(NoMemory),
    }
}

// Writes a tuple to a sink in memory.
fn write_tuple(
    alloc: Global,
    sink: &mut Growing,
    texts: &[&[u8]],
    values: &[Value],
) -> Result<(), NoMemory>
    ensures { OnOk result (sink.new.bytes ≡ sink.old.bytes ++ tuple_text (texts_of texts.now) values.now) }
{
    let mut buffer = OutputBuffer::without_room(alloc);
    buffer.put_tuple(sink, texts, values);
    match buffer.finish(sink) {
        Ok(()) => Ok(()),
        Err(Failed) => Err(NoMemory),
    }
}

/// Bytes that are put together before they are written. Contracts see them in order.
#[derive(Drop)]
pub struct Text {
    bytes: Items<u8>,
}

impl Model for Text {
    ghost use Rattle.std.specs.Prelude.{List, ℕ};

    ghost Value = { List ℕ };

    ghost view = { λ t. t.bytes.items };
}

impl Text {
    ghost use Rattle.std.specs.Prelude.{◌≡◌, [], ◌++◌, OnOk};
    ghost use Rattle.std.specs.Fmt.{decimal, signed_decimal};
    ghost use Rattle.cl_value.specs.Text.{value_text, tuple_text};
    ghost use Rattle.cl_text.specs.Tables.{texts_of};

    /// No bytes.
    pub fn new(alloc: Global) -> Text
        ensures { result ≡ [] }
    {
        Text {
            bytes: Items::new(alloc),
        }
    }

    /// These bytes.
    pub fn of(bytes: Items<u8>) -> Text
        ensures { result ≡ bytes.items }
    {
        Text { bytes }
    }

    /// Puts bytes at the end. `NoMemory` comes where the allocator refused their room.
    pub fn add(&mut self, bytes: &[u8]) -> Result<(), NoMemory>
        ensures { OnOk result (self.new ≡ self.old ++ bytes.now) }
    {
        self.bytes.reserve(bytes.len())?;
        self.bytes.push_all(bytes);
        Ok(())
    }

    /// Puts a number at the end, decimal without leading zeros. `NoMemory` comes where the allocator refused its room.
    pub fn add_number(&mut self, number: u64) -> Result<(), NoMemory>
        ensures { OnOk result (self.new ≡ self.old ++ decimal number) }
    {
        let mut digits = Buffer::new();
        self.add(digits.format(number).as_bytes())
    }

    /// Puts a number at the end, decimal without leading zeros, with `-` where it is negative. `NoMemory` comes where
    /// the allocator refused its room.
    pub fn add_signed(&mut self, number: i64) -> Result<(), NoMemory>
        ensures { OnOk result (self.new ≡ self.old ++ signed_decimal number) }
    {
        let mut digits = Buffer::new();
        self.add(digits.format(number).as_bytes())
    }

    /// Puts a value at the end, as it is printed (`OutputBuffer::put_value`). `NoMemory` comes where the allocator
    /// refused its room.
    pub fn add_value(
        &mut self,
        alloc: Global,
        texts: &[&[u8]],
        value: &Value,
    ) -> Result<(), NoMemory>
        ensures { OnOk result (self.new ≡ self.old ++ value_text (texts_of texts.now) value.now) }
    {
        let mut sink = Growing::of(mem::replace(&mut self.bytes, Items::new(alloc)));
        let end = write_value(alloc, &mut sink, texts, value);
        self.bytes = sink.into_bytes();
        end
    }

    /// Puts a tuple at the end, as it is printed (`OutputBuffer::put_tuple`). `NoMemory` comes where the allocator
    /// refused its room.
    pub fn add_tuple(
        &mut self,
        alloc: Global,
        texts: &[&[u8]],
        values: &[Value],
    ) -> Result<(), NoMemory>
        ensures { OnOk result (self.new ≡ self.old ++ tuple_text (texts_of texts.now) values.now) }
    {
        let mut sink = Growing::of(mem::replace(&mut self.bytes, Items::new(alloc)));
        let end = write_tuple(alloc, &mut sink, texts, values);
        self.bytes = sink.into_bytes();
        end
    }

    /// The bytes again, with their room. It takes no memory.
    pub fn into_items(self) -> Items<u8>
        ensures { result.items ≡ self }
    {
        let Text { bytes } = self;
        bytes
    }

    /// The bytes in order.
    pub fn as_bytes(&self) -> &[u8]
        ensures { result.now ≡ self.now }
    {
        self.bytes.as_slice()
    }
}
