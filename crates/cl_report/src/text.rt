use cl_ground::{Items, NoMemory};
use itoa::Buffer;
use std::alloc::Global;
use std::marker::Model;

/// Bytes that are put together. Contracts see them in order.
#[derive(Drop)]
pub struct Text {
    bytes: Items<u8>,
}

impl Model for Text {
    ghost use Rattle.std.specs.Prelude.{List, ℕ};

    ghost Value = { List ℕ };

    ghost view = { λ t. t.bytes.items };
}

impl Text {
    ghost use Rattle.std.specs.Prelude.{◌≡◌, [], ◌++◌, OnOk};
    ghost use Rattle.std.specs.Fmt.{decimal, signed_decimal};

    /// No bytes.
    pub fn new(alloc: Global) -> Text
        ensures { result ≡ [] }
    {
        Text {
            bytes: Items::new(alloc),
        }
    }

    /// The bytes.
    pub fn into_bytes(self) -> Items<u8>
        ensures { result.items ≡ self }
    {
        let Text { bytes } = self;
        bytes
    }

    /// Puts bytes at the end.
    pub fn add(&mut self, bytes: &[u8]) -> Result<(), NoMemory>
        ensures { OnOk result (self.new ≡ self.old ++ bytes.now) }
    {
        self.bytes.reserve(bytes.len())?;
        self.bytes.push_all(bytes);
        Ok(())
    }

    /// Puts a number at the end, decimal without leading zeros.
    pub fn add_number(&mut self, number: u64) -> Result<(), NoMemory>
        ensures { OnOk result (self.new ≡ self.old ++ decimal number) }
    {
        let mut digits = Buffer::new();
        self.add(digits.format(number).as_bytes())
    }

    /// Puts a number at the end, decimal without leading zeros, with `-` where it is negative.
    pub fn add_signed(&mut self, number: i64) -> Result<(), NoMemory>
        ensures { OnOk result (self.new ≡ self.old ++ signed_decimal number) }
    {
        let mut digits = Buffer::new();
        self.add(digits.format(number).as_bytes())
    }
}
