use crate::kind::Kind;
use crate::number::number_at;
use crate::part::SeenPart;
use crate::read::{read_hits, read_misses, read_parts, read_values};
use cl_ground::{Items, MOST_FIELDS, NoMemory};
use cl_value::{Slot, Value};
use std::alloc::Global;
use std::marker::Model;

/// An act that was read from a log, in lists that are filled again by the next one. (This project.)
///
/// Contracts see its parts, and for how many arguments of calls there is room.
#[derive(Drop)]
pub struct ActBuffer {
    ticket: u64,
    proc: u64,
    site: u32,
    kind: Kind,
    slots: Items<Slot>,
    values: Items<Value>,
    parts: Items<SeenPart>,
    arguments: Items<Value>,
}

impl Model for ActBuffer {
    ghost use Rattle.std.specs.Prelude.{◌≤◌};
    ghost use Rattle.cl_ground.specs.Room.{capacity_of};
    ghost use Rattle.cl_ground.specs.declared.limits.TheConstants.{MOST_FIELDS};
    ghost use Rattle.cl_log.specs.Cursors.{SeenAct};

    ghost Value = { SeenAct };

    ghost view = { λ b. record {
      ticket = b.ticket;
      proc = b.proc;
      site = b.site;
      kind = b.kind;
      slots = b.slots.items;
      values = b.values.items;
      parts = b.parts.items;
      arguments = b.arguments.items;
      room = capacity_of b.arguments;
    } };

    ghost invariant = { λ b. (MOST_FIELDS ≤ capacity_of b.slots) × (MOST_FIELDS ≤ capacity_of b.values) × (MOST_FIELDS ≤ capacity_of b.parts) };
}

ghost use Rattle.std.specs.Prelude.{◌≡◌, ◌≤◌, [], ◌∷◌, length};
ghost use Rattle.cl_ground.specs.Room.{capacity_of};
ghost use Rattle.cl_log.specs.Reading.{kind_at, what_at, act_from};
ghost use Rattle.cl_log.specs.Seen.{with_arguments, parts_seen};
ghost use Rattle.cl_log.specs.Cursors.{what_of, act_seen, arguments_of};

// What was done, by its number.
fn kind_of(number: u8) -> Kind
    ensures { result ≡ kind_at number }
{
    match number {
        0 => Kind::Out,
        1 => Kind::In,
        2 => Kind::Rd,
        3 => Kind::InpHit,
        4 => Kind::InpMiss,
        5 => Kind::RdpHit,
        6 => Kind::RdpMiss,
        7 => Kind::Eval,
        _ => Kind::Land,
    }
}

impl ActBuffer {
    ghost use Rattle.std.specs.Prelude.{◌≡◌, ◌≤◌, ◌*◌, ◌/◌, ◌%◌, ◌+◌, [], ◌∷◌, length, IfOk};
    ghost use Rattle.cl_ground.specs.Room.{capacity_of};
    ghost use Rattle.cl_log.specs.Reading.{kind_at, what_at, act_from};
    ghost use Rattle.cl_log.specs.Seen.{with_arguments, parts_seen};
    ghost use Rattle.cl_log.specs.Cursors.{what_of, act_seen, arguments_of};

    /// Lists with room for any act whose calls have at most so many arguments. `NoMemory` comes where the
    /// allocator refused that room.
    pub fn new(alloc: Global, arguments: usize) -> Result<ActBuffer, NoMemory>
        ensures { IfOk result (λ b. arguments ≤ b.room) }
    {
        let mut slots = Items::new(alloc);
        slots.reserve(MOST_FIELDS)?;
        let mut values = Items::new(alloc);
        values.reserve(MOST_FIELDS)?;
        let mut parts = Items::new(alloc);
        parts.reserve(MOST_FIELDS)?;
        let mut all = Items::new(alloc);
        all.reserve(arguments)?;
        Ok(ActBuffer {
            ticket: 0,
            proc: 0,
            site: 0,
            kind: Kind::Land,
            slots,
            values,
            parts,
            arguments: all,
        })
    }

    /// Its ticket.
    pub fn ticket(&self) -> u64
        ensures { result ≡ self.now.ticket }
    {
        self.ticket
    }

    /// The name of its process.
    pub fn proc(&self) -> u64
        ensures { result ≡ self.now.proc }
    {
        self.proc
    }

    /// The number of its site.
    pub fn site(&self) -> u32
        ensures { result ≡ self.now.site }
    {
        self.site
    }

    /// What it did, without its fields.
    pub fn kind(&self) -> Kind
        ensures { result ≡ self.now.kind }
    {
        self.kind
    }

    /// Its template, where it asked with one.
    pub fn slots(&self) -> &[Slot]
        ensures { result.now ≡ self.now.slots }
    {
        self.slots.as_slice()
    }

    /// The tuple that it added, took or read, where it did.
    pub fn values(&self) -> &[Value]
        ensures { result.now ≡ self.now.values }
    {
        self.values.as_slice()
    }

    /// The fields of its live tuple, where it made one.
    pub fn parts(&self) -> &[SeenPart]
        ensures { result.now ≡ self.now.parts }
    {
        self.parts.as_slice()
    }

    /// The arguments of all calls of its live tuple, those of one call behind those of the call before.
    pub fn arguments(&self) -> &[Value]
        ensures { result.now ≡ self.now.arguments }
    {
        self.arguments.as_slice()
    }

    // Empties all lists.
    fn clear(&mut self)
        ensures slots { self.new.slots ≡ [] }
        ensures values { self.new.values ≡ [] }
        ensures parts { self.new.parts ≡ [] }
        ensures arguments { self.new.arguments ≡ [] }
        ensures room { self.new.room ≡ self.old.room }
    {
        self.slots.clear();
        self.values.clear();
        self.parts.clear();
        self.arguments.clear();
    }

    // Reads the fields of what was done into empty lists, and gives the bytes behind them.
    #[tactic(auto, using(crate::proofs::Seen::parts_is, crate::proofs::Seen::arguments_count))]
    fn read_fields<'a>(&mut self, kind: Kind, count: usize, bytes: &'a [u8]) -> &'a [u8]
        requires slots { self.old.slots ≡ [] }
        requires values { self.old.values ≡ [] }
        requires parts { self.old.parts ≡ [] }
        requires arguments { self.old.arguments ≡ [] }
        requires few { count ≤ 16 }
        requires room { arguments_of (what_at kind count bytes.now).0 ≤ self.old.room }
        ensures what { what_of kind self.new.slots self.new.values (with_arguments self.new.parts self.new.arguments) ≡ (what_at kind count bytes.now).0 }
        ensures rest { result.now ≡ (what_at kind count bytes.now).1 }
        ensures room { self.new.room ≡ self.old.room }
    {
        match kind {
            Kind::Out => read_values(&mut self.values, count, bytes),
            Kind::In => read_hits(&mut self.slots, &mut self.values, count, bytes),
            Kind::Rd => read_hits(&mut self.slots, &mut self.values, count, bytes),
            Kind::InpHit => read_hits(&mut self.slots, &mut self.values, count, bytes),
            Kind::InpMiss => read_misses(&mut self.slots, count, bytes),
            Kind::RdpHit => read_hits(&mut self.slots, &mut self.values, count, bytes),
            Kind::RdpMiss => read_misses(&mut self.slots, count, bytes),
            Kind::Eval => read_parts(&mut self.parts, &mut self.arguments, count, bytes),
            Kind::Land => read_values(&mut self.values, count, bytes),
        }
    }

    /// Reads the act behind its first byte, where the act before has this ticket, and gives the bytes behind it. It
    /// takes no memory.
    #[tactic(auto, unfolding(crate::specs::Reading::act_from))]
    pub(crate) fn read<'a>(&mut self, before: u64, byte: u8, bytes: &'a [u8]) -> &'a [u8]
        requires room { arguments_of (act_from before byte bytes.now).0.what ≤ self.old.room }
        ensures act { act_seen self.new ≡ (act_from before byte bytes.now).0 }
        ensures rest { result.now ≡ (act_from before byte bytes.now).1 }
        ensures room { self.new.room ≡ self.old.room }
    {
        let (more, rest) = number_at(bytes);
        let (proc, rest) = number_at(rest);
        let (site, rest) = number_at(rest);
        let kind = kind_of(byte / 16);
        self.clear();
        let rest = self.read_fields(kind, byte as usize % 16 + 1, rest);
        self.ticket = before.wrapping_add(more);
        self.proc = proc;
        self.site = (site % 4_294_967_296) as u32;
        self.kind = kind;
        rest
    }
}
