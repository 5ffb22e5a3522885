use crate::write_act::put_act;
use cl_ground::NoMemory;
use cl_value::{Request, Tuple};
use std::alloc::Global;
use std::marker::Model;

/// Bytes that spell acts, in one piece of memory that never grows. (This project.)
///
/// Contracts see its acts in order, and for how many more bytes there is room.
#[derive(Drop)]
pub struct Block {
    bytes: Vec<u8>,
    // The ticket of its last act, or 0.
    last: u64,
}

impl Model for Block {
    ghost use Rattle.cl_log.specs.Logs.{PlainLog, block_of, IsBlock};

    ghost Value = { PlainLog };

    ghost view = { λ block. block_of block.bytes };

    ghost invariant = { λ block. IsBlock block.bytes.items block.last };
}

impl Block {
    ghost use Rattle.std.specs.Prelude.{◌≡◌, ◌≤◌, [], ◌∷◌, ◌++◌, IfOk};
    ghost use Rattle.std.specs.Option.{option_copied};
    ghost use Rattle.cl_value.specs.Tickets.{IsAbove};
    ghost use Rattle.cl_value.specs.Views.{plain_ask};
    ghost use Rattle.cl_log.specs.Answered.{answered, done, fields_if_any, MayAnswer};
    ghost use Rattle.cl_log.specs.Space.{ask_room};
    ghost use Rattle.cl_log.specs.Reading.{acts_at};
    ghost use Rattle.cl_log.specs.Cursors.{AreNarrow, IsReader};

    /// No acts and no room. It takes no memory.
    #[tactic(auto, using(crate::proofs::Logs::nothing, crate::proofs::Logs::empty_block))]
    pub fn empty(alloc: Global) -> Block
        ensures acts { result.acts ≡ [] }
    {
        Block {
            bytes: Vec::new(alloc),
            last: 0,
        }
    }

    /// No acts, with room for so many bytes. `NoMemory` comes where the allocator refused it.
    #[tactic(auto, using(crate::proofs::Logs::nothing, crate::proofs::Logs::empty_block))]
    pub fn with_room(alloc: Global, room: usize) -> Result<Block, NoMemory>
        ensures acts { IfOk result (λ block. block.acts ≡ []) }
        ensures ready { IfOk result (λ block. room ≤ block.ready) }
    {
        match Vec::with_capacity(alloc, room) {
            Ok(bytes) => Ok(Block { bytes, last: 0 }),
            Err(_) => Err(NoMemory),
        }
    }

    /// For how many more bytes there is room.
    pub fn ready(&self) -> usize
        ensures { result ≡ self.now.ready }
    {
        self.bytes.capacity() - self.bytes.len()
    }

    /// How many arguments the calls of one of its acts have at most: no act has more than the block has bytes.
    #[tactic(auto, using(crate::proofs::Narrow::block_long))]
    pub(crate) fn longest(&self) -> usize
        ensures { AreNarrow result self.now.acts }
    {
        self.bytes.len()
    }

    /// Its bytes.
    pub(crate) fn bytes(&self) -> &[u8]
        ensures acts { acts_at 0 result.now ≡ self.now.acts }
        ensures reader { IsReader result.now 0 }
    {
        self.bytes.as_slice()
    }

    /// Puts an act last: what was asked for, with the tuple that was found for it, if any. It takes no memory.
    pub fn push(&mut self, ticket: u64, name: u64, request: &Request, got: Option<&Tuple>)
        requires room { ask_room (plain_ask request.now.ask) ≤ self.old.ready }
        requires above { IsAbove ticket self.old.acts }
        requires answer { MayAnswer (plain_ask request.now.ask) (fields_if_any (option_copied got)) }
        ensures acts { self.new.acts ≡ self.old.acts ++ done ticket name request.now.site (answered (plain_ask request.now.ask) (fields_if_any (option_copied got.entry))) ∷ [] }
    {
        put_act(&mut self.bytes, self.last, ticket, name, request, got);
        self.last = ticket;
    }
}
