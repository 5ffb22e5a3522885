use crate::block::Block;
use crate::cursor::{Cursor, first_of};
use crate::space::room_for;
use cl_ground::{Items, NoMemory};
use cl_value::{Request, Tuple};
use std::alloc::Global;
use std::marker::Model;
use std::mem;

/// How many bytes a block has, unless one act takes more.
const BLOCK: usize = 4096;

/// A list of acts, kept as bytes in blocks that never move. An act takes a few bytes. (This project.)
///
/// Contracts see its acts in order, and for how many more bytes there is room.
#[derive(Drop)]
pub struct ActLog {
    // Blocks that are full, in order, and the one that is written. An act lies in one of them.
    full: Items<Block>,
    open: Block,
    count: u64,
    // No call of an act in a full block has more arguments.
    longest: usize,
    alloc: Global,
}

impl Model for ActLog {
    ghost use Rattle.std.specs.Prelude.{◌≡◌, ◌++◌, length};
    ghost use Rattle.cl_log.specs.Cursors.{AreNarrow};
    ghost use Rattle.cl_log.specs.Logs.{PlainLog, log_of, acts_in_blocks};

    ghost Value = { PlainLog };

    ghost view = { λ log. log_of log.full.items log.open };

    ghost invariant = { λ log. (log.count ≡ length (acts_in_blocks log.full.items ++ log.open.acts)) × AreNarrow log.longest (acts_in_blocks log.full.items) };
}

impl ActLog {
    ghost use Rattle.std.specs.Prelude.{◌≡◌, ◌+◌, ◌^◌, ◌<◌, ◌≤◌, [], ◌∷◌, ◌++◌, length, OnOk, OnErr};
    ghost use Rattle.std.specs.Option.{option_copied};
    ghost use Rattle.cl_value.specs.Tickets.{IsAbove};
    ghost use Rattle.cl_value.specs.Views.{plain_ask};
    ghost use Rattle.cl_log.specs.Answered.{answered, done, fields_if_any, MayAnswer};
    ghost use Rattle.cl_log.specs.Space.{ask_room};
    ghost use Rattle.cl_log.specs.Cursors.{AreNarrow};

    /// No acts. It takes no memory, and keeps the allocator for its later growths.
    pub fn new(alloc: Global) -> ActLog
        ensures { result.acts ≡ [] }
    {
        ActLog {
            full: Items::new(alloc),
            open: Block::empty(alloc),
            count: 0,
            longest: 0,
            alloc,
        }
    }

    /// Makes room for one act of this request, whatever its ticket and its answer. The acts stay, whatever
    /// the answer. `NoMemory` comes where the allocator refused that room, or where it is beyond counting; then
    /// the room stays too.
    pub fn reserve_one(&mut self, request: &Request) -> Result<(), NoMemory>
        ensures acts { self.new.acts ≡ self.old.acts }
        ensures ready { OnOk result (ask_room (plain_ask request.now.ask) ≤ self.new.ready) }
        ensures refused { OnErr result (self.new.ready ≡ self.old.ready) }
    {
        let Some(room) = room_for(&request.ask) else {
            return Err(NoMemory);
        };
        if room <= self.open.ready() {
            return Ok(());
        }
        self.open_block(room)
    }

    // A block with room for so many bytes is the one that is written.
    #[tactic(auto, using(crate::proofs::Logs::block_turned, crate::proofs::Narrow::block_closed))]
    fn open_block(&mut self, room: usize) -> Result<(), NoMemory>
        ensures acts { self.new.acts ≡ self.old.acts }
        ensures ready { OnOk result (room ≤ self.new.ready) }
        ensures refused { OnErr result (self.new.ready ≡ self.old.ready) }
    {
        self.full.reserve(1)?;
        let block = Block::with_room(self.alloc, room.max(BLOCK))?;
        let longest = self.longest.max(self.open.longest());
        let before = mem::replace(&mut self.open, block);
        self.full.push(before);
        self.longest = longest;
        Ok(())
    }

    /// Puts an act last: what was asked for, with the tuple that was found for it, if any. It takes no memory.
    pub fn push(&mut self, ticket: u64, name: u64, request: &Request, got: Option<&Tuple>)
        requires room { ask_room (plain_ask request.now.ask) ≤ self.old.ready }
        requires few { length self.old.acts + 1 < 2 ^ 64 }
        requires above { IsAbove ticket self.old.acts }
        requires answer { MayAnswer (plain_ask request.now.ask) (fields_if_any (option_copied got)) }
        ensures { self.new.acts ≡ self.old.acts ++ done ticket name request.now.site (answered (plain_ask request.now.ask) (fields_if_any (option_copied got.entry))) ∷ [] }
    {
        self.open.push(ticket, name, request, got);
        self.count += 1;
    }

    /// The number of acts.
    #[allow(clippy::len_without_is_empty)]
    pub fn len(&self) -> u64
        ensures { result ≡ length self.now.acts }
    {
        self.count
    }

    /// How many arguments the calls of one act have at most, or more: no act has more than its block has bytes.
    #[tactic(auto, using(crate::proofs::Narrow::narrow_more, crate::proofs::Narrow::narrow_both))]
    pub fn longest(&self) -> usize
        ensures { AreNarrow result self.now.acts }
    {
        self.longest.max(self.open.longest())
    }

    /// Reads the acts in order, from the first one on. It takes no memory.
    pub fn cursor(&self) -> Cursor<'_>
        ensures { result ≡ self.now.acts }
    {
        first_of(self.full.as_slice(), Some(&self.open))
    }
}
