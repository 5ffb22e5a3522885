use crate::block::Block;
use crate::buffer::ActBuffer;
use std::marker::Model;

/// Reads a log act by act, in order. (This project.)
///
/// Contracts see the acts that are still to come.
#[derive(Drop)]
pub struct Cursor<'a> {
    // The blocks behind the one that is read.
    full: &'a [Block],
    // The block that is written, which comes last, unless it is the one that is read.
    open: Option<&'a Block>,
    // What is left of the block that is read.
    rest: &'a [u8],
    // The ticket of the act before, or 0.
    before: u64,
}

impl<'a> Model for Cursor<'a> {
    ghost use Rattle.std.specs.Prelude.{List};
    ghost use Rattle.cl_value.specs.Plain.{PlainAct};
    ghost use Rattle.cl_log.specs.Cursors.{acts_to_come, IsPlaced};

    ghost Value = { List PlainAct };

    ghost view = { λ c. acts_to_come c.rest.now c.before c.full.now c.open };

    ghost invariant = { λ c. IsPlaced c.rest.now c.before c.full.now c.open };
}

ghost use Rattle.std.specs.Prelude.{◌≡◌, true, false, [], ◌∷◌, ◌++◌};
ghost use Rattle.cl_log.specs.Cursors.{acts_behind, act_seen, AreNarrow};

/// Reads these blocks from the first act on. It takes no memory.
#[tactic(auto, using(crate::proofs::Logs::nothing, crate::proofs::Cursors::no_bytes, crate::proofs::Cursors::nothing_read))]
pub fn first_of<'a>(full: &'a [Block], open: Option<&'a Block>) -> Cursor<'a>
    ensures { result ≡ acts_behind full.now open.entry }
{
    match full {
        [] => match open {
            None => Cursor {
                full,
                open: None,
                rest: &[],
                before: 0,
            },
            Some(block) => Cursor {
                full,
                open: None,
                rest: block.bytes(),
                before: 0,
            },
        },
        [block, more @ ..] => {
            let rest = block.bytes();
            if rest.is_empty() {
                first_of(more, open)
            } else {
                Cursor {
                    full: more,
                    open,
                    rest,
                    before: 0,
                }
            }
        }
    }
}

impl<'a> Cursor<'a> {
    ghost use Rattle.std.specs.Prelude.{◌≡◌, true, false, [], ◌∷◌};
    ghost use Rattle.cl_log.specs.Cursors.{act_seen, AreNarrow};

    /// Reads the next act, if there is one. It takes no memory.
    pub fn next(&mut self, into: &mut ActBuffer) -> bool
        requires narrow { AreNarrow into.old.room self.old }
        ensures end { result ≡ false → self.old ≡ [] }
        ensures act { result ≡ true → self.old ≡ act_seen into.new ∷ self.new }
        ensures room { into.new.room ≡ into.old.room }
    {
        match self.rest {
            [] => false,
            [byte, rest @ ..] => {
                let left = into.read(self.before, *byte, rest);
                if left.is_empty() {
                    *self = first_of(self.full, self.open);
                } else {
                    self.before = into.ticket();
                    self.rest = left;
                }
                true
            }
        }
    }
}
