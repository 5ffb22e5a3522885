// The tokens of a run. K stands for the run.
ghost use Rattle.std.specs.Prelude.{◌≡◌, ◌≤◌};
ghost use Rattle.cl_ticket.specs.Rule.{name_of};

use crate::table::{TicketSeat, TicketTable};
use std::marker::{Brand, Model, PhantomData};

/// One run. It has no calls, and three meanings: the identity of its table, the shapes of its sets in order
/// of set, and the limit of acts of each set.
pub trait Plan {
    ghost use Rattle.std.specs.Prelude.{ℕ, List};
    ghost use Rattle.cl_sig.specs.Shapes.{PlainShape};
    ghost use Rattle.atomic_table.specs.Seated.{TableId};

    ghost table: { TableId };

    ghost shapes: { List PlainShape };

    ghost entries: { ℕ };
}

impl Plan for Brand {
    ghost use Rattle.std.specs.Prelude.{[]};
    ghost use Rattle.cl_ticket.specs.Steps.{no_table};

    ghost table = { no_table };

    ghost shapes = { [] };

    ghost entries = { 0 };
}

/// A table that no run has yet. Contracts see its identity and the number of sets that it is for, 1 to 1,024.
#[derive(Drop)]
pub struct Blank {
    pub(crate) table: TicketTable,
    pub(crate) opener: TicketSeat,
    pub(crate) sets: u32,
}

impl Model for Blank {
    ghost use Rattle.cl_ticket.specs.Tokens.{Fresh};
    ghost use Rattle.cl_ticket.specs.TokenFields.{IsFresh};

    ghost Value = { Fresh };

    ghost view = { λ b. record { table = b.table.shared.table_id; sets = b.sets } };

    ghost invariant = { λ b. IsFresh b.table.shared.table_id b.opener.table_id b.opener.me b.sets };
}

/// The table of a run: a word with the next ticket, and a word with one more than the name of who failed first.
#[derive(Drop)]
pub struct Tickets<K: Plan> {
    pub(crate) table: TicketTable,
    pub(crate) run: PhantomData<K>,
    ghost words: { table.shared.table_id.words ≡ 2 },
    ghost slots: { table.shared.table_id.slots ≡ 0 },
    ghost here: { table.shared.table_id ≡ K.table },
    ghost limit: { K.entries ≤ 16777216 },
}

/// A token for a set. Contracts see its number and acts, who stands in it, and the evals drawn in it whose
/// process has no token yet.
#[derive(Drop)]
pub struct SetSeat<K: Plan> {
    pub(crate) seat: TicketSeat,
    pub(crate) number: u32,
    pub(crate) guest: u64,
    pub(crate) last: u64,
    pub(crate) run: PhantomData<K>,
}

impl<K: Plan> Model for SetSeat<K> {
    ghost use Rattle.std.specs.Prelude.{length};
    ghost use Rattle.cl_ticket.specs.Tokens.{SetToken, set_token_coded, set_token_in};
    ghost use Rattle.cl_ticket.specs.TokenFields.{IsSetSeat};

    ghost Value = { SetToken };

    ghost coded = { set_token_coded };

    ghost view = { λ s. set_token_in s.seat.me.0 };

    ghost invariant = { λ s. IsSetSeat K.table (length K.shapes) s.seat.table_id s.seat.me s.number s.guest s.last };
}

/// A token for a process. Contracts see the process, with its acts, and those that it has gathered.
#[derive(Drop)]
pub struct ProcSeat<K: Plan> {
    pub(crate) seat: TicketSeat,
    pub(crate) name: u64,
    pub(crate) run: PhantomData<K>,
}

impl<K: Plan> Model for ProcSeat<K> {
    ghost use Rattle.std.specs.Prelude.{length};
    ghost use Rattle.cl_ticket.specs.Tokens.{ProcessToken, process_token_coded, process_token_in};
    ghost use Rattle.cl_ticket.specs.TokenFields.{IsProcessSeat};

    ghost Value = { ProcessToken };

    ghost coded = { process_token_coded };

    ghost view = { λ s. process_token_in s.seat.me.0 };

    ghost invariant = { λ s. IsProcessSeat K.table (length K.shapes) s.seat.table_id s.seat.me s.name };
}

impl<K: Plan> SetSeat<K> {
    /// The number of the set, from 0.
    pub fn number(&self) -> u32
        ensures { result ≡ self.now.history.set }
    {
        self.number
    }
}

impl<K: Plan> ProcSeat<K> {
    /// The name of the process: 0, or the ticket of the `eval` that made it, at most 17,179,869,185.
    pub fn name(&self) -> u64
        ensures name { result ≡ name_of self.now.participant.origin }
        ensures few { result ≤ 17179869185 }
    {
        self.name
    }
}
