// The table of tickets, and what its steps make of the views.
use crate::view::View;
use atomic_table::{Join, Play, Seat, Split, Table, TableRule};
use std::alloc::Global;
use std::marker::{Brand, PhantomData};

pub struct TicketRule;

impl TableRule<(), View, ()> for TicketRule {
    ghost use Rattle.cl_ticket.specs.Rule.{Holds, opening_view};

    ghost holds = { λ key s. Holds s.words s.views };

    ghost first = { λ key. opening_view 0 };
}

pub struct Both;

impl Join<View> for Both {
    ghost use Rattle.cl_ticket.specs.Rule.{both, spent};

    ghost both = { both };

    ghost spent = { spent };
}

pub struct Opens;

impl Split<View> for Opens {
    ghost use Rattle.cl_ticket.specs.Steps.{left_opening, right_opening};

    ghost left = { left_opening };

    ghost right = { right_opening };
}

pub struct OpensLast;

impl Split<View> for OpensLast {
    ghost use Rattle.cl_ticket.specs.Steps.{left_last, right_opening};

    ghost left = { left_last };

    ghost right = { right_opening };
}

pub struct Leaves;

impl Split<View> for Leaves {
    ghost use Rattle.cl_ticket.specs.Steps.{left_leave, right_leave};

    ghost left = { left_leave };

    ghost right = { right_leave };
}

pub struct LeavesFull;

impl Split<View> for LeavesFull {
    ghost use Rattle.cl_ticket.specs.Steps.{left_leave, right_full};

    ghost left = { left_leave };

    ghost right = { right_full };
}

pub struct Bears;

impl Split<View> for Bears {
    ghost use Rattle.cl_ticket.specs.Steps.{left_born, right_born};

    ghost left = { left_born };

    ghost right = { right_born };
}

/// What is done at a ticket. Each call picks it.
pub trait DrawnAct {
    ghost use Rattle.std.specs.Prelude.{ℕ};
    ghost use Rattle.cl_value.specs.Plain.{PlainWhat};

    ghost site: { ℕ };

    ghost what: { PlainWhat };
}

impl DrawnAct for Brand {
    ghost use Rattle.std.specs.Prelude.{[]};
    ghost use Rattle.cl_value.specs.Plain.{DidOut};

    ghost site = { 0 };

    ghost what = { DidOut [] };
}

pub struct Draws<W> {
    act: PhantomData<W>,
}

impl<W: DrawnAct> Play<(), View> for Draws<W> {
    ghost use Rattle.std.specs.Prelude.{◌≡◌, []};
    ghost use Rattle.cl_ticket.specs.Steps.{Drawn};

    ghost then = { λ step me found after. Drawn W.site W.what me.0 found after.0 × (after.1 ≡ []) };
}

pub struct Halts;

impl Play<(), View> for Halts {
    ghost use Rattle.std.specs.Prelude.{◌≡◌, []};
    ghost use Rattle.cl_ticket.specs.Steps.{Halted};

    ghost then = { λ step me found after. Halted step.second me.0 found after.0 × (after.1 ≡ []) };
}

pub struct Sights;

impl Play<(), View> for Sights {
    ghost use Rattle.std.specs.Prelude.{◌≡◌, []};
    ghost use Rattle.cl_ticket.specs.Steps.{Sighted};

    ghost then = { λ step me found after. Sighted me.0 found after.0 × (after.1 ≡ []) };
}

pub type TicketTable = Table<(), View, (), TicketRule, Global>;

pub type TicketSeat = Seat<(), View>;
