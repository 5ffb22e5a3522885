// A set's token with its counts, as it lies under a lock: nobody stands in it, and nobody waits to be born.
ghost use Rattle.std.specs.Prelude.{◌≡◌, ◌+◌, ◌<◌, ◌≤◌, ◌++◌, [], ◌∷◌, None, length, nat_le, false, true};
ghost use Rattle.cl_value.specs.Acts.{is_eval};
ghost use Rattle.cl_value.specs.Views.{plain_what};
ghost use Rattle.cl_ticket.specs.Weights.{Each};
ghost use Rattle.cl_ticket.specs.Rule.{depth_of};
ghost use Rattle.cl_ticket.specs.Steps.{act_of, birth, evals_in, with_act};
ghost use Rattle.cl_ticket.specs.Tokens.{newborn};

use cl_ticket::{Plan, ProcSeat, SetSeat, Tickets, born, draw, enter, leave};
use cl_value::What;

#[derive(Drop)]
pub struct SetState<K: Plan> {
    pub seat: SetSeat<K>,
    pub count: u64,
    pub evals: u64,
    pub limit: u32,
    ghost limited: { limit ≡ K.entries },
    ghost alone: { seat.guest ≡ None },
    ghost born: { seat.unborn ≡ [] },
    ghost counted: { count ≡ length seat.history.acts },
    ghost few: { evals ≤ count },
    ghost made: { evals ≡ evals_in (seat.history ∷ []) },
}

impl<K: Plan> SetState<K> {
    pub fn new(seat: SetSeat<K>, limit: u32) -> SetState<K>
        requires limit { limit ≡ K.entries }
        requires empty { (seat.guest ≡ None) × (seat.unborn ≡ []) × (seat.history.acts ≡ []) }
        ensures seat { result.seat ≡ seat }
    {
        SetState {
            seat,
            count: 0,
            evals: 0,
            limit,
        }
    }

    pub fn is_full(&self) -> bool
        ensures { result ≡ nat_le K.entries (length self.now.seat.history.acts) }
    {
        self.count >= self.limit as u64
    }

    // The guest does an act here.
    pub fn act(
        &mut self,
        tickets: &Tickets<K>,
        guest: ProcSeat<K>,
        site: u32,
        what: &What,
    ) -> (ProcSeat<K>, u64)
        requires room { length self.old.seat.history.acts < K.entries }
        requires act { is_eval (plain_what what.now) ≡ false }
        ensures participant { result.0.participant ≡ with_act guest.participant (act_of site (plain_what what.now) guest.participant result.1) }
        ensures gathered { result.0.gathered ≡ guest.gathered }
        ensures set { self.new.seat.history.acts ≡ self.old.seat.history.acts ++ act_of site (plain_what what.now) guest.participant result.1 ∷ [] }
        ensures above { Each (λ a. a.ticket < result.1) guest.participant.acts × Each (λ a. a.ticket < result.1) self.old.seat.history.acts }
    {
        enter(tickets, &mut self.seat, guest);
        let ticket = draw(tickets, &mut self.seat, site, what);
        self.count += 1;
        (leave(tickets, &mut self.seat), ticket)
    }

    // The guest makes a process here.
    pub fn eval(
        &mut self,
        tickets: &Tickets<K>,
        guest: ProcSeat<K>,
        site: u32,
        what: &What,
    ) -> (ProcSeat<K>, ProcSeat<K>, u64)
        requires room { length self.old.seat.history.acts < K.entries }
        requires act { is_eval (plain_what what.now) ≡ true }
        ensures participant { result.0.participant ≡ with_act guest.participant (act_of site (plain_what what.now) guest.participant result.2) }
        ensures gathered { result.0.gathered ≡ guest.gathered }
        ensures child { result.1 ≡ newborn (birth (act_of site (plain_what what.now) guest.participant result.2) (depth_of guest.participant.origin + 1)) }
    {
        enter(tickets, &mut self.seat, guest);
        let ticket = draw(tickets, &mut self.seat, site, what);
        self.count += 1;
        self.evals += 1;
        let child = born(tickets, &mut self.seat);
        (leave(tickets, &mut self.seat), child, ticket)
    }

    // The token alone.
    pub fn into_seat(self) -> SetSeat<K>
        ensures { result ≡ self.seat }
    {
        let SetState {
            seat,
            count: _,
            evals: _,
            limit: _,
        } = self;
        seat
    }
}
