// What a seat knows, as plain data.
ghost use Rattle.std.specs.Prelude.{ℕ, List};
ghost use Rattle.cl_value.specs.Plain.{PlainHistory};
ghost use Rattle.cl_ticket.specs.Participants.{Birth, Participant};
ghost use Rattle.cl_ticket.specs.Codes.{numbers_coded, histories_coded, participants_coded, births_coded};

use std::marker::Model;

/// What a seat has: perhaps how many sets were opened, sets, processes, and the acts that made a process
/// which has no seat yet. It exists in contracts alone; no value of it is made.
pub struct View {
    pub ghost opening: { List ℕ } by { numbers_coded },
    pub ghost sets: { List PlainHistory } by { histories_coded },
    pub ghost participants: { List Participant } by { participants_coded },
    pub ghost unborn: { List Birth } by { births_coded },
}

impl Model for View {
    ghost use base.Fml.{ftrue};

    ghost also_owns = { λ _. ftrue };
}
