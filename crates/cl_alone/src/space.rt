use crate::bounds::Bounds;
use crate::pause::Pause;
use crate::stage::Stage;
use cl_value::{Request, Steps};
use cl_walk::{Answer, World};
use std::alloc::Global;
use std::marker::Model;
use std::sync::ledger::Ledger;

/// The tuple space of a run of one process, in which its operations are done as they are asked for.
///
/// Contracts see the acts and the tuples so far, and why the process goes no further, if it doesn't.
#[derive(Drop)]
pub struct Space<'s, L: Ledger> {
    stage: Stage,
    pause: Option<Pause>,
    steps: &'s mut Steps<L>,
}

impl<'s, L: Ledger> Model for Space<'s, L> {
    ghost use Rattle.cl_alone.specs.Pauses.{Standing, IsSound};

    ghost Value = { Standing };

    ghost view = { λ s. record { moment = s.stage; pause = s.pause } };

    ghost invariant = { λ s. IsSound s.stage s.pause };
}

ghost use Rattle.std.specs.Prelude.{◌≡◌, Option};
ghost use Rattle.cl_value.specs.Views.{plain_request};
ghost use Rattle.cl_walk.specs.Views.{reply_in};
ghost use Rattle.cl_walk.specs.Walked.{IsAnswered};
ghost use Rattle.cl_alone.specs.Moment.{IsHistory};
ghost use Rattle.cl_alone.specs.Pauses.{IsSound, said_of};
ghost use Rattle.cl_alone.specs.declared.pause.Pause.{Pause};

// Does an operation, or tells why it isn't done.
fn answered<L: Ledger>(
    stage: &mut Stage,
    request: Request,
    steps: &mut Steps<L>,
) -> (Answer, Option<Pause>)
    ensures sound { IsHistory stage.old → IsSound stage.new result.1 }
    ensures said { (before : Option Pause) → IsAnswered (plain_request request) (reply_in result.0) (said_of stage.old before) (said_of stage.new result.1) }
{
    match stage.perform(&request, steps) {
        Ok(answer) => (answer, None),
        Err(why) => (Answer::Paused, Some(Pause { request, why })),
    }
}

// Puts one into the place of another.
fn put(place: &mut Option<Pause>, pause: Option<Pause>)
    ensures { place.new ≡ pause }
{
    *place = pause;
}

impl<'s, L: Ledger> Space<'s, L> {
    ghost use Rattle.std.specs.Prelude.{◌≡◌, [], None};
    ghost use Rattle.cl_walk.specs.Walks.{Said};
    ghost use Rattle.cl_alone.specs.Moment.{beginning};
    ghost use Rattle.cl_alone.specs.Pauses.{Standing, IsSound, said_of};

    /// Nothing was done yet.
    pub fn new(alloc: Global, bounds: Bounds, steps: &'s mut Steps<L>) -> Space<'s, L>
        ensures moment { result.moment ≡ beginning bounds.sites bounds.entries }
        ensures pause { result.pause ≡ None }
    {
        Space {
            stage: Stage::new(alloc, bounds),
            pause: None,
            steps,
        }
    }

    /// What was done, and where the process goes no further, if it doesn't.
    pub fn into_parts(self) -> (Stage, Option<Pause>)
        ensures moment { result.0 ≡ self.entry.moment }
        ensures pause { result.1 ≡ self.entry.pause }
        ensures sound { IsSound result.0 result.1 }
    {
        let Space {
            stage,
            pause,
            steps: _,
        } = self;
        (stage, pause)
    }
}

impl<'s, L: Ledger> World for Space<'s, L> {
    ghost use Rattle.cl_alone.specs.Pauses.{Standing, said_of};

    ghost said = { λ s. said_of s.moment s.pause };

    fn ask(&mut self, request: Request) -> Answer {
        let (answer, pause) = answered(&mut self.stage, request, self.steps);
        put(&mut self.pause, pause);
        answer
    }
}
