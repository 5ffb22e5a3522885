use cl_ground::{Items, NoMemory};
use cl_value::Act;
use std::alloc::Global;
use std::marker::Model;

/// The acts of a run of one process, kept twice: for the report of the process and for the history of the
/// set.
///
/// Contracts see the acts in order, and for how many more there is room.
#[derive(Drop)]
pub struct Log {
    report: Items<Act>,
    history: Items<Act>,
}

impl Model for Log {
    ghost use Rattle.std.specs.Prelude.{◌≡◌, map, min};
    ghost use Rattle.cl_value.specs.Plain.{PlainAct};
    ghost use Rattle.cl_ground.specs.Room.{Room};
    ghost use Rattle.cl_value.specs.Views.{plain_act};

    ghost Value = { Room PlainAct };

    ghost view = { λ l. record { items = map plain_act l.history.items; spare = min l.report.spare l.history.spare } };

    ghost invariant = { λ l. map plain_act l.report.items ≡ map plain_act l.history.items };
}

impl Log {
    ghost use Rattle.std.specs.Prelude.{◌≡◌, ◌-◌, ◌^◌, ◌<◌, ◌∷◌, ◌++◌, [], length, map, OnOk};
    ghost use Rattle.cl_ground.specs.Room.{Room};
    ghost use Rattle.cl_value.specs.Views.{plain_act};

    /// No act was done yet.
    pub fn new(alloc: Global) -> Log
        ensures { result.items ≡ [] }
    {
        Log {
            report: Items::new(alloc),
            history: Items::new(alloc),
        }
    }

    /// The number of acts. One more can be counted.
    pub fn len(&self) -> usize
        ensures acts { result ≡ length self.now.items }
        ensures more { result < 2 ^ 64 - 1 }
    {
        self.history.as_slice().len()
    }

    /// Makes room for one more act. The acts stay, whatever the answer.
    pub fn reserve(&mut self) -> Result<(), NoMemory>
        ensures items { self.new.items ≡ self.old.items }
        ensures spare { OnOk result (0 < self.new.spare) }
    {
        self.report.reserve(1)?;
        self.history.reserve(1)
    }

    /// Puts an act last, into room that was made before. It is handed in twice.
    pub fn push(&mut self, act: Act, again: Act)
        requires room { 0 < self.old.spare }
        requires same { plain_act act ≡ plain_act again }
        ensures { self.new.items ≡ self.old.items ++ plain_act again ∷ [] }
    {
        self.report.push(act);
        self.history.push(again);
    }

    /// The acts for the report and for the history.
    pub fn into_parts(self) -> (Items<Act>, Items<Act>)
        ensures report { map plain_act result.0.items ≡ self.items }
        ensures history { map plain_act result.1.items ≡ self.items }
    {
        let Log { report, history } = self;
        (report, history)
    }
}
