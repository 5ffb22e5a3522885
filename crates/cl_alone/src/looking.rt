ghost use Rattle.cl_ground.specs.declared.limits.TheConstants.{MOST_FIELDS};
ghost use Rattle.std.specs.Prelude.{◌≡◌, true, false, is_some, Some, None};
ghost use Rattle.cl_ground.specs.Room.{HasRoom, capacity_of};
ghost use Rattle.cl_value.specs.Replay.{first_match, found, replayed};
ghost use Rattle.cl_store.specs.Rooms.{Stored};
ghost use Rattle.cl_alone.specs.Seekings.{hit};

use crate::seeking::Seeking;
use cl_list::Listed;
use cl_store::TupleStore;
use cl_value::{Steps, Template, Tuple};
use std::sync::ledger::Ledger;

/// Takes or reads the oldest tuple that matches, and puts its fields into `into`. Where none matches, nothing changes.
pub fn look<L: Ledger>(
    tuples: &mut Listed,
    seeking: Seeking,
    template: &Template,
    into: &mut Tuple,
    steps: &mut Steps<L>,
) -> bool
    requires { HasRoom MOST_FIELDS into.old }
    ensures value { result ≡ is_some (first_match tuples.old.tuples template.now.items) }
    ensures missed { result ≡ false → found tuples.old.tuples template.now.items ≡ None }
    ensures found { result ≡ true → found tuples.old.tuples template.now.items ≡ Some into.new.items }
    ensures left { result ≡ true → tuples.new.tuples ≡ replayed tuples.old.tuples (hit seeking template.now.items into.new.items) }
    ensures unchanged { result ≡ false → tuples.new ≡ tuples.old }
{
    match seeking {
        Seeking::In | Seeking::Inp => tuples.take(template, into, steps),
        Seeking::Rd | Seeking::Rdp => tuples.find(template, into, steps),
    }
}
