//! How many bytes an act takes at most.

ghost use Rattle.std.specs.Prelude.{◌≡◌, ◌+◌, ◌*◌, IfSome, map};
ghost use Rattle.cl_value.specs.LiveViews.{plain_part};
ghost use Rattle.cl_value.specs.Views.{plain_ask};
ghost use Rattle.cl_log.specs.declared.number.TheConstants.{NUMBER_ROOM};
ghost use Rattle.cl_log.specs.declared.write.TheConstants.{VALUE_ROOM};
ghost use Rattle.cl_log.specs.Space.{part_room, parts_room, ask_room};

use crate::number::NUMBER_ROOM;
use crate::write::VALUE_ROOM;
use crate::write_act::HEAD_ROOM;
use cl_ground::MOST_FIELDS;
use cl_value::{Ask, LiveField};

// Of a call with so many arguments, or none where that is beyond counting.
fn call_room(arguments: usize) -> Option<usize>
    ensures { IfSome result (λ room. room ≡ 1 + NUMBER_ROOM + NUMBER_ROOM + VALUE_ROOM * arguments) }
{
    let values = arguments.checked_mul(VALUE_ROOM)?;
    values.checked_add(1 + NUMBER_ROOM + NUMBER_ROOM)
}

// Of a field of a live tuple.
fn part_room(part: &LiveField) -> Option<usize>
    ensures { IfSome result (λ room. room ≡ part_room (plain_part part.now)) }
{
    match part {
        LiveField::Ready(_) => Some(VALUE_ROOM),
        LiveField::Call { arguments, .. } => call_room(arguments.len()),
    }
}

// Of fields of a live tuple.
fn parts_room(parts: &[LiveField]) -> Option<usize>
    ensures { IfSome result (λ room. room ≡ parts_room (map plain_part parts.now)) }
{
    match parts {
        [] => Some(0),
        [part, rest @ ..] => part_room(part)?.checked_add(parts_room(rest)?),
    }
}

/// How many bytes an act of this request takes at most, whatever its ticket and its answer; none where that is
/// beyond counting. It takes no memory.
pub fn room_for(ask: &Ask) -> Option<usize>
    ensures { IfSome result (λ room. room ≡ ask_room (plain_ask ask.now)) }
{
    match ask {
        Ask::Eval(live) => parts_room(live.fields())?.checked_add(HEAD_ROOM),
        Ask::Out(_) => Some(HEAD_ROOM + VALUE_ROOM * MOST_FIELDS),
        Ask::In(_) => Some(HEAD_ROOM + VALUE_ROOM * MOST_FIELDS),
        Ask::Rd(_) => Some(HEAD_ROOM + VALUE_ROOM * MOST_FIELDS),
        Ask::Inp(_) => Some(HEAD_ROOM + VALUE_ROOM * MOST_FIELDS),
        Ask::Rdp(_) => Some(HEAD_ROOM + VALUE_ROOM * MOST_FIELDS),
        Ask::Land(_) => Some(HEAD_ROOM + VALUE_ROOM * MOST_FIELDS),
    }
}
