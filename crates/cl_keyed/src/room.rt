ghost use Rattle.std.specs.Prelude.{◌≡◌, ◌+◌, ◌∷◌, ◌++◌, [], ℕ, IsTrue, IfOk, Option};
ghost use Rattle.cl_keyed.specs.Keys.{has_key};
ghost use Rattle.cl_keyed.specs.Rows.{content_of, Holds};
ghost use Rattle.cl_keyed.specs.Tables.{Full, RoomFor};
ghost use Rattle.cl_keyed.specs.declared.key.Key.{Key};

use crate::key::Key;
use crate::line::Line;
use crate::table::Table;
use cl_ground::NoMemory;
use cl_value::Tuple;
use std::alloc::Global;
use std::mem::replace;

/// Makes room for one more tuple of a key, and tells the place of its list, where it has one. It hashes the
/// key once.
pub fn room_for(table: &mut Table, fresh: &mut Line, key: Key) -> Result<Option<usize>, NoMemory>
    ensures content { (n : ℕ) → content_of n table.new.lines ≡ content_of n table.old.lines }
    ensures holds { (field n : ℕ) → Holds field n table.old.lines → Holds field n table.new.lines }
    ensures full { Full table.old.lines → Full table.new.lines }
    ensures fresh { fresh.new.items ≡ fresh.old.items }
    ensures room { IfOk result (λ place. RoomFor key place table.new fresh.new) }
    ensures kept { (k : Key) (place : Option ℕ) → RoomFor k place table.old fresh.old → RoomFor k place table.new fresh.new }
{
    let place = table.place_of(key);
    match place {
        Some(line) => table.reserve(line)?,
        None => {
            table.reserve_line()?;
            fresh.reserve()?;
        }
    }
    Ok(place)
}

/// Puts a tuple last, into the room that was made for its key. It hashes the key only where no tuple had it.
pub fn put(
    table: &mut Table,
    fresh: &mut Line,
    alloc: Global,
    key: Key,
    place: Option<usize>,
    number: u64,
    tuple: Tuple,
)
    requires room { RoomFor key place table.old fresh.old }
    requires empty { fresh.old.items ≡ [] }
    ensures content { (field : ℕ) → Holds field number table.old.lines → IsTrue (has_key field key tuple.items) → content_of (number + 1) table.new.lines ≡ content_of number table.old.lines ++ tuple.items ∷ [] }
    ensures holds { (field : ℕ) → Holds field number table.old.lines → IsTrue (has_key field key tuple.items) → Holds field (number + 1) table.new.lines }
    ensures full { Full table.old.lines → Full table.new.lines }
    ensures empty { fresh.new.items ≡ [] }
{
    match place {
        Some(line) => table.push(line, number, tuple),
        None => {
            let mut line = replace(fresh, Line::new(alloc));
            line.push(number, tuple);
            table.push_line(key, line);
        }
    }
}
