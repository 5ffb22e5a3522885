ghost use Rattle.cl_ground.specs.declared.limits.TheConstants.{MOST_SITES};
ghost use Rattle.std.specs.Prelude.{◌≡◌, ◌<◌, ◌≤◌, length, map, All, IfOk};
ghost use Rattle.cl_ground.specs.Room.{Room};
ghost use Rattle.cl_sig.specs.Classes.{members};
ghost use Rattle.cl_sig.specs.Numbers.{count_of};
ghost use Rattle.cl_sig.specs.Partitions.{IsPartition};
ghost use Rattle.cl_sig.specs.Shapes.{sites_from, common_mark, common, common_from, shape};
ghost use Rattle.cl_sig.specs.Views.{plain_signature, plain_shape};
ghost use Rattle.cl_usage.specs.Tests.{HasFewFields};

use crate::class::class_of;
use crate::fields::{first_member, literal_at};
use cl_ground::{Items, NoMemory};
use cl_sig::{Kind, Mark, SetShape, Sets, Signature};
use cl_value::Value;
use std::alloc::Global;

// The sites of a set in ascending order.
fn sites_of(alloc: Global, numbers: &[u32], set: u32) -> Result<Items<u32>, NoMemory>
    requires { length numbers.now ≤ MOST_SITES }
    ensures { IfOk result (λ it. it.items ≡ sites_from 0 numbers.now set) }
{
    let mut sites = Items::new(alloc);
    sites.reserve(numbers.len())?;
    for (site, number) in numbers.iter().enumerate() {
        if *number == set {
            sites.push(site as u32);
        }
    }
    Ok(sites)
}

// What a field has in common: its literal, or its type.
fn common_mark(literal: Option<Value>, mark: Mark) -> Mark
    ensures { result ≡ common_mark literal mark }
{
    match literal {
        Some(value) => Mark::Constant(value),
        None => Mark::Actual(mark.type_of()),
    }
}

// The fields that the sites of a set have in common, by the marks of one of them.
fn common_fields(
    alloc: Global,
    sites: &[Signature],
    numbers: &[u32],
    set: u32,
    marks: &[Mark],
) -> Result<Items<Mark>, NoMemory>
    requires { All HasFewFields sites.now }
    ensures { IfOk result (λ it. it.items ≡ common_from 0 marks.now (members (map plain_signature sites.now) numbers.now set)) }
{
    let mut fields = Items::new(alloc);
    fields.reserve(marks.len())?;
    for (field, mark) in marks.iter().enumerate() {
        let literal = literal_at(sites, numbers, set, field);
        fields.push(common_mark(literal, *mark));
    }
    Ok(fields)
}

// What the sites of a set have in common.
fn common_of(
    alloc: Global,
    sites: &[Signature],
    numbers: &[u32],
    set: u32,
) -> Result<Signature, NoMemory>
    requires { All HasFewFields sites.now }
    ensures { IfOk result (λ it. plain_signature it ≡ common (members (map plain_signature sites.now) numbers.now set)) }
{
    match first_member(sites, numbers, set) {
        None => Ok(Signature {
            kind: Kind::Out,
            fields: Items::new(alloc),
            place: 0,
        }),
        Some(first) => {
            let fields = common_fields(alloc, sites, numbers, set, first.fields.as_slice())?;
            Ok(Signature {
                kind: first.kind,
                fields,
                place: first.place,
            })
        }
    }
}

/// The shape of a set. `NoMemory` comes where the allocator refused room for its sites or for what they
/// have in common.
pub fn shape_of(
    alloc: Global,
    sites: &Items<Signature>,
    sets: &Sets,
    set: u32,
) -> Result<SetShape, NoMemory>
    requires few { length sites.now.items ≤ MOST_SITES }
    requires fields { All HasFewFields sites.now.items }
    requires sets { IsPartition (map plain_signature sites.now.items) sets.now }
    requires exists { set < count_of sets.now }
    ensures shape { IfOk result (λ it. plain_shape it ≡ shape (map plain_signature sites.now.items) sets.now set) }
{
    let class = class_of(sites, sets, set);
    let numbers = sets.numbers();
    let common = common_of(alloc, sites.as_slice(), numbers, set)?;
    let sites = sites_of(alloc, numbers, set)?;
    Ok(SetShape {
        set,
        class,
        common,
        sites,
    })
}
