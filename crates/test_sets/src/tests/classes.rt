// The sites of small programs, with the sets and classes that they must get.
ghost use Rattle.std.specs.Prelude.{◌≤◌, All, IsTrue, length, map};
ghost use Rattle.cl_ground.specs.Room.{Room};
ghost use Rattle.cl_sig.specs.Partitions.{IsPartition};
ghost use Rattle.cl_sig.specs.Views.{plain_signature};
ghost use Rattle.cl_usage.specs.Tests.{HasFewFields};

use cl_ground::{Items, NoMemory};
use cl_partition::partition;
use cl_sig::{Class, Kind, Mark, SetShape, Sets, Signature};
use cl_usage::{class_of, shape_of};
use cl_value::{FieldType, Value};
use std::alloc::Global;
use std::test::Fail;

// A site of one or two fields: its text, and its second field where it has one.
#[derive(Clone, Copy)]
struct Site {
    kind: Kind,
    text: u32,
    second: Option<Mark>,
}

fn site_of(kind: Kind, text: u32, second: Option<Mark>) -> Site {
    Site { kind, text, second }
}

const INT: Option<Mark> = Some(Mark::Actual(FieldType::Int));

const INTO_INT: Option<Mark> = Some(Mark::Formal(FieldType::Int));

const INTO_LONG: Option<Mark> = Some(Mark::Formal(FieldType::Long));

const ONE: Option<Mark> = Some(Mark::Constant(Value::Int(1)));

const TWO: Option<Mark> = Some(Mark::Constant(Value::Int(2)));

fn fields_of(alloc: Global, site: Site) -> Result<Items<Mark>, NoMemory> {
    let text = Mark::Constant(Value::Text(site.text));
    match site.second {
        Some(second) => Items::from_slice(alloc, &[text, second]),
        None => Items::from_slice(alloc, &[text]),
    }
}

fn add(alloc: Global, sites: &mut Items<Signature>, site: Site) -> Result<(), NoMemory> {
    let fields = fields_of(alloc, site)?;
    sites.reserve(1)?;
    sites.push(Signature {
        kind: site.kind,
        fields,
        place: 100,
    });
    Ok(())
}

fn gather(alloc: Global, rows: &[Site]) -> Result<Items<Signature>, NoMemory> {
    let mut sites = Items::new(alloc);
    for row in rows {
        add(alloc, &mut sites, *row)?;
    }
    Ok(sites)
}

fn have_few_fields(sites: &[Signature]) -> bool
    ensures { IsTrue result → All HasFewFields sites.now }
{
    match sites {
        [] => true,
        [site, sites @ ..] => site.fields.len() <= 16 && have_few_fields(sites),
    }
}

// Whether the sets have these classes, in order.
fn have_classes(sites: &Items<Signature>, sets: &Sets, classes: &[Class]) -> bool
    requires few { length sites.now.items ≤ 1024 }
    requires fields { All HasFewFields sites.now.items }
    requires sets { IsPartition (map plain_signature sites.now.items) sets.now }
{
    if sets.count() as usize != classes.len() {
        return false;
    }
    for (set, class) in classes.iter().enumerate() {
        if class_of(sites, sets, set as u32) != *class {
            return false;
        }
    }
    true
}

// Whether the sites have these sets, and the sets these classes.
fn are_sorted(
    alloc: Global,
    sites: &Items<Signature>,
    numbers: &[u32],
    classes: &[Class],
) -> Result<bool, NoMemory> {
    if sites.len() > 1024 || !have_few_fields(sites.as_slice()) {
        return Ok(false);
    }
    let sets = partition(alloc, sites)?;
    Ok(sets.numbers() == numbers && have_classes(sites, &sets, classes))
}

fn are_so(
    alloc: Global,
    rows: &[Site],
    numbers: &[u32],
    classes: &[Class],
) -> Result<bool, NoMemory> {
    let sites = gather(alloc, rows)?;
    are_sorted(alloc, &sites, numbers, classes)
}

fn philosophers() -> [Site; 10] {
    [
        site_of(Kind::In, 0, None),
        site_of(Kind::In, 1, INT),
        site_of(Kind::In, 1, INT),
        site_of(Kind::Out, 1, INT),
        site_of(Kind::Out, 1, INT),
        site_of(Kind::Out, 0, None),
        site_of(Kind::Out, 1, INT),
        site_of(Kind::Eval, 2, INT),
        site_of(Kind::Out, 0, None),
        site_of(Kind::In, 2, INTO_INT),
    ]
}

// Literals are apart until an actual joins them.
fn literals() -> [Site; 3] {
    [
        site_of(Kind::Out, 0, ONE),
        site_of(Kind::In, 0, TWO),
        site_of(Kind::Out, 0, INT),
    ]
}

fn waits_for_long() -> [Site; 2] {
    [site_of(Kind::Out, 0, ONE), site_of(Kind::In, 0, INTO_LONG)]
}

#[test]
fn sets_and_classes_of_small_programs(rt: HostRuntime) -> Result<(), Fail> {
    let alloc = rt.alloc();
    let none: [Site; 0] = [];
    assert!(rt; are_so(alloc, &none, &[], &[])?);
    assert!(rt;
        are_so(
            alloc,
            &philosophers(),
            &[0, 1, 1, 1, 1, 0, 1, 2, 0, 2],
            &[Class::Counter, Class::Keyed(1), Class::Queue]
        )?
    );
    let literals = literals();
    let literals = literals.as_slice();
    assert!(rt;
        are_so(
            alloc,
            &literals[..2],
            &[0, 1],
            &[Class::Counter, Class::Counter]
        )?
    );
    assert!(rt;
        are_so(
            alloc,
            literals,
            &[0, 1, 1],
            &[Class::Counter, Class::Keyed(1)]
        )?
    );
    assert!(rt;
        are_so(
            alloc,
            &waits_for_long(),
            &[0, 1],
            &[Class::Counter, Class::Queue]
        )?
    );
    Ok(())
}

// Whether the set of the second and the third site has this shape.
fn is_shape(shape: &SetShape) -> bool {
    shape.set == 1
        && shape.class == Class::Keyed(1)
        && shape.sites.as_slice() == [1, 2].as_slice()
        && shape.common.kind == Kind::In
        && shape.common.fields.len() == 2
}

fn shapes(alloc: Global, sites: &Items<Signature>) -> Result<bool, NoMemory> {
    if sites.len() > 1024 || !have_few_fields(sites.as_slice()) {
        return Ok(false);
    }
    let sets = partition(alloc, sites)?;
    if sets.count() < 2 {
        return Ok(false);
    }
    let shape = shape_of(alloc, sites, &sets, 1)?;
    Ok(is_shape(&shape))
}

fn has_shape(alloc: Global) -> Result<bool, NoMemory> {
    let sites = gather(alloc, literals().as_slice())?;
    shapes(alloc, &sites)
}

#[test]
fn the_shape_of_two_sites(rt: HostRuntime) -> Result<(), Fail> {
    assert!(rt; has_shape(rt.alloc())?);
    Ok(())
}

// The last set and the number of sets of 512 `out`s and 512 `in`s, of which each pair may match or none.
fn last_of_many(alloc: Global, are_joined: bool) -> Result<Option<(u32, u32)>, NoMemory> {
    let mut sites = Items::new(alloc);
    for number in 0..512 {
        let (given, asked) = if are_joined {
            (INT, INTO_INT)
        } else {
            (
                Some(Mark::Constant(Value::Int(number))),
                Some(Mark::Constant(Value::Int(number + 512))),
            )
        };
        add(alloc, &mut sites, site_of(Kind::Out, 0, given))?;
        add(alloc, &mut sites, site_of(Kind::In, 0, asked))?;
    }
    last_of(alloc, &sites)
}

fn last_of(alloc: Global, sites: &Items<Signature>) -> Result<Option<(u32, u32)>, NoMemory> {
    if sites.len() != 1024 {
        return Ok(None);
    }
    let sets = partition(alloc, sites)?;
    match sets.numbers().last() {
        Some(last) => Ok(Some((*last, sets.count()))),
        None => Ok(None),
    }
}

#[test]
fn a_thousand_sites_in_one_set_and_in_a_thousand(rt: HostRuntime) -> Result<(), Fail> {
    assert_eq!(rt; last_of_many(rt.alloc(), true)?, Some((0, 1)));
    assert_eq!(rt; last_of_many(rt.alloc(), false)?, Some((1023, 1024)));
    Ok(())
}
