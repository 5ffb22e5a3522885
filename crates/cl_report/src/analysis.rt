//! The text of the analysis, line by line.

ghost use Rattle.std.specs.Prelude.{◌≡◌, ℕ, ◌≤◌, ◌++◌, length, map, OnOk, IfOk};
ghost use Rattle.cl_ground.specs.Room.{Room};
ghost use Rattle.cl_sig.specs.Numbers.{count_of};
ghost use Rattle.cl_sig.specs.Shapes.{sites_from};
ghost use Rattle.cl_sig.specs.Signatures.{PlainSignature};
ghost use Rattle.cl_sig.specs.Views.{plain_signature};
ghost use Rattle.cl_code.specs.Plain.{PlainProgram, plain_program};
ghost use Rattle.cl_report.specs.Positions.{IsAt, position_text, place_text};
ghost use Rattle.cl_report.specs.Analysis.{counts_line, site_line, site_lines, class_text, numbers_text, set_line, set_lines, analysis_text};

use crate::field::{add_fields, kind_word};
use crate::position::{Position, beginning, position_of};
use crate::text::Text;
use cl_code::Program;
use cl_ground::{Items, NoMemory};
use cl_sig::{Class, Signature};
use std::alloc::Global;

// Puts the first line at the end.
fn add_counts(text: &mut Text, sites: usize, sets: u32) -> Result<(), NoMemory>
    ensures { OnOk result (text.new ≡ text.old ++ counts_line sites sets) }
{
    text.add(b"sites ")?;
    text.add_number(sites as u64)?;
    text.add(b" sets ")?;
    text.add_number(u64::from(sets))?;
    text.add(b"\n")
}

// Puts a position at the end, as it is printed.
fn add_position(text: &mut Text, position: Position) -> Result<(), NoMemory>
    ensures { OnOk result (text.new ≡ text.old ++ position_text position.line position.column) }
{
    text.add_number(position.line)?;
    text.add(b":")?;
    text.add_number(position.column)
}

// Puts the line of an operation at this position at the end.
fn add_site(
    text: &mut Text,
    texts: &[Items<u8>],
    number: usize,
    site: &Signature,
    position: Position,
    set: u32,
) -> Result<(), NoMemory>
    ensures { OnOk result (text.new ≡ text.old ++ site_line (position_text position.line position.column) (map (λ xs. xs.items) texts.now) number (plain_signature site.now) set) }
{
    text.add(b"site ")?;
    text.add_number(number as u64)?;
    text.add(b" ")?;
    add_position(text, position)?;
    text.add(b" ")?;
    text.add(kind_word(site.kind))?;
    text.add(b" ")?;
    add_fields(text, texts, site.fields.as_slice())?;
    text.add(b" set ")?;
    text.add_number(u64::from(set))?;
    text.add(b"\n")
}

// Puts the lines of all operations at the end. The source is gone over once where their places ascend.
fn add_sites(
    text: &mut Text,
    source: &[u8],
    texts: &[Items<u8>],
    sites: &[Signature],
    sets: &[u32],
) -> Result<(), NoMemory>
    requires { length sites.now ≡ length sets.now }
    ensures { OnOk result (text.new ≡ text.old ++ site_lines source.now (map (λ xs. xs.items) texts.now) 0 (map plain_signature sites.now) sets.now) }
{
    let mut position = beginning(source);
    for (number, site) in sites.iter().enumerate() {
        position = position_of(source, position, site.place as usize);
        add_site(text, texts, number, site, position, sets[number])?;
    }
    Ok(())
}

// Puts a class at the end.
fn add_class(text: &mut Text, class: Class) -> Result<(), NoMemory>
    ensures { OnOk result (text.new ≡ text.old ++ class_text class) }
{
    match class {
        Class::Counter => text.add(b"Counter"),
        Class::Queue => text.add(b"Queue"),
        Class::Keyed(field) => {
            text.add(b"Keyed(")?;
            text.add_number(u64::from(field))?;
            text.add(b")")
        }
        Class::List => text.add(b"List"),
    }
}

// Puts the operations of a set at the end, each behind a blank.
fn add_members(text: &mut Text, sets: &[u32], set: usize) -> Result<(), NoMemory>
    ensures { OnOk result (text.new ≡ text.old ++ numbers_text (sites_from 0 sets.now set)) }
{
    for (site, number) in sets.iter().enumerate() {
        if *number as usize == set {
            text.add(b" ")?;
            text.add_number(site as u64)?;
        }
    }
    Ok(())
}

// Puts the line of a set at the end.
fn add_set(text: &mut Text, sets: &[u32], number: usize, class: Class) -> Result<(), NoMemory>
    ensures { OnOk result (text.new ≡ text.old ++ set_line sets.now number class) }
{
    text.add(b"set ")?;
    text.add_number(number as u64)?;
    text.add(b" ")?;
    add_class(text, class)?;
    text.add(b" sites")?;
    add_members(text, sets, number)?;
    text.add(b"\n")
}

// Puts the lines of all sets at the end.
fn add_sets(text: &mut Text, sets: &[u32], classes: &[Class]) -> Result<(), NoMemory>
    ensures { OnOk result (text.new ≡ text.old ++ set_lines sets.now 0 classes.now) }
{
    for (number, class) in classes.iter().enumerate() {
        add_set(text, sets, number, *class)?;
    }
    Ok(())
}

/// The text of the analysis of a program: each operation with its place in the source, its fields and its
/// set, and each set with its class and its operations. `NoMemory` comes where the allocator refused a
/// growth.
pub fn report(alloc: Global, program: &Program, source: &[u8]) -> Result<Items<u8>, NoMemory>
    ensures text { IfOk result (λ text. text.items ≡ analysis_text (plain_program program.now) source.now) }
{
    let parts = program.parts();
    let sites = parts.sites.as_slice();
    let sets = parts.sets.numbers();
    let texts = parts.texts.as_slice();
    let mut text = Text::new(alloc);
    add_counts(&mut text, sites.len(), parts.sets.count())?;
    add_sites(&mut text, source, texts, sites, sets)?;
    add_sets(&mut text, sets, parts.classes.as_slice())?;
    Ok(text.into_bytes())
}
