ghost use Rattle.std.specs.Prelude.{◌≡◌, ◌≤◌, ◌||◌, length, map, slice_get, option_map, All, IfSome, is_some};
ghost use Rattle.std.specs.Option.{option_copied};
ghost use Rattle.std.specs.List.{list_all};
ghost use Rattle.cl_ground.specs.Room.{Room};
ghost use Rattle.cl_ground.specs.declared.limits.TheConstants.{MOST_FIELDS};
ghost use Rattle.cl_sig.specs.Classes.{members, constant_at, is_fixed, is_received, is_given, is_text, is_key, arity};
ghost use Rattle.cl_sig.specs.Views.{plain_signature};
ghost use Rattle.cl_usage.specs.Tests.{passes, first_of, HasFewFields};

use cl_sig::{Mark, Signature};
use cl_value::{FieldType, Value};

/// What a site of a set is asked at a field.
#[derive(Clone, Copy, Debug, PartialEq, Eq)]
pub enum Test {
    /// Has it this literal?
    Literal(Value),
    /// Is it a formal, or the site a producer?
    Received,
    /// Is it no formal, or the site a producer?
    Given,
}

// The mark at a field, or none past the last.
fn mark_at(site: &Signature, field: usize) -> Option<Mark>
    ensures { result ≡ slice_get site.now.fields.items field }
{
    if field < site.fields.len() {
        Some(*site.fields.at(field))
    } else {
        None
    }
}

impl Test {
    fn passes(self, site: &Signature, field: usize) -> bool
        ensures { result ≡ passes self field (plain_signature site.now) }
    {
        let mark = mark_at(site, field);
        match self {
            Test::Literal(literal) => match mark {
                Some(Mark::Constant(value)) => literal == value,
                _ => false,
            },
            Test::Received => site.kind.is_producer() || matches!(mark, Some(Mark::Formal(_))),
            Test::Given => site.kind.is_producer() || !matches!(mark, Some(Mark::Formal(_))),
        }
    }
}

// Whether each site of a set passes a test at a field.
fn all_pass(sites: &[Signature], numbers: &[u32], set: u32, field: usize, test: Test) -> bool
    ensures { result ≡ list_all (passes test field) (members (map plain_signature sites.now) numbers.now set) }
{
    match sites {
        [] => true,
        [site, sites @ ..] => match numbers {
            [] => true,
            [number, numbers @ ..] => {
                (*number != set || test.passes(site, field))
                    && all_pass(sites, numbers, set, field, test)
            }
        },
    }
}

/// The least site of a set, or none where the set has no site.
pub fn first_member<'a>(sites: &'a [Signature], numbers: &[u32], set: u32) -> Option<&'a Signature>
    requires { All HasFewFields sites.now }
    ensures value { option_map plain_signature (option_copied result) ≡ first_of (members (map plain_signature sites.now) numbers.now set) }
    ensures few { IfSome result (λ s. HasFewFields s.now) }
{
    match sites {
        [] => None,
        [site, sites @ ..] => match numbers {
            [] => None,
            [number, numbers @ ..] => {
                if *number == set {
                    Some(site)
                } else {
                    first_member(sites, numbers, set)
                }
            }
        },
    }
}

/// The literal that all sites of a set have at a field, or none.
pub fn literal_at(sites: &[Signature], numbers: &[u32], set: u32, field: usize) -> Option<Value>
    requires { All HasFewFields sites.now }
    ensures { result ≡ constant_at field (members (map plain_signature sites.now) numbers.now set) }
{
    match first_member(sites, numbers, set) {
        None => None,
        Some(first) => match mark_at(first, field) {
            Some(Mark::Constant(value)) => {
                if all_pass(sites, numbers, set, field, Test::Literal(value)) {
                    Some(value)
                } else {
                    None
                }
            }
            _ => None,
        },
    }
}

/// Whether all sites of a set have the same literal at a field.
pub fn is_fixed(sites: &[Signature], numbers: &[u32], set: u32, field: usize) -> bool
    requires { All HasFewFields sites.now }
    ensures { result ≡ is_fixed (members (map plain_signature sites.now) numbers.now set) field }
{
    literal_at(sites, numbers, set, field).is_some()
}

/// Whether all sites of a set have the same literal at a field, or each consumer has a formal there.
pub fn is_free(sites: &[Signature], numbers: &[u32], set: u32, field: usize) -> bool
    requires { All HasFewFields sites.now }
    ensures { let all = members (map plain_signature sites.now) numbers.now set in
        result ≡ (is_fixed all field || is_received all field) }
{
    is_fixed(sites, numbers, set, field) || all_pass(sites, numbers, set, field, Test::Received)
}

// Whether the field is a text.
fn is_text(sites: &[Signature], numbers: &[u32], set: u32, field: usize) -> bool
    requires { All HasFewFields sites.now }
    ensures { result ≡ is_text (members (map plain_signature sites.now) numbers.now set) field }
{
    match first_member(sites, numbers, set) {
        None => false,
        Some(first) => match mark_at(first, field) {
            None => false,
            Some(mark) => mark.type_of() == FieldType::Text,
        },
    }
}

/// Whether a field can be the key of a set.
pub fn is_key(sites: &[Signature], numbers: &[u32], set: u32, field: usize) -> bool
    requires { All HasFewFields sites.now }
    ensures { result ≡ is_key (members (map plain_signature sites.now) numbers.now set) field }
{
    !is_text(sites, numbers, set, field)
        && !is_fixed(sites, numbers, set, field)
        && all_pass(sites, numbers, set, field, Test::Given)
}

/// How many fields the tuples of a set have, at most 16.
pub fn arity(sites: &[Signature], numbers: &[u32], set: u32) -> u32
    requires { All HasFewFields sites.now }
    ensures value { result ≡ arity (members (map plain_signature sites.now) numbers.now set) }
    ensures few { result ≤ MOST_FIELDS }
{
    match first_member(sites, numbers, set) {
        None => 0,
        Some(first) => first.fields.len() as u32,
    }
}
