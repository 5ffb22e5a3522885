ghost use Rattle.cl_ground.specs.declared.limits.TheConstants.{MOST_SITES};
ghost use Rattle.std.specs.Prelude.{◌≡◌, ◌<◌, ◌≤◌, ◌||◌, length, map, All};
ghost use Rattle.cl_ground.specs.Room.{Room};
ghost use Rattle.cl_sig.specs.Classes.{members, class};
ghost use Rattle.cl_sig.specs.Classes as spec;
ghost use Rattle.cl_sig.specs.Fields.{all_below, first_below};
ghost use Rattle.cl_sig.specs.Numbers.{count_of};
ghost use Rattle.cl_sig.specs.Partitions.{IsPartition};
ghost use Rattle.cl_sig.specs.Views.{plain_signature};
ghost use Rattle.cl_usage.specs.Tests.{HasFewFields};

use crate::fields::{arity, is_fixed, is_free, is_key};
use cl_ground::Items;
use cl_sig::{Class, Sets, Signature};

// Whether each of the first fields has one literal at all sites of a set.
fn all_fixed(sites: &[Signature], numbers: &[u32], set: u32, count: u32) -> bool
    requires { All HasFewFields sites.now }
    ensures { result ≡ all_below count (spec.is_fixed (members (map plain_signature sites.now) numbers.now set)) }
{
    for field in 0..count {
        if !is_fixed(sites, numbers, set, field as usize) {
            return false;
        }
    }
    true
}

// Whether each of the first fields has one literal at all sites of a set, or a formal at each consumer.
fn all_fixed_or_received(sites: &[Signature], numbers: &[u32], set: u32, count: u32) -> bool
    requires { All HasFewFields sites.now }
    ensures { let all = members (map plain_signature sites.now) numbers.now set in
        result ≡ all_below count (λ f. spec.is_fixed all f || spec.is_received all f) }
{
    for field in 0..count {
        if !is_free(sites, numbers, set, field as usize) {
            return false;
        }
    }
    true
}

// The first of the first fields that can be the key.
fn first_key(sites: &[Signature], numbers: &[u32], set: u32, count: u32) -> Option<u32>
    requires { All HasFewFields sites.now }
    ensures { result ≡ first_below count (spec.is_key (members (map plain_signature sites.now) numbers.now set)) }
{
    for field in 0..count {
        if is_key(sites, numbers, set, field as usize) {
            return Some(field);
        }
    }
    None
}

/// The class of a set: the first that fits. It takes no memory.
pub fn class_of(sites: &Items<Signature>, sets: &Sets, set: u32) -> Class
    requires few { length sites.now.items ≤ MOST_SITES }
    requires fields { All HasFewFields sites.now.items }
    requires sets { IsPartition (map plain_signature sites.now.items) sets.now }
    requires exists { set < count_of sets.now }
    ensures class { result ≡ class (members (map plain_signature sites.now.items) sets.now set) }
{
    let count = arity(sites.as_slice(), sets.numbers(), set);
    if all_fixed(sites.as_slice(), sets.numbers(), set, count) {
        return Class::Counter;
    }
    if all_fixed_or_received(sites.as_slice(), sets.numbers(), set, count) {
        return Class::Queue;
    }
    match first_key(sites.as_slice(), sets.numbers(), set, count) {
        Some(field) => Class::Keyed(field),
        None => Class::List,
    }
}
