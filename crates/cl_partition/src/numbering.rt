ghost use Rattle.cl_ground.specs.declared.limits.TheConstants.{MOST_SITES};
ghost use Rattle.std.specs.Prelude.{◌≡◌, ◌<◌, ◌≤◌, length, slice_index, EachIndex, IfOk, IsTrue};
ghost use Rattle.cl_ground.specs.Room.{Room};
ghost use Rattle.cl_sig.specs.Numbers.{in_order};
ghost use Rattle.cl_sig.specs.Partitions.{IsPartition};
ghost use Rattle.cl_partition.specs.Labels.{plain_sites, AreLow, AreLabels, JoinedBefore, SameNumbers};

use crate::labels::label_all;
use cl_ground::{Items, NoMemory};
use cl_sig::{Sets, Signature};
use std::alloc::{AllocError, Global};

fn labels_of(alloc: Global, sites: &Items<Signature>) -> Result<Vec<usize>, NoMemory>
    ensures labels { IfOk result (λ labels. AreLabels (plain_sites sites.now.items) labels.items) }
    ensures joined { IfOk result (λ labels. JoinedBefore (plain_sites sites.now.items) labels.items (length sites.now.items)) }
{
    match Vec::from_elem(alloc, 0, sites.len()) {
        Err(AllocError) => Err(NoMemory),
        Ok(mut labels) => {
            label_all(sites, &mut labels);
            Ok(labels)
        }
    }
}

// Numbers the labels by their least sites.
fn numbered(alloc: Global, labels: &[usize]) -> Result<Sets, NoMemory>
    requires few { length labels.now ≤ MOST_SITES }
    requires low { AreLow labels.now }
    ensures same { IfOk result (SameNumbers labels.now) }
    ensures order { IfOk result (λ sets. IsTrue (in_order 0 sets)) }
{
    let mut numbers = Items::new(alloc);
    numbers.reserve(labels.len())?;
    let mut count = 0;
    for site in 0..labels.len() {
        let least = labels[site];
        if least == site {
            numbers.push(count);
            count += 1;
        } else {
            let number = *numbers.at(least);
            numbers.push(number);
        }
    }
    Ok(Sets::new(numbers, count))
}

/// The sets of the sites of a program: two sites are in one set exactly where a chain of sites that may
/// match leads from one to the other. Sets are numbered from 0 by their least sites.
///
/// It asks each pair of sites once whether it may match. `NoMemory` comes where the allocator refused room
/// for the numbers.
pub fn partition(alloc: Global, sites: &Items<Signature>) -> Result<Sets, NoMemory>
    requires few { length sites.now.items ≤ MOST_SITES }
    ensures chains { IfOk result (IsPartition (plain_sites sites.now.items)) }
{
    let labels = labels_of(alloc, sites)?;
    numbered(alloc, labels.as_slice())
}
