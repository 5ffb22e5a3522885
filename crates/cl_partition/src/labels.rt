ghost use Rattle.std.specs.Prelude.{◌≡◌, ◌<◌, ◌≤◌, length, map, slice_index, EachIndex};
ghost use Rattle.cl_ground.specs.Room.{Room};
ghost use Rattle.cl_sig.specs.Chains.{may_pair};
ghost use Rattle.cl_sig.specs.Views.{plain_signature};
ghost use Rattle.cl_partition.specs.Labels.{relabelled, joined, plain_sites, AreLabels, Coarser, JoinedWith, JoinedBefore};

use cl_ground::Items;
use cl_sig::{Signature, may_match};

// Whether two sites are a producer and a consumer, in either order, that may match.
fn may_pair(a: &Signature, b: &Signature) -> bool
    ensures { result ≡ may_pair (plain_signature a.now) (plain_signature b.now) }
{
    match (a.kind.is_producer(), b.kind.is_producer()) {
        (true, false) => may_match(a, b),
        (false, true) => may_match(b, a),
        (true, true) | (false, false) => false,
    }
}

// Gives each site of one label another label.
fn relabel(labels: &mut [usize], from: usize, to: usize)
    ensures { labels.new ≡ map (relabelled from to) labels.old }
{
    for label in labels.iter_mut() {
        if *label == from {
            *label = to;
        }
    }
}

// Joins what two sites are joined with, under the lesser of their labels. Nothing is done where they are
// joined already.
#[tactic(auto, using(crate::proofs::LabelLaws::joined_same))]
fn join(labels: &mut [usize], a: usize, b: usize)
    requires a { a < length labels.old }
    requires b { b < length labels.old }
    ensures { labels.new ≡ joined (slice_index labels.old a) (slice_index labels.old b) labels.old }
{
    let first = labels[a];
    let second = labels[b];
    if first == second {
        return;
    }
    if first < second {
        relabel(labels, second, first);
    } else {
        relabel(labels, first, second);
    }
}

// Joins a site with each earlier neighbour.
fn join_earlier(sites: &Items<Signature>, labels: &mut [usize], site: usize)
    requires site { site < length sites.now.items }
    requires labels { AreLabels (plain_sites sites.now.items) labels.old }
    ensures labels { AreLabels (plain_sites sites.now.items) labels.new }
    ensures coarser { Coarser labels.old labels.new }
    ensures joined { JoinedWith (plain_sites sites.now.items) labels.new site site }
{
    for other in 0..site {
        if may_pair(sites.at(site), sites.at(other)) {
            join(labels, site, other);
        }
    }
}

// Labels each site with itself.
fn label_each(labels: &mut [usize])
    ensures { EachIndex labels.new (λ k. slice_index labels.new k ≡ k) }
{
    for site in 0..labels.len() {
        labels[site] = site;
    }
}

/// Labels the sites so that two have one label exactly where they are in one set, by one look at each pair.
pub fn label_all(sites: &Items<Signature>, labels: &mut [usize])
    requires { length labels.old ≡ length sites.now.items }
    ensures labels { AreLabels (plain_sites sites.now.items) labels.new }
    ensures joined { JoinedBefore (plain_sites sites.now.items) labels.new (length sites.now.items) }
{
    label_each(labels);
    for site in 0..sites.len() {
        join_earlier(sites, labels, site);
    }
}
