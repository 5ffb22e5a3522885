use cl_ground::Items;
use std::marker::Model;

/// The number of the set of each site. (This project.)
///
/// Contracts see the numbers in order of the sites. Sets are numbered from 0 in order of their least sites.
#[derive(Drop)]
pub struct Sets {
    numbers: Items<u32>,
    count: u32,
}

impl Model for Sets {
    ghost use Rattle.std.specs.Prelude.{◌≡◌, ℕ, List, IsTrue};
    ghost use Rattle.cl_sig.specs.Numbers.{in_order, count_from};

    ghost Value = { List ℕ };

    ghost view = { λ s. s.numbers.items };

    ghost invariant = { λ s. IsTrue (in_order 0 s.numbers.items) × (s.count ≡ count_from 0 s.numbers.items) };
}

impl Sets {
    ghost use Rattle.std.specs.Prelude.{◌≡◌, ◌<◌, length, slice_get, IsTrue, Some};
    ghost use Rattle.cl_ground.specs.Room.{Room};
    ghost use Rattle.cl_sig.specs.Numbers.{in_order, count_from, count_of};

    /// The sets of sites with these numbers, of which there are so many. It takes no memory.
    pub fn new(numbers: Items<u32>, count: u32) -> Sets
        requires order { IsTrue (in_order 0 numbers.items) }
        requires count { count ≡ count_of numbers.items }
        ensures { result ≡ numbers.items }
    {
        Sets { numbers, count }
    }

    /// How many sets there are.
    pub fn count(&self) -> u32
        ensures { result ≡ count_of self.now }
    {
        self.count
    }

    /// The number of the set of a site, from 0. It takes no memory.
    pub fn set_of(&self, site: u32) -> u32
        requires { site < length self.now }
        ensures value { slice_get self.now site ≡ Some result }
        ensures within { result < count_of self.now }
    {
        *self.numbers.at(site as usize)
    }

    /// The number of the set of each site, in order of the sites.
    pub fn numbers(&self) -> &[u32]
        ensures value { result.now ≡ self.now }
        ensures order { IsTrue (in_order 0 result.now) }
    {
        self.numbers.as_slice()
    }
}
