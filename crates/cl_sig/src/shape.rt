use crate::Signature;
use cl_ground::Items;

/// How a set can be stored, by what the text tells of its sites. (This project.)
#[derive(Clone, Copy, Debug, PartialEq, Eq)]
pub enum Class {
    /// All its tuples are equal.
    Counter,
    /// Each tuple matches each template.
    Queue,
    /// Each template asks for a value of this field, counted from 0, which isn't a text.
    Keyed(u32),
    /// Nothing of these.
    List,
}

/// What the text tells of a set. (This project.)
#[derive(Drop)]
pub struct SetShape {
    /// Its number, from 0.
    pub set: u32,
    /// Its class.
    pub class: Class,
    /// What all its sites have in common: kind and place of the least site, and a literal where all have
    /// the same.
    pub common: Signature,
    /// The numbers of its sites, in ascending order.
    pub sites: Items<u32>,
}
