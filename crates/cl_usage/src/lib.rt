//! The classes and the shapes of sets.
//!
//! A class tells how a set can be stored, by what the text tells of its sites; the shape is what a store
//! needs to know of a set (`cl_sig/specs/Classes.antt`, `Shapes.antt`). The laws say what a store may rely
//! on: which templates match which tuples, that each request at a site suits the shape of its set, and that a
//! set can be made of each shape.
#![tactic(auto)]

mod class;
mod fields;
mod laws;
mod shape;

pub use class::class_of;
pub use laws::{
    each_field_is_keyed, each_request_suits, each_shape_is_storable, each_tuple_matches,
};
pub use shape::shape_of;
