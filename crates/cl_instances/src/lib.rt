//! What a process of a text without faults asks for is an instance of the signature of its site, and so is what its live tuple lands. So it
//! suits the shape of its set, and what is added at one set matches nothing that is asked at another. A start of the text fits a program that
//! has its operations and functions.
//!
//! The crate has definitions and laws alone. A law is a call that does nothing, whose clauses say what holds.
#![tactic(auto)]

mod laws;

pub use laws::{
    acts_of_two_sets_never_match, each_act_is_an_instance, each_request_is_an_instance,
    each_request_suits_its_set, each_source_is_in_order, each_start_fits_its_program,
    each_value_is_typed,
};
