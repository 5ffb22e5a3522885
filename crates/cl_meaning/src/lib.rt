//! What a program means: the demand of each of its processes after each list of replies.
//!
//! The crate has definitions alone, over the trees that the parser gives. (ISO/IEC 9899:1999, 6.5 to 6.9, for the part of C; Gelernter 1985 for
//! the operations; traps, ticks and limits: this project.)
#![tactic(auto)]
