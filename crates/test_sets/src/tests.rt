mod classes;
mod rows;
mod set_core;
mod set_state;
mod suiting;
mod threads;
mod tickets;
mod trial;
