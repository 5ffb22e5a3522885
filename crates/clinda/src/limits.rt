//! The limits of the language and of a run, pinned to their numbers.

use cl_ground::{
    DEFAULT_ENTRIES, DEFAULT_STEPS, MOST_ACTIVE, MOST_BYTES, MOST_CELLS, MOST_DEPTH, MOST_FIELDS,
    MOST_FUNCTIONS, MOST_NESTING, MOST_PRINTED, MOST_SITES, MOST_SIZE, MOST_STEPS,
};

const _: () = prove!(MOST_BYTES == 1048576);

const _: () = prove!(MOST_NESTING == 64);

const _: () = prove!(MOST_FUNCTIONS == 512);

const _: () = prove!(MOST_SITES == 1024);

const _: () = prove!(MOST_FIELDS == 16);

const _: () = prove!(MOST_SIZE == 65536);

const _: () = prove!(MOST_ACTIVE == 256);

const _: () = prove!(MOST_CELLS == 65536);

const _: () = prove!(MOST_PRINTED == 65536);

const _: () = prove!(MOST_DEPTH == 64);

const _: () = prove!(MOST_STEPS == 1099511627776);

const _: () = prove!(DEFAULT_STEPS == 1000000);

const _: () = prove!(DEFAULT_ENTRIES == 1048576);
