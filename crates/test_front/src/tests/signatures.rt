// The signatures of the operations of sources, and the numbers of their places and texts.

use super::read;
use cl_ast::Unit;
use cl_listing::Listing;
use cl_sig::Mark::{Actual, Constant, Formal};
use cl_sig::{Kind, Mark, Signature};
use cl_sites::sites;
use cl_types::{Typed, check};
use cl_value::FieldType;
use cl_value::Value::{Int, Long, Text};
use std::alloc::Global;

const INT: FieldType = FieldType::Int;

// The kind of an operation, its place and its fields.
type Told = (Kind, u32, &'static [Mark]);

// Whether the signature is this one.
fn is_told(found: &Signature, wanted: &Told) -> bool {
    let (kind, place, fields) = *wanted;
    found.kind == kind && found.place == place && found.fields.as_slice() == fields
}

// Whether the signatures are these, in their order.
fn agree(sites: &[Signature], wanted: &[Told]) -> bool {
    if sites.len() != wanted.len() {
        return false;
    }
    for i in 0..wanted.len() {
        if !is_told(&sites[i], &wanted[i]) {
            return false;
        }
    }
    true
}

// Whether the operations of the tree have these signatures.
fn tells(alloc: Global, typed: &Typed, wanted: &[Told]) -> bool {
    match sites(alloc, typed) {
        Ok(sites) => agree(sites.as_slice(), wanted),
        Err(_) => false,
    }
}

// Whether a tree has these signatures, in the order of its text.
fn has_sites(alloc: Global, unit: Unit, wanted: &[Told]) -> bool {
    match check(alloc, unit) {
        Ok(typed) => tells(alloc, &typed, wanted),
        Err(_) => false,
    }
}

// A source, and its signatures.
struct Row {
    source: &'static [u8],
    wanted: &'static [Told],
}

// Constants behind minuses, calls as whole fields and within sums, and an operation in a field.
const FIELDS: &[u8] =
    b"#define C 5\nint g;int f(int n){return n;}real_main(){out(\"x\",-C);out(\"x\",- -5);\
    out(\"y\",-'a',2147483648);eval(\"e\",f(1),g,f(1)+1);out(\"x\",inp(\"y\",?g,C));}";

const OF_FIELDS: &[Told] = &[
    (Kind::Out, 53, &[Constant(Text(0)), Constant(Int(-5))]),
    (Kind::Out, 65, &[Constant(Text(0)), Constant(Int(5))]),
    (
        Kind::Out,
        79,
        &[
            Constant(Text(1)),
            Constant(Int(-97)),
            Constant(Long(2147483648)),
        ],
    ),
    (
        Kind::Eval,
        104,
        &[Constant(Text(2)), Actual(INT), Actual(INT), Actual(INT)],
    ),
    (Kind::Out, 128, &[Constant(Text(0)), Actual(INT)]),
    (
        Kind::Inp,
        136,
        &[Constant(Text(1)), Formal(INT), Constant(Int(5))],
    ),
];

// A source that hands tasks to workers.
const WORKERS: &[u8] = b"#define TASKS 3\n\
    #define WORKERS 4\n\
    int work(int w) {\n  \
    int t, n;\n  \
    n = 0;\n  \
    while (1) {\n    \
    in(\"task\", ?t);\n    \
    if (t < 0) return n;\n    \
    out(\"result\", t, t % 7);\n    \
    n++;\n  \
    }\n\
    }\n\
    real_main() {\n  \
    int i, r, sum;\n  \
    for (i = 0; i < WORKERS; i++) eval(\"worker\", work(i));\n  \
    for (i = 0; i < TASKS; i++) out(\"task\", i);\n  \
    sum = 0;\n  \
    for (i = 0; i < TASKS; i++) {\n    \
    in(\"result\", i, ?r);\n    \
    sum += r;\n  \
    }\n  \
    for (i = 0; i < WORKERS; i++) out(\"task\", -1);\n  \
    for (i = 0; i < WORKERS; i++) in(\"worker\", ?r);\n  \
    printf(\"%d\\n\", sum);\n\
    }\n";

const OF_WORKERS: &[Told] = &[
    (Kind::In, 91, &[Constant(Text(0)), Formal(INT)]),
    (
        Kind::Out,
        136,
        &[Constant(Text(1)), Actual(INT), Actual(INT)],
    ),
    (Kind::Eval, 239, &[Constant(Text(2)), Actual(INT)]),
    (Kind::Out, 294, &[Constant(Text(0)), Actual(INT)]),
    (
        Kind::In,
        357,
        &[Constant(Text(1)), Actual(INT), Formal(INT)],
    ),
    (Kind::Out, 428, &[Constant(Text(0)), Constant(Int(-1))]),
    (Kind::In, 477, &[Constant(Text(2)), Formal(INT)]),
];

// The dining philosophers.
const PHILOSOPHERS: &[u8] = b"#include <stdio.h>\n\
    #define NUM 5\n\
    #define MEALS 3\n\
    \n\
    /* one philosopher, seat i */\n\
    int phil(int i)\n\
    {\n  \
    int m;\n  \
    for (m = 0; m < MEALS; m++) {\n    \
    in(\"room ticket\");\n    \
    in(\"chopstick\", i);\n    \
    in(\"chopstick\", (i + 1) % NUM);\n    \
    out(\"chopstick\", i);\n    \
    out(\"chopstick\", (i + 1) % NUM);\n    \
    out(\"room ticket\");\n  \
    }\n  \
    return i;\n\
    }\n\
    \n\
    real_main()\n\
    {\n  \
    int i, r, sum;\n  \
    for (i = 0; i < NUM; i++) {\n    \
    out(\"chopstick\", i);\n    \
    eval(\"phil\", phil(i));\n    \
    if (i < NUM - 1) out(\"room ticket\");\n  \
    }\n  \
    sum = 0;\n  \
    for (i = 0; i < NUM; i++) {\n    \
    in(\"phil\", ?r);\n    \
    sum += r;\n  \
    }\n  \
    printf(\"%d\\n\", sum);\n\
    }\n";

const OF_PHILOSOPHERS: &[Told] = &[
    (Kind::In, 143, &[Constant(Text(0))]),
    (Kind::In, 166, &[Constant(Text(1)), Actual(INT)]),
    (Kind::In, 190, &[Constant(Text(1)), Actual(INT)]),
    (Kind::Out, 226, &[Constant(Text(1)), Actual(INT)]),
    (Kind::Out, 251, &[Constant(Text(1)), Actual(INT)]),
    (Kind::Out, 288, &[Constant(Text(0))]),
    (Kind::Out, 392, &[Constant(Text(1)), Actual(INT)]),
    (Kind::Eval, 417, &[Constant(Text(2)), Actual(INT)]),
    (Kind::Out, 461, &[Constant(Text(0))]),
    (Kind::In, 530, &[Constant(Text(2)), Formal(INT)]),
];

const ROWS: &[Row] = &[
    Row {
        source: FIELDS,
        wanted: OF_FIELDS,
    },
    Row {
        source: WORKERS,
        wanted: OF_WORKERS,
    },
    Row {
        source: PHILOSOPHERS,
        wanted: OF_PHILOSOPHERS,
    },
];

fn is_so(alloc: Global, row: &Row) -> bool {
    match read(alloc, row.source) {
        Ok(unit) => has_sites(alloc, unit, row.wanted),
        Err(_) => false,
    }
}

#[test]
fn signatures_are_told_in_the_order_of_the_text(rt: HostRuntime) {
    for row in ROWS {
        assert!(rt; is_so(rt.alloc(), row));
    }
}

// A source, the places of its operations and its texts.
struct Listed {
    source: &'static [u8],
    sites: &'static [u32],
    texts: &'static [&'static [u8]],
}

const LISTED: &[Listed] = &[
    Listed {
        source: b"real_main(){out(\"a\",inp(\"b\",rdp(\"a\",1)));}",
        sites: &[12, 20, 28],
        texts: &[b"a", b"b"],
    },
    Listed {
        source: b"real_main(){for(;;out(\"c\"))rd(\"a\");printf(\"p\");}",
        sites: &[18, 27],
        texts: &[b"c", b"a"],
    },
    Listed {
        source: b"int f(){return inp(2);}real_main(){eval(f(),\"x\");}",
        sites: &[15, 35],
        texts: &[b"x"],
    },
];

impl Listed {
    // Whether each of the places and texts has its number, and no other place or text has one.
    fn is_in(&self, listing: &Listing<'_>) -> bool {
        for number in 0..self.sites.len() {
            if listing.site_at(self.sites[number]) != Some(number) {
                return false;
            }
        }
        for number in 0..self.texts.len() {
            if listing.text_number(self.texts[number]) != Some(number) {
                return false;
            }
        }
        listing.sites() == self.sites
            && listing.texts().len() == self.texts.len()
            && listing.site_at(1).is_none()
            && listing.text_number(b"nowhere").is_none()
    }

    // Whether the tree is listed so.
    fn is_of(&self, alloc: Global, unit: &Unit) -> bool {
        match Listing::new(alloc, unit) {
            Ok(listing) => self.is_in(&listing),
            Err(_) => false,
        }
    }

    // Whether the source is listed so.
    fn is_so(&self, alloc: Global) -> bool {
        match read(alloc, self.source) {
            Ok(unit) => self.is_of(alloc, &unit),
            Err(_) => false,
        }
    }
}

#[test]
fn operations_and_texts_are_numbered_in_the_order_of_the_text(rt: HostRuntime) {
    for listed in LISTED {
        assert!(rt; listed.is_so(rt.alloc()), "{:?}", listed.sites);
    }
}
