// Sources of great length, and with as many functions and operations as there may be.

use super::Verdict::{Syntax, TooDeep, Typed, Types};
use super::{Verdict, judge, read, repeated};
use cl_types::TypeKind::{TooManyFunctions, TooManySites, TwiceDeclared, WrongCount};
use std::alloc::{AllocError, Global};
use std::test::Fail;

// So many parts between two ends.
struct Long {
    ends: (&'static [u8], &'static [u8]),
    part: &'static [u8],
    count: u32,
}

impl Long {
    // The source.
    fn source(&self, alloc: Global) -> Result<Vec<u8>, AllocError> {
        repeated(alloc, self.ends, (self.part, b""), b"", self.count)
    }

    // Whether the source has a tree, or is refused as is wanted.
    fn is_read(&self, alloc: Global, wanted: Option<Verdict>) -> Result<bool, AllocError> {
        let source = self.source(alloc)?;
        Ok(refusal(alloc, &source) == wanted)
    }

    // Whether judging the source comes to what is wanted.
    fn is_judged(&self, alloc: Global, wanted: Verdict) -> Result<bool, AllocError> {
        let source = self.source(alloc)?;
        Ok(judge(alloc, &source) == wanted)
    }
}

// Why the source has no tree, if it has none.
fn refusal(alloc: Global, source: &[u8]) -> Option<Verdict> {
    match read(alloc, source) {
        Ok(_) => None,
        Err(verdict) => Some(verdict),
    }
}

// Long sources, and why each has no tree, if it has none.
const LONG: &[(Long, Option<Verdict>)] = &[
    (
        Long {
            ends: (b"f(){x=", b""),
            part: b"(",
            count: 20_000,
        },
        Some(TooDeep(69)),
    ),
    (
        Long {
            ends: (b"", b""),
            part: b"(",
            count: 100_000,
        },
        Some(Syntax(0)),
    ),
    (
        Long {
            ends: (b"f(){", b"}"),
            part: b";",
            count: 20_000,
        },
        None,
    ),
    (
        Long {
            ends: (b"f(){x=1", b";}"),
            part: b"-1",
            count: 20_000,
        },
        None,
    ),
    (
        Long {
            ends: (b"f(){g(1", b");}"),
            part: b",a",
            count: 20_000,
        },
        None,
    ),
    (
        Long {
            ends: (b"", b""),
            part: b"int a;",
            count: 20_000,
        },
        None,
    ),
];

// Sources with as many operations as there may be, and what judging each comes to.
const OPERATIONS: &[(Long, Verdict)] = &[
    (
        Long {
            ends: (b"f(){}real_main(){", b"}"),
            part: b"out(1);",
            count: 1_024,
        },
        Typed,
    ),
    (
        Long {
            ends: (b"real_main(){", b"in(2);}"),
            part: b"out(1);",
            count: 1_024,
        },
        Types(7180, TooManySites),
    ),
    (
        Long {
            ends: (b"real_main(){", b"if(inp(2));}"),
            part: b"out(1);",
            count: 1_024,
        },
        Types(7183, TooManySites),
    ),
    (
        Long {
            ends: (b"real_main(){", b"in(2);out(inp(2));}"),
            part: b"out(1);",
            count: 1_022,
        },
        Types(7176, TooManySites),
    ),
    (
        Long {
            ends: (b"real_main(){", b"out(1,2,3,4,5,6,7,8,9,1,2,3,4,5,6,7,8);}"),
            part: b"out(1);",
            count: 1_024,
        },
        Types(7180, WrongCount),
    ),
];

#[test]
fn long_sources_are_read(rt: HostRuntime) -> Result<(), Fail> {
    for (long, wanted) in LONG {
        assert!(rt; long.is_read(rt.alloc(), *wanted)?, "{}", long.count);
    }
    Ok(())
}

#[test]
fn operations_are_limited(rt: HostRuntime) -> Result<(), Fail> {
    for (long, wanted) in OPERATIONS {
        assert!(rt; long.is_judged(rt.alloc(), *wanted)?, "{wanted:?}");
    }
    Ok(())
}

// Letters, of which names are made.
const LETTERS: &[u8; 32] = b"abcdefghijklmnopqrstuvwxyzABCDEF";

// So many functions of different names, at most 1,024, and an end.
fn functions(alloc: Global, count: u32, end: &[u8]) -> Result<Vec<u8>, AllocError> {
    let mut source = Vec::new(alloc);
    let mut left = count;
    for first in LETTERS {
        for second in LETTERS {
            if left > 0 {
                source.extend_from_slice(&[b'_', *first, *second])?;
                source.extend_from_slice(b"(){}")?;
                left -= 1;
            }
        }
    }
    source.extend_from_slice(end)?;
    Ok(source)
}

// What so many functions of 7 bytes each come to, with this end.
fn judge_functions(alloc: Global, count: u32, end: &[u8]) -> Result<Verdict, AllocError> {
    let source = functions(alloc, count, end)?;
    Ok(judge(alloc, &source))
}

#[test]
fn functions_are_limited(rt: HostRuntime) -> Result<(), Fail> {
    let alloc = rt.alloc();
    let main = b"real_main(){}";
    assert_eq!(rt; judge_functions(alloc, 511, main)?, Typed);
    assert_eq!(rt;
        judge_functions(alloc, 512, main)?,
        Types(3584, TooManyFunctions)
    );
    let twice = b"_aa(){}real_main(){}";
    assert_eq!(rt;
        judge_functions(alloc, 512, twice)?,
        Types(3584, TwiceDeclared)
    );
    Ok(())
}
