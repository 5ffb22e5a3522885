// How deep parts of a source may stand in one another.

use super::Verdict::{TooDeep, Types};
use super::{Verdict, judge, repeated};
use cl_ast::ParseEnd;
use cl_ground::MOST_BYTES;
use cl_parse_expr::expression;
use cl_token::lex;
use cl_types::TypeKind;
use std::alloc::{AllocError, Global};
use std::test::Fail;

// A part that counts for nesting.
struct Nested {
    // What stands before the outermost and behind it.
    ends: (&'static [u8], &'static [u8]),
    // Its beginning and its end.
    around: (&'static [u8], &'static [u8]),
    // What stands inside the innermost.
    middle: &'static [u8],
    // How many may stand in one another.
    most: u32,
    // The token that opens the first counted part in it.
    first: u32,
    // How many tokens lie from one such token to the next.
    tokens: u32,
}

const NESTED: &[Nested] = &[
    Nested {
        ends: (b"f(){x=", b";}"),
        around: (b"(", b")"),
        middle: b"1",
        most: 63,
        first: 6,
        tokens: 1,
    },
    Nested {
        ends: (b"f(){x=", b";}"),
        around: (b"- ", b""),
        middle: b"1",
        most: 63,
        first: 6,
        tokens: 1,
    },
    Nested {
        ends: (b"f(){x=", b";}"),
        around: (b"!", b""),
        middle: b"1",
        most: 63,
        first: 6,
        tokens: 1,
    },
    Nested {
        ends: (b"f(){x=", b";}"),
        around: (b"a[", b"]"),
        middle: b"1",
        most: 63,
        first: 7,
        tokens: 2,
    },
    Nested {
        ends: (b"f(){x=", b";}"),
        around: (b"g(", b")"),
        middle: b"",
        most: 63,
        first: 7,
        tokens: 2,
    },
    Nested {
        ends: (b"f(){x=", b";}"),
        around: (b"inp(", b")"),
        middle: b"1",
        most: 63,
        first: 7,
        tokens: 2,
    },
    Nested {
        ends: (b"f(){", b"}"),
        around: (b"if(1)", b""),
        middle: b";",
        most: 63,
        first: 5,
        tokens: 4,
    },
    Nested {
        ends: (b"f(){", b"}"),
        around: (b"while(1)", b""),
        middle: b";",
        most: 63,
        first: 5,
        tokens: 4,
    },
    Nested {
        ends: (b"f(){", b"}"),
        around: (b"for(;;)", b""),
        middle: b";",
        most: 63,
        first: 5,
        tokens: 5,
    },
    Nested {
        ends: (b"f(){", b"}"),
        around: (b"do ", b"while(1);"),
        middle: b";",
        most: 63,
        first: 5,
        tokens: 1,
    },
    Nested {
        ends: (b"f(){", b"}"),
        around: (b"if(1);else ", b""),
        middle: b";",
        most: 63,
        first: 5,
        tokens: 6,
    },
    Nested {
        ends: (b"f()", b""),
        around: (b"{", b"}"),
        middle: b"",
        most: 64,
        first: 3,
        tokens: 1,
    },
];

impl Nested {
    // What the source comes to in which so many of the parts stand in one another.
    fn judge(&self, alloc: Global, count: u32) -> Result<Verdict, AllocError> {
        let source = repeated(alloc, self.ends, self.around, self.middle, count)?;
        Ok(judge(alloc, &source))
    }

    // The refusal of a part too many: it stands where that part opens a counted one.
    fn refusal(&self) -> Verdict {
        TooDeep(
            self.first
                .saturating_add(self.tokens.saturating_mul(self.most)),
        )
    }

    // Whether as many are read as may stand in one another, and no more.
    fn is_limited(&self, alloc: Global) -> Result<bool, AllocError> {
        Ok(
            self.judge(alloc, self.most)? == Types(0, TypeKind::NoMain)
                && self.judge(alloc, self.most.saturating_add(1))? == self.refusal()
                && self.judge(alloc, 70)? == self.refusal(),
        )
    }
}

#[test]
fn nesting_is_limited(rt: HostRuntime) -> Result<(), Fail> {
    for nested in NESTED {
        assert!(rt; nested.is_limited(rt.alloc())?, "{:?}", nested.around);
    }
    Ok(())
}

// Where the expression of a source ends that is read from this token on, with one part open.
fn end_of(alloc: Global, source: &[u8], at: usize) -> Result<usize, ParseEnd> {
    if source.len() > MOST_BYTES {
        return Err(ParseEnd::NoMemory);
    }
    let Ok(tokens) = lex(alloc, source) else {
        return Err(ParseEnd::NoMemory);
    };
    let (_, end) = expression(alloc, tokens.as_slice(), at, 1)?;
    Ok(end)
}

// Where the expression ends that is a number in so many brackets.
fn end_in_brackets(
    alloc: Global,
    count: u32,
    at: usize,
) -> Result<Result<usize, ParseEnd>, AllocError> {
    let source = repeated(alloc, (b"", b""), (b"(", b")"), b"1", count)?;
    Ok(end_of(alloc, &source, at))
}

#[test]
fn nesting_of_one_expression_is_limited(rt: HostRuntime) -> Result<(), Fail> {
    let alloc = rt.alloc();
    assert_eq!(rt; end_in_brackets(alloc, 63, 0)?, Ok(127));
    assert_eq!(rt; end_in_brackets(alloc, 63, 60)?, Ok(67));
    assert_eq!(rt;
        end_in_brackets(alloc, 64, 0)?,
        Err(ParseEnd::TooDeep { token: 63 })
    );
    assert_eq!(rt;
        end_in_brackets(alloc, 64, 129)?,
        Err(ParseEnd::Syntax { token: 129 })
    );
    Ok(())
}
