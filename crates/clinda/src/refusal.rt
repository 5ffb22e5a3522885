//! The texts of refusals.

ghost use Rattle.std.specs.Prelude.{◌≡◌, ◌≤◌, length, IfOk};
ghost use Rattle.clinda.specs.Refusals.{lex_word, type_word, kind_word, printed, refused};
ghost use Rattle.clinda.specs.Refusals as refusals;

use cl_ast::LexKind;
use cl_front::{Refusal, RefusalKind, line_column};
use cl_ground::NoMemory;
use cl_text::Text;
use cl_types::TypeKind;
use std::alloc::Global;

/// The text of words that spell no command.
pub fn words_refused() -> &'static [u8]
    ensures { result.now ≡ refusals.words_refused }
{
    b"words refused\n"
}

/// The text of a source that has more bytes than the limit.
pub fn too_large() -> &'static [u8]
    ensures { result.now ≡ refusals.too_large }
{
    b"refused TooLarge\n"
}

// The name of a reason for which a source isn't tokens.
fn lex_name(kind: LexKind) -> &'static [u8]
    ensures { result.now ≡ lex_word kind }
{
    match kind {
        LexKind::BadByte => b"BadByte",
        LexKind::OpenString => b"OpenString",
        LexKind::OpenComment => b"OpenComment",
        LexKind::WideLiteral => b"WideLiteral",
        LexKind::BadDirective => b"BadDirective",
    }
}

// The name of what is wrong with a tree.
fn type_name(kind: TypeKind) -> &'static [u8]
    ensures { result.now ≡ type_word kind }
{
    match kind {
        TypeKind::NoMain => b"NoMain",
        TypeKind::UnknownName => b"UnknownName",
        TypeKind::TwiceDeclared => b"TwiceDeclared",
        TypeKind::WrongType => b"WrongType",
        TypeKind::WrongCount => b"WrongCount",
        TypeKind::BadFormat => b"BadFormat",
        TypeKind::BadField => b"BadField",
        TypeKind::NoLoop => b"NoLoop",
        TypeKind::TooManySites => b"TooManySites",
        TypeKind::TooManyFunctions => b"TooManyFunctions",
    }
}

// The name of a kind of refusal.
fn kind_name(kind: RefusalKind) -> &'static [u8]
    ensures { result.now ≡ kind_word kind }
{
    match kind {
        RefusalKind::Lex(kind) => lex_name(kind),
        RefusalKind::Syntax => b"Syntax",
        RefusalKind::TooDeep => b"TooDeep",
        RefusalKind::Type(kind) => type_name(kind),
        RefusalKind::NotBuilt => b"NotBuilt",
    }
}

/// The text of a refusal of this source.
pub fn refusal_text(alloc: Global, source: &[u8], refusal: Refusal) -> Result<Text, NoMemory>
    requires { length source.now ≤ 67108864 }
    ensures { IfOk result (λ text. text ≡ refused (printed source.now refusal)) }
{
    let place = line_column(source, refusal.place);
    let mut text = Text::new(alloc);
    text.add(b"refused ")?;
    text.add(kind_name(refusal.kind))?;
    text.add(b" at ")?;
    text.add_number(u64::from(place.line))?;
    text.add(b":")?;
    text.add_number(u64::from(place.column))?;
    text.add(b"\n")?;
    Ok(text)
}
