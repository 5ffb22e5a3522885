use cl_ast::{Mark, Operator, Token, TokenKind, Word};

/// A level of binary operators, from those that bind closest. (ISO/IEC 9899:1999, 6.5.5 to 6.5.14.)
#[derive(Clone, Copy, Debug, PartialEq, Eq)]
pub enum Level {
    /// `*`, `/` and `%`
    Product,
    /// `+` and `-`
    Sum,
    /// `<`, `<=`, `>` and `>=`
    Order,
    /// `==` and `!=`
    Equality,
    /// `&&`
    Conjunction,
    /// `||`
    Expr,
}

/// A class of tokens that is tested for.
#[derive(Clone, Copy)]
pub enum Class {
    /// This mark.
    Mark(Mark),
    /// This word.
    Word(Word),
    /// A name.
    Name,
    /// A string.
    Text,
    /// A number or a character.
    Literal,
    /// A number or a name.
    Size,
    /// The front of a `#define` line.
    Define,
    /// A word that is a type of variables.
    Type,
    /// A type, or `void`.
    Parameters,
    /// `=`, `+=`, `-=` or `*=`
    Change,
    /// `++` or `--`
    Step,
    /// A word that is a tuple operation.
    Operation,
    /// `inp` or `rdp`
    Predicate,
    /// `break` or `continue`
    Leave,
    /// `-` or `!`
    Prefix,
    /// An operator of the level.
    Operator(Level),
    /// What an expression begins with but a prefix operator.
    Primary,
    /// What an expression begins with.
    Expr,
    /// What a change, a call, an operation or a print begins with.
    Simple,
    /// What a statement begins with that isn't a block.
    Plain,
    /// What a statement or a declaration begins with.
    Inner,
    /// `[` or `=`
    Given,
    /// What an item begins with.
    Item,
}

ghost use Rattle.std.specs.Prelude.{◌≡◌, [], ◌∷◌, is_some};
ghost use Rattle.cl_ast.specs.Classes.{class_of, kind_class, mark_class, word_class};
ghost use Rattle.cl_ast.specs.Views.{plain_token, plain_kind};
ghost use Rattle.cl_parse_expr.specs.Classes.{classes_of, level_operator};
ghost use Rattle.cl_parse_expr.specs.Steps.{is_of};
ghost use Rattle.cl_rules.specs.Syntax.{has};

impl Level {
    /// The operator that the mark is at this level.
    pub fn operator(self, mark: Mark) -> Option<Operator>
        ensures { result ≡ level_operator self mark }
    {
        match (self, mark) {
            (Level::Product, Mark::Times) => Some(Operator::Multiply),
            (Level::Product, Mark::Divide) => Some(Operator::Divide),
            (Level::Product, Mark::Remainder) => Some(Operator::Remainder),
            (Level::Sum, Mark::Plus) => Some(Operator::Add),
            (Level::Sum, Mark::Minus) => Some(Operator::Subtract),
            (Level::Order, Mark::Less) => Some(Operator::Less),
            (Level::Order, Mark::LessEqual) => Some(Operator::LessEqual),
            (Level::Order, Mark::Greater) => Some(Operator::Greater),
            (Level::Order, Mark::GreaterEqual) => Some(Operator::GreaterEqual),
            (Level::Equality, Mark::Equal) => Some(Operator::Equal),
            (Level::Equality, Mark::NotEqual) => Some(Operator::NotEqual),
            (Level::Conjunction, Mark::And) => Some(Operator::And),
            (Level::Expr, Mark::Or) => Some(Operator::Or),
            _ => None,
        }
    }
}

impl Class {
    /// Whether the token is of the class.
    pub fn has(self, token: &Token) -> bool
        ensures { result ≡ is_of (classes_of self) (plain_token token.now) }
    {
        let kind = &token.kind;
        match self {
            Class::Mark(mark) => is_mark(kind, mark),
            Class::Word(word) => is_word(kind, word),
            Class::Name => is_name(kind),
            Class::Text => is_text(kind),
            Class::Literal => is_literal(kind),
            Class::Size => is_size(kind),
            Class::Define => is_define(kind),
            Class::Type => is_type(kind),
            Class::Parameters => is_parameters(kind),
            Class::Change => is_change(kind),
            Class::Step => is_step(kind),
            Class::Operation => is_operation(kind),
            Class::Predicate => is_predicate(kind),
            Class::Leave => is_leave(kind),
            Class::Prefix => is_prefix(kind),
            Class::Operator(level) => is_operator(kind, level),
            Class::Primary => is_primary(kind),
            Class::Expr => is_expr(kind),
            Class::Simple => is_simple(kind),
            Class::Plain => is_plain(kind),
            Class::Inner => is_inner(kind),
            Class::Given => is_given(kind),
            Class::Item => is_item(kind),
        }
    }
}

#[tactic(auto, using(crate::proofs::Marks::mark_test))]
fn is_mark(kind: &TokenKind, mark: Mark) -> bool
    ensures { result ≡ has (classes_of (Class.Mark mark)) (kind_class (plain_kind kind.now)) }
{
    match kind {
        TokenKind::Mark(found) => mark == *found,
        _ => false,
    }
}

#[tactic(auto, using(crate::proofs::Words::word_test))]
fn is_word(kind: &TokenKind, word: Word) -> bool
    ensures { result ≡ has (classes_of (Class.Word word)) (kind_class (plain_kind kind.now)) }
{
    match kind {
        TokenKind::Word(found) => word == *found,
        _ => false,
    }
}

#[tactic(auto, using(crate::proofs::Marks::operator_test))]
fn is_operator(kind: &TokenKind, level: Level) -> bool
    ensures { result ≡ has (classes_of (Class.Operator level)) (kind_class (plain_kind kind.now)) }
{
    match kind {
        TokenKind::Mark(found) => level.operator(*found).is_some(),
        _ => false,
    }
}

fn is_name(kind: &TokenKind) -> bool
    ensures { result ≡ has (classes_of Class.Name) (kind_class (plain_kind kind.now)) }
{
    match kind {
        TokenKind::Name(_) => true,
        _ => false,
    }
}

fn is_text(kind: &TokenKind) -> bool
    ensures { result ≡ has (classes_of Class.Text) (kind_class (plain_kind kind.now)) }
{
    match kind {
        TokenKind::Str(_) => true,
        _ => false,
    }
}

fn is_literal(kind: &TokenKind) -> bool
    ensures { result ≡ has (classes_of Class.Literal) (kind_class (plain_kind kind.now)) }
{
    match kind {
        TokenKind::Int(_) => true,
        TokenKind::Long(_) => true,
        TokenKind::Character(_) => true,
        _ => false,
    }
}

fn is_size(kind: &TokenKind) -> bool
    ensures { result ≡ has (classes_of Class.Size) (kind_class (plain_kind kind.now)) }
{
    match kind {
        TokenKind::Name(_) => true,
        TokenKind::Int(_) => true,
        TokenKind::Long(_) => true,
        _ => false,
    }
}

fn is_define(kind: &TokenKind) -> bool
    ensures { result ≡ has (classes_of Class.Define) (kind_class (plain_kind kind.now)) }
{
    match kind {
        TokenKind::Define => true,
        _ => false,
    }
}

fn is_type(kind: &TokenKind) -> bool
    ensures { result ≡ has (classes_of Class.Type) (kind_class (plain_kind kind.now)) }
{
    match kind {
        TokenKind::Word(word) => is_type_word(*word),
        _ => false,
    }
}

fn is_type_word(word: Word) -> bool
    ensures { result ≡ has (classes_of Class.Type) (word_class word) }
{
    match word {
        Word::Int => true,
        Word::Long => true,
        Word::Char => true,
        _ => false,
    }
}

fn is_parameters(kind: &TokenKind) -> bool
    ensures { result ≡ has (classes_of Class.Parameters) (kind_class (plain_kind kind.now)) }
{
    match kind {
        TokenKind::Word(word) => is_parameters_word(*word),
        _ => false,
    }
}

fn is_parameters_word(word: Word) -> bool
    ensures { result ≡ has (classes_of Class.Parameters) (word_class word) }
{
    match word {
        Word::Void => true,
        Word::Int => true,
        Word::Long => true,
        Word::Char => true,
        _ => false,
    }
}

fn is_change(kind: &TokenKind) -> bool
    ensures { result ≡ has (classes_of Class.Change) (kind_class (plain_kind kind.now)) }
{
    match kind {
        TokenKind::Mark(mark) => is_change_mark(*mark),
        _ => false,
    }
}

fn is_change_mark(mark: Mark) -> bool
    ensures { result ≡ has (classes_of Class.Change) (mark_class mark) }
{
    match mark {
        Mark::Assign => true,
        Mark::PlusAssign => true,
        Mark::MinusAssign => true,
        Mark::TimesAssign => true,
        _ => false,
    }
}

fn is_step(kind: &TokenKind) -> bool
    ensures { result ≡ has (classes_of Class.Step) (kind_class (plain_kind kind.now)) }
{
    match kind {
        TokenKind::Mark(mark) => is_step_mark(*mark),
        _ => false,
    }
}

fn is_step_mark(mark: Mark) -> bool
    ensures { result ≡ has (classes_of Class.Step) (mark_class mark) }
{
    match mark {
        Mark::Increment => true,
        Mark::Decrement => true,
        _ => false,
    }
}

fn is_operation(kind: &TokenKind) -> bool
    ensures { result ≡ has (classes_of Class.Operation) (kind_class (plain_kind kind.now)) }
{
    match kind {
        TokenKind::Word(word) => is_operation_word(*word),
        _ => false,
    }
}

fn is_operation_word(word: Word) -> bool
    ensures { result ≡ has (classes_of Class.Operation) (word_class word) }
{
    match word {
        Word::Out => true,
        Word::In => true,
        Word::Rd => true,
        Word::Inp => true,
        Word::Rdp => true,
        Word::Eval => true,
        _ => false,
    }
}

fn is_predicate(kind: &TokenKind) -> bool
    ensures { result ≡ has (classes_of Class.Predicate) (kind_class (plain_kind kind.now)) }
{
    match kind {
        TokenKind::Word(word) => is_predicate_word(*word),
        _ => false,
    }
}

fn is_predicate_word(word: Word) -> bool
    ensures { result ≡ has (classes_of Class.Predicate) (word_class word) }
{
    match word {
        Word::Inp => true,
        Word::Rdp => true,
        _ => false,
    }
}

fn is_leave(kind: &TokenKind) -> bool
    ensures { result ≡ has (classes_of Class.Leave) (kind_class (plain_kind kind.now)) }
{
    match kind {
        TokenKind::Word(word) => is_leave_word(*word),
        _ => false,
    }
}

fn is_leave_word(word: Word) -> bool
    ensures { result ≡ has (classes_of Class.Leave) (word_class word) }
{
    match word {
        Word::Break => true,
        Word::Continue => true,
        _ => false,
    }
}

fn is_prefix(kind: &TokenKind) -> bool
    ensures { result ≡ has (classes_of Class.Prefix) (kind_class (plain_kind kind.now)) }
{
    match kind {
        TokenKind::Mark(mark) => is_prefix_mark(*mark),
        _ => false,
    }
}

fn is_prefix_mark(mark: Mark) -> bool
    ensures { result ≡ has (classes_of Class.Prefix) (mark_class mark) }
{
    match mark {
        Mark::Minus => true,
        Mark::Not => true,
        _ => false,
    }
}

fn is_primary(kind: &TokenKind) -> bool
    ensures { result ≡ has (classes_of Class.Primary) (kind_class (plain_kind kind.now)) }
{
    match kind {
        TokenKind::Name(_) => true,
        TokenKind::Int(_) => true,
        TokenKind::Long(_) => true,
        TokenKind::Character(_) => true,
        TokenKind::Word(word) => begins_primary(*word),
        TokenKind::Mark(mark) => opens_primary(*mark),
        _ => false,
    }
}

fn begins_primary(word: Word) -> bool
    ensures { result ≡ has (classes_of Class.Primary) (word_class word) }
{
    match word {
        Word::Inp => true,
        Word::Rdp => true,
        _ => false,
    }
}

fn opens_primary(mark: Mark) -> bool
    ensures { result ≡ has (classes_of Class.Primary) (mark_class mark) }
{
    match mark {
        Mark::OpenBracket => true,
        _ => false,
    }
}

fn is_expr(kind: &TokenKind) -> bool
    ensures { result ≡ has (classes_of Class.Expr) (kind_class (plain_kind kind.now)) }
{
    match kind {
        TokenKind::Name(_) => true,
        TokenKind::Int(_) => true,
        TokenKind::Long(_) => true,
        TokenKind::Character(_) => true,
        TokenKind::Word(word) => begins_expr(*word),
        TokenKind::Mark(mark) => opens_expr(*mark),
        _ => false,
    }
}

fn begins_expr(word: Word) -> bool
    ensures { result ≡ has (classes_of Class.Expr) (word_class word) }
{
    match word {
        Word::Inp => true,
        Word::Rdp => true,
        _ => false,
    }
}

fn opens_expr(mark: Mark) -> bool
    ensures { result ≡ has (classes_of Class.Expr) (mark_class mark) }
{
    match mark {
        Mark::OpenBracket => true,
        Mark::Minus => true,
        Mark::Not => true,
        _ => false,
    }
}

fn is_simple(kind: &TokenKind) -> bool
    ensures { result ≡ has (classes_of Class.Simple) (kind_class (plain_kind kind.now)) }
{
    match kind {
        TokenKind::Name(_) => true,
        TokenKind::Word(word) => begins_simple(*word),
        TokenKind::Mark(mark) => opens_simple(*mark),
        _ => false,
    }
}

fn begins_simple(word: Word) -> bool
    ensures { result ≡ has (classes_of Class.Simple) (word_class word) }
{
    match word {
        Word::Out => true,
        Word::In => true,
        Word::Rd => true,
        Word::Inp => true,
        Word::Rdp => true,
        Word::Eval => true,
        Word::Printf => true,
        _ => false,
    }
}

fn opens_simple(mark: Mark) -> bool
    ensures { result ≡ has (classes_of Class.Simple) (mark_class mark) }
{
    match mark {
        Mark::Increment => true,
        Mark::Decrement => true,
        _ => false,
    }
}

fn is_plain(kind: &TokenKind) -> bool
    ensures { result ≡ has (classes_of Class.Plain) (kind_class (plain_kind kind.now)) }
{
    match kind {
        TokenKind::Name(_) => true,
        TokenKind::Word(word) => begins_plain(*word),
        TokenKind::Mark(mark) => opens_plain(*mark),
        _ => false,
    }
}

fn begins_plain(word: Word) -> bool
    ensures { result ≡ has (classes_of Class.Plain) (word_class word) }
{
    match word {
        Word::Int => false,
        Word::Long => false,
        Word::Char => false,
        Word::Void => false,
        Word::Else => false,
        _ => true,
    }
}

fn opens_plain(mark: Mark) -> bool
    ensures { result ≡ has (classes_of Class.Plain) (mark_class mark) }
{
    match mark {
        Mark::Increment => true,
        Mark::Decrement => true,
        Mark::Semicolon => true,
        _ => false,
    }
}

fn is_inner(kind: &TokenKind) -> bool
    ensures { result ≡ has (classes_of Class.Inner) (kind_class (plain_kind kind.now)) }
{
    match kind {
        TokenKind::Name(_) => true,
        TokenKind::Word(word) => begins_inner(*word),
        TokenKind::Mark(mark) => opens_inner(*mark),
        _ => false,
    }
}

fn begins_inner(word: Word) -> bool
    ensures { result ≡ has (classes_of Class.Inner) (word_class word) }
{
    match word {
        Word::Void => false,
        Word::Else => false,
        _ => true,
    }
}

fn opens_inner(mark: Mark) -> bool
    ensures { result ≡ has (classes_of Class.Inner) (mark_class mark) }
{
    match mark {
        Mark::Increment => true,
        Mark::Decrement => true,
        Mark::Semicolon => true,
        Mark::OpenBrace => true,
        _ => false,
    }
}

fn is_given(kind: &TokenKind) -> bool
    ensures { result ≡ has (classes_of Class.Given) (kind_class (plain_kind kind.now)) }
{
    match kind {
        TokenKind::Mark(mark) => opens_given(*mark),
        _ => false,
    }
}

fn opens_given(mark: Mark) -> bool
    ensures { result ≡ has (classes_of Class.Given) (mark_class mark) }
{
    match mark {
        Mark::OpenSquare => true,
        Mark::Assign => true,
        _ => false,
    }
}

fn is_item(kind: &TokenKind) -> bool
    ensures { result ≡ has (classes_of Class.Item) (kind_class (plain_kind kind.now)) }
{
    match kind {
        TokenKind::Name(_) => true,
        TokenKind::Define => true,
        TokenKind::Word(word) => begins_item(*word),
        _ => false,
    }
}

fn begins_item(word: Word) -> bool
    ensures { result ≡ has (classes_of Class.Item) (word_class word) }
{
    match word {
        Word::Void => true,
        Word::Int => true,
        Word::Long => true,
        Word::Char => true,
        _ => false,
    }
}
