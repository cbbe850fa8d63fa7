//! What the layout asks of the class of a piece.
ghost use Rattle.std.specs.Prelude.{◌≡◌};
ghost use Rattle.text_layout.specs.Classes.{is_comment_class, is_line_comment_class, is_open_brace, is_close_brace, is_close_paren, is_comma, is_else, is_clause, precedes_statement, can_end_operand, can_begin_operand, is_unary, closes_up, opens_up, takes_arguments, takes_index, belongs_to, is_glued};

use text_pieces::Class;
use twe_lexer::Fixed;

/// Whether it is a comment.
pub(crate) fn is_comment_class(class: Class) -> bool
    ensures { result ≡ is_comment_class class }
{
    match class {
        Class::LineComment | Class::BlockComment => true,
        _ => false,
    }
}

/// Whether it is a comment to the end of its line.
pub(crate) fn is_line_comment_class(class: Class) -> bool
    ensures { result ≡ is_line_comment_class class }
{
    match class {
        Class::LineComment => true,
        _ => false,
    }
}

/// Whether it is `{`.
pub(crate) fn is_open_brace(class: Class) -> bool
    ensures { result ≡ is_open_brace class }
{
    match class {
        Class::Fixed(Fixed::OpenBrace) => true,
        _ => false,
    }
}

/// Whether it is `}`.
pub(crate) fn is_close_brace(class: Class) -> bool
    ensures { result ≡ is_close_brace class }
{
    match class {
        Class::Fixed(Fixed::CloseBrace) => true,
        _ => false,
    }
}

/// Whether it is `)`.
pub(crate) fn is_close_paren(class: Class) -> bool
    ensures { result ≡ is_close_paren class }
{
    match class {
        Class::Fixed(Fixed::CloseParen) => true,
        _ => false,
    }
}

/// Whether it is a comma.
pub(crate) fn is_comma(class: Class) -> bool
    ensures { result ≡ is_comma class }
{
    match class {
        Class::Fixed(Fixed::Comma) => true,
        _ => false,
    }
}

/// Whether it is `else`.
pub(crate) fn is_else(class: Class) -> bool
    ensures { result ≡ is_else class }
{
    match class {
        Class::Fixed(Fixed::Else) => true,
        _ => false,
    }
}

/// Whether a clause of effects begins with it: `reads` or `writes`.
pub(crate) fn is_clause(class: Class) -> bool
    ensures { result ≡ is_clause class }
{
    match class {
        Class::Fixed(Fixed::Reads | Fixed::Writes) => true,
        _ => false,
    }
}

/// Whether a statement or a declaration can begin after it: `;`, `{` or `}`.
pub(crate) fn precedes_statement(class: Class) -> bool
    ensures { result ≡ precedes_statement class }
{
    match class {
        Class::Fixed(Fixed::Semicolon | Fixed::OpenBrace | Fixed::CloseBrace) => true,
        _ => false,
    }
}

/// Whether an operand can end with it.
fn can_end_operand(class: Class) -> bool
    ensures { result ≡ can_end_operand class }
{
    match class {
        Class::Name | Class::Literal => true,
        Class::Fixed(Fixed::True | Fixed::False | Fixed::CloseParen | Fixed::CloseBracket) => true,
        _ => false,
    }
}

/// Whether an operand can begin with it, except for `-`.
fn can_begin_operand(class: Class) -> bool
    ensures { result ≡ can_begin_operand class }
{
    match class {
        Class::Name | Class::Literal => true,
        Class::Fixed(Fixed::True | Fixed::False | Fixed::OpenParen | Fixed::Not) => true,
        _ => false,
    }
}

/// Whether the token is an operator with one operand; `earlier` is the token before it.
fn is_unary(earlier: Class, class: Class) -> bool
    ensures { result ≡ is_unary earlier class }
{
    match class {
        Class::Fixed(Fixed::Not) => true,
        Class::Fixed(Fixed::Minus) => !can_end_operand(earlier),
        _ => false,
    }
}

/// Whether no blank stands before it: `;`, `,`, `)`, `]`, `:` or `.`.
fn closes_up(class: Class) -> bool
    ensures { result ≡ closes_up class }
{
    match class {
        Class::Fixed(
            Fixed::Semicolon
            | Fixed::Comma
            | Fixed::CloseParen
            | Fixed::CloseBracket
            | Fixed::Colon
            | Fixed::Dot,
        ) => true,
        _ => false,
    }
}

/// Whether no blank stands after it: `(`, `[`, `:` or `.`.
fn opens_up(class: Class) -> bool
    ensures { result ≡ opens_up class }
{
    match class {
        Class::Fixed(Fixed::OpenParen | Fixed::OpenBracket | Fixed::Colon | Fixed::Dot) => true,
        _ => false,
    }
}

/// Whether arguments or parameters can follow it.
fn takes_arguments(class: Class) -> bool
    ensures { result ≡ takes_arguments class }
{
    match class {
        Class::Name => true,
        Class::Fixed(
            Fixed::Print | Fixed::Spawn | Fixed::ExecuteLater | Fixed::GetValue | Fixed::Join,
        ) => true,
        _ => false,
    }
}

/// Whether an index can follow it.
fn takes_index(class: Class) -> bool
    ensures { result ≡ takes_index class }
{
    match class {
        Class::Name | Class::Fixed(Fixed::CloseBracket) => true,
        _ => false,
    }
}

/// Whether the token `after` begins an index or arguments of what stands before it.
fn belongs_to(before: Class, after: Class) -> bool
    ensures { result ≡ belongs_to before after }
{
    match after {
        Class::Fixed(Fixed::OpenParen) => takes_arguments(before),
        Class::Fixed(Fixed::OpenBracket) => takes_index(before),
        _ => false,
    }
}

/// Whether no blank stands between two tokens on a line; `earlier` is the token before them.
pub(crate) fn is_glued(earlier: Class, before: Class, after: Class) -> bool
    ensures { result ≡ is_glued earlier before after }
{
    closes_up(after)
        || opens_up(before)
        || belongs_to(before, after)
        || (is_unary(earlier, before) && can_begin_operand(after))
}
