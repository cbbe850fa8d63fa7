//! Keywords and symbols: the tokens with a single spelling.
ghost use Rattle.std.specs.Prelude.{◌≡◌};
ghost use Rattle.twe_lexer.specs.Spelling.{spelling, spelled};

/// A keyword or a symbol.
#[derive(Clone, Copy, Debug, PartialEq, Eq)]
pub enum Fixed {
    /// `region`
    Region,
    /// `int`
    Int,
    /// `boolean`
    Boolean,
    /// `void`
    Void,
    /// `task`
    Task,
    /// `deterministic`
    Deterministic,
    /// `reads`
    Reads,
    /// `writes`
    Writes,
    /// `pure`
    Pure,
    /// `final`
    Final,
    /// `future`
    Future,
    /// `if`
    If,
    /// `else`
    Else,
    /// `while`
    While,
    /// `return`
    Return,
    /// `print`
    Print,
    /// `true`
    True,
    /// `false`
    False,
    /// `in`
    In,
    /// `Root`
    Root,
    /// `spawn`
    Spawn,
    /// `executeLater`
    ExecuteLater,
    /// `getValue`
    GetValue,
    /// `join`
    Join,
    /// `{`
    OpenBrace,
    /// `}`
    CloseBrace,
    /// `(`
    OpenParen,
    /// `)`
    CloseParen,
    /// `[`
    OpenBracket,
    /// `]`
    CloseBracket,
    /// `;`
    Semicolon,
    /// `,`
    Comma,
    /// `:`
    Colon,
    /// `.`
    Dot,
    /// `?`
    Question,
    /// `=`
    Assign,
    /// `==`
    Equal,
    /// `!=`
    NotEqual,
    /// `<`
    Less,
    /// `<=`
    LessEqual,
    /// `>`
    Greater,
    /// `>=`
    GreaterEqual,
    /// `+`
    Plus,
    /// `-`
    Minus,
    /// `*`
    Star,
    /// `/`
    Slash,
    /// `%`
    Percent,
    /// `!`
    Not,
    /// `&&`
    And,
    /// `||`
    Or,
}

impl Fixed {
    /// The spelling of the token.
    pub fn spelling(self) -> &'static str
        ensures { result.now ≡ spelling self }
    {
        match self {
            Fixed::Region => "region",
            Fixed::Int => "int",
            Fixed::Boolean => "boolean",
            Fixed::Void => "void",
            Fixed::Task => "task",
            Fixed::Deterministic => "deterministic",
            Fixed::Reads => "reads",
            Fixed::Writes => "writes",
            Fixed::Pure => "pure",
            Fixed::Final => "final",
            Fixed::Future => "future",
            Fixed::If => "if",
            Fixed::Else => "else",
            Fixed::While => "while",
            Fixed::Return => "return",
            Fixed::Print => "print",
            Fixed::True => "true",
            Fixed::False => "false",
            Fixed::In => "in",
            Fixed::Root => "Root",
            Fixed::Spawn => "spawn",
            Fixed::ExecuteLater => "executeLater",
            Fixed::GetValue => "getValue",
            Fixed::Join => "join",
            Fixed::OpenBrace => "{",
            Fixed::CloseBrace => "}",
            Fixed::OpenParen => "(",
            Fixed::CloseParen => ")",
            Fixed::OpenBracket => "[",
            Fixed::CloseBracket => "]",
            Fixed::Semicolon => ";",
            Fixed::Comma => ",",
            Fixed::Colon => ":",
            Fixed::Dot => ".",
            Fixed::Question => "?",
            Fixed::Assign => "=",
            Fixed::Equal => "==",
            Fixed::NotEqual => "!=",
            Fixed::Less => "<",
            Fixed::LessEqual => "<=",
            Fixed::Greater => ">",
            Fixed::GreaterEqual => ">=",
            Fixed::Plus => "+",
            Fixed::Minus => "-",
            Fixed::Star => "*",
            Fixed::Slash => "/",
            Fixed::Percent => "%",
            Fixed::Not => "!",
            Fixed::And => "&&",
            Fixed::Or => "||",
        }
    }
}

/// The keyword or symbol with this spelling, or `None` if there is none.
pub(crate) fn spelled(text: &str) -> Option<Fixed>
    ensures { result ≡ spelled text.now }
{
    Some(match text {
        "region" => Fixed::Region,
        "int" => Fixed::Int,
        "boolean" => Fixed::Boolean,
        "void" => Fixed::Void,
        "task" => Fixed::Task,
        "deterministic" => Fixed::Deterministic,
        "reads" => Fixed::Reads,
        "writes" => Fixed::Writes,
        "pure" => Fixed::Pure,
        "final" => Fixed::Final,
        "future" => Fixed::Future,
        "if" => Fixed::If,
        "else" => Fixed::Else,
        "while" => Fixed::While,
        "return" => Fixed::Return,
        "print" => Fixed::Print,
        "true" => Fixed::True,
        "false" => Fixed::False,
        "in" => Fixed::In,
        "Root" => Fixed::Root,
        "spawn" => Fixed::Spawn,
        "executeLater" => Fixed::ExecuteLater,
        "getValue" => Fixed::GetValue,
        "join" => Fixed::Join,
        "{" => Fixed::OpenBrace,
        "}" => Fixed::CloseBrace,
        "(" => Fixed::OpenParen,
        ")" => Fixed::CloseParen,
        "[" => Fixed::OpenBracket,
        "]" => Fixed::CloseBracket,
        ";" => Fixed::Semicolon,
        "," => Fixed::Comma,
        ":" => Fixed::Colon,
        "." => Fixed::Dot,
        "?" => Fixed::Question,
        "=" => Fixed::Assign,
        "==" => Fixed::Equal,
        "!=" => Fixed::NotEqual,
        "<" => Fixed::Less,
        "<=" => Fixed::LessEqual,
        ">" => Fixed::Greater,
        ">=" => Fixed::GreaterEqual,
        "+" => Fixed::Plus,
        "-" => Fixed::Minus,
        "*" => Fixed::Star,
        "/" => Fixed::Slash,
        "%" => Fixed::Percent,
        "!" => Fixed::Not,
        "&&" => Fixed::And,
        "||" => Fixed::Or,
        _ => return None,
    })
}
