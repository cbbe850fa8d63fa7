//! The symbols of the grammar: terminals, nonterminals, and semantic actions.
ghost use Rattle.std.specs.Prelude.{◌≡◌};
ghost use Rattle.twe_parser.specs.inner.Kinds.{is_write, is_join};
ghost use Rattle.twe_parser.specs.inner.Terminals.{terminal_of};

use twe_ast::{BinOp, LocalType, ReturnType};
use twe_lexer::{Fixed, TokenKind};

/// A token without its value.
#[derive(Clone, Copy)]
pub(crate) enum Terminal {
    /// A name.
    Name,
    /// An integer literal.
    Literal,
    /// A keyword or a symbol.
    Fixed(Fixed),
    /// A byte that begins no token of the language.
    Stray,
}

/// The terminal that a token is.
pub(crate) fn terminal_of(kind: &TokenKind) -> Terminal
    ensures { result ≡ terminal_of kind.now }
{
    match kind {
        TokenKind::Name(_) => Terminal::Name,
        TokenKind::Literal(_) => Terminal::Literal,
        TokenKind::Fixed(fixed) => Terminal::Fixed(*fixed),
        TokenKind::Stray => Terminal::Stray,
    }
}

/// A symbol on the right-hand side of a production.
#[derive(Clone, Copy)]
pub(crate) enum Symbol {
    /// The terminal for a name.
    Name,
    /// The terminal for an integer literal.
    Literal,
    /// The terminal for this keyword or symbol.
    Token(Fixed),
    /// A nonterminal, which is expanded by the next token.
    Expand(Nonterminal),
    /// A semantic action, which is performed without reading a token.
    Perform(Action),
}

/// A nonterminal. Each is named for its position: what follows a token, or what begins there.
#[derive(Clone, Copy)]
pub(crate) enum Nonterminal {
    /// The declarations that are left, up to the end of the text.
    Items,
    /// After the name of a region.
    MoreRegions,
    /// After `int` and a name, at the top of a program.
    AfterInt,
    /// After the length of an array.
    AfterLength,
    /// The beginning of the path of a cell, an array or a grid.
    CellPath(CellKind),
    /// After an element of the path of a cell, an array or a grid.
    CellRest(CellKind),
    /// An element of the path of a cell.
    CellElem,
    /// The initial value of a cell, after `=`.
    Initial,
    /// After `task`. Whether it is `deterministic`.
    TaskReturns(bool),
    /// After the `(` of parameters.
    Params,
    /// After a parameter.
    MoreParams,
    /// The effects of a method or a task. Whether it is a task's.
    Effects(bool),
    /// The beginning of a path of a clause. Whether the clause is a task's, and what it declares.
    Path(bool, Access),
    /// After an element of a path of a clause. Whether the clause is a task's, and what it declares.
    PathRest(bool, Access),
    /// An element of a path of a clause, after `:`.
    Elem,
    /// After the `[` of an element of a path.
    Index,
    /// The statements that are left in a block, and its `}`. Whether the block is in a task.
    Statements(bool),
    /// After `final`. Whether it is in a task.
    LocalType(bool),
    /// The initial value of an `int` local.
    IntValue {
        /// Whether it is in a task.
        in_task: bool,
        /// Whether `final` stands before the declaration.
        is_final: bool,
    },
    /// In a task, after `int`, a name, `=` and a name. Whether `final` stands before it.
    AfterValueName(bool),
    /// After the name that a statement begins with. Whether it is in a task.
    AfterName(bool),
    /// After the index of an assignment.
    AfterIndex,
    /// After the `.` of a wait.
    Awaited,
    /// After the `.` of a wait that initializes a local. Whether the local is `final`.
    AwaitedValue(bool),
    /// After the `.` of the making of a task.
    Make,
    /// After a block of an `if`. Whether it is in a task.
    AfterArm(bool),
    /// After `else`. Whether it is in a task.
    ElseBody(bool),
    /// After `return`.
    ReturnValue,
    /// After the `(` of arguments.
    Args,
    /// After an argument.
    MoreArgs,
    /// An operand: an expression without an operator between two operands outside parentheses.
    Unary,
    /// After a `-` before an operand.
    AfterMinus,
    /// After a name in an expression.
    Suffix,
    /// After the index of an element.
    SecondIndex,
    /// After an operand: operators of at least this precedence, with their right operands.
    Climb(u8),
}

/// What a declaration of cells declares.
#[derive(Clone, Copy)]
pub(crate) enum CellKind {
    /// One cell.
    Scalar,
    /// An array.
    Array,
    /// A grid.
    Grid,
}

/// What a clause of effects declares.
#[derive(Clone, Copy)]
pub(crate) enum Access {
    /// The clause begins with `reads`.
    Reads,
    /// The clause begins with `writes`.
    Writes,
}

impl Access {
    /// Whether the clause begins with `writes`.
    pub(crate) fn is_write(self) -> bool
        ensures { result ≡ is_write self }
    {
        matches!(self, Access::Writes)
    }
}

/// The call that waits for a task.
#[derive(Clone, Copy)]
pub(crate) enum WaitKind {
    /// `getValue`
    GetValue,
    /// `join`
    Join,
}

impl WaitKind {
    /// Whether the call is `join`.
    pub(crate) fn is_join(self) -> bool
        ensures { result ≡ is_join self }
    {
        matches!(self, WaitKind::Join)
    }
}

/// A semantic action: it makes a tree of the values on the stacks.
#[derive(Clone, Copy)]
pub(crate) enum Action {
    /// Does nothing.
    Nothing,
    /// Makes an expression.
    Expr(ExprAction),
    /// Makes a statement.
    Stmt(StmtAction),
    /// Makes a part of a declaration.
    Item(ItemAction),
}

/// A semantic action that makes an expression.
#[derive(Clone, Copy)]
pub(crate) enum ExprAction {
    /// A literal; its place is on the stack of places.
    Literal,
    /// `true` or `false`; its place is on the stack of places.
    Truth(bool),
    /// `-` and a literal; their places are on the stack of places.
    MinusLiteral,
    /// `-` and its operand.
    Negate,
    /// `!` and its operand.
    Not,
    /// A name alone.
    Variable,
    /// Parentheses: the place of `(` becomes the expression's.
    Enclose,
    /// An operator and its two operands.
    Binary(BinOp),
    /// The arguments of a call begin.
    NewArgs,
    /// An argument ends.
    KeepArg,
    /// A call in an expression.
    CallValue,
    /// An element of an array.
    Element,
    /// An element of a grid.
    GridElement,
}

/// A semantic action that makes a statement.
#[derive(Clone, Copy)]
pub(crate) enum StmtAction {
    /// A block begins.
    NewBlock,
    /// A block ends; the place of `}` is on the stack of places.
    CloseBlock,
    /// A block that is a statement.
    BlockStatement,
    /// A declaration of a local: whether it is `final`, and its type.
    Let(bool, LocalType),
    /// An assignment to a name.
    Set,
    /// An assignment to an element of an array.
    SetArray,
    /// An assignment to an element of a grid.
    SetGrid,
    /// An `if` begins.
    NewArms,
    /// An arm of an `if` ends.
    KeepArm,
    /// An `if` without a last `else` ends.
    CloseIf,
    /// An `if` with a last `else` ends.
    CloseIfElse,
    /// A `while`.
    While,
    /// A `return` with a value.
    Return,
    /// A `return` without a value.
    ReturnNothing,
    /// A `print`.
    Print,
    /// A call as a statement.
    CallStatement,
    /// The making of a task: whether by `spawn`.
    Make(bool),
    /// A wait by one of the two calls.
    Wait(WaitKind),
    /// A declaration of a local by a wait: whether it is `final`, and by which call it waits.
    LetWait(bool, WaitKind),
}

/// A semantic action that makes a part of a declaration.
#[derive(Clone, Copy)]
pub(crate) enum ItemAction {
    /// A name of a list ends.
    KeepName,
    /// A declaration of regions.
    Regions,
    /// A name in the path of a cell.
    CellElemName,
    /// An index in the path of a cell.
    CellElemIndex,
    /// A declaration of a cell without an initial value, of an array or of a grid.
    Cell(CellKind),
    /// A declaration of a cell with an initial value: whether `-` stands before it.
    CellInitial(bool),
    /// A name in a path.
    ElemName,
    /// A literal index in a path.
    ElemIndex,
    /// An index by a parameter in a path.
    ElemVariable,
    /// `[?]` in a path.
    ElemAny,
    /// `*` in a path.
    ElemStar,
    /// A path of a clause ends.
    KeepPath,
    /// A clause ends: what it declares.
    KeepClause(Access),
    /// A declaration of a method.
    Method(ReturnType),
    /// A declaration of a task: whether it is `deterministic`, and what it returns.
    Task(bool, ReturnType),
}
