//! A look ahead at the statements that a segment comes to, to see whether it is short.
//!
//! It is if it takes no longer than its text: no way leads through a call of a method or a further turn of a loop before the
//! segment ends. What is found is a guess that is on the safe side, on which no clause rests.

use twe_program::{Args, Arms, Block, Expr, Stmt, StmtKind};

/// How many statements are looked at.
const MOST_STATEMENTS: u32 = 64;

/// How a segment goes on from a statement, or from a list of them.
#[derive(Clone, Copy, Debug, PartialEq, Eq)]
pub(crate) enum SegmentWay {
    /// On each way it ends there.
    Ends,
    /// It ends there, or comes to what stands behind.
    GoesOn,
    /// It may be long.
    Unknown,
}

/// How many more statements are looked at.
#[derive(Drop)]
pub(crate) struct LookAhead {
    left: u32,
}

impl LookAhead {
    /// A look ahead that has not begun.
    pub(crate) fn new() -> Self {
        LookAhead {
            left: MOST_STATEMENTS,
        }
    }

    /// The way through a block, from the statement with this index on.
    pub(crate) fn through_rest(&mut self, block: &Block, first: usize) -> SegmentWay {
        for at in first..block.stmts.len() {
            if let Some(stmt) = block.stmts.get(at) {
                let way = self.past(stmt);
                if way != SegmentWay::GoesOn {
                    return way;
                }
            }
        }
        SegmentWay::GoesOn
    }

    /// The way past a statement.
    #[cycle(ahead)]
    fn past(&mut self, stmt: &Stmt) -> SegmentWay {
        if self.left == 0 {
            return SegmentWay::Unknown;
        }
        self.left -= 1;
        match &stmt.kind {
            StmtKind::Block(body) => self.through(body),
            StmtKind::If(arms) => self.past_choice(arms),
            StmtKind::While {
                condition,
                body,
                ..
            } => past_loop(condition, self.through(body)),
            kind => past_simple(kind),
        }
    }

    /// The way through a block.
    #[cycle(ahead)]
    fn through(&mut self, block: &Block) -> SegmentWay {
        for stmt in block.stmts.as_slice() {
            let way = self.past(stmt);
            if way != SegmentWay::GoesOn {
                return way;
            }
        }
        SegmentWay::GoesOn
    }

    /// The way past an `if`.
    #[cycle(ahead)]
    fn past_choice(&mut self, arms: &Arms) -> SegmentWay {
        let mut way = match &arms.last {
            Some(body) => self.through(body),
            None => SegmentWay::GoesOn,
        };
        for arm in arms.arms.as_slice() {
            if !arm.condition.is_plain() {
                return SegmentWay::Unknown;
            }
            way = either(way, self.through(&arm.body));
        }
        way
    }
}

/// The way past a loop with this condition, where `turn` is the way through its body. It is not known unless the segment ends in
/// the loop's first turn, if there is one.
fn past_loop(condition: &Expr, turn: SegmentWay) -> SegmentWay {
    if condition.is_plain() && turn == SegmentWay::Ends {
        SegmentWay::GoesOn
    } else {
        SegmentWay::Unknown
    }
}

/// The way past one or the other.
fn either(one: SegmentWay, other: SegmentWay) -> SegmentWay {
    match (one, other) {
        (SegmentWay::Unknown, _) => SegmentWay::Unknown,
        (_, SegmentWay::Unknown) => SegmentWay::Unknown,
        (SegmentWay::Ends, SegmentWay::Ends) => SegmentWay::Ends,
        _ => SegmentWay::GoesOn,
    }
}

/// The way past a statement in which no other one stands.
fn past_simple(kind: &StmtKind) -> SegmentWay {
    match kind {
        StmtKind::Make { args, .. } => way_if(are_plain(args), SegmentWay::Ends),
        StmtKind::Wait { .. } => SegmentWay::Ends,
        StmtKind::Return(value) => way_if(is_plain_if_there(value), SegmentWay::Ends),
        StmtKind::Let { value, .. } => way_if(value.is_plain(), SegmentWay::GoesOn),
        StmtKind::Set { value, .. } => way_if(value.is_plain(), SegmentWay::GoesOn),
        StmtKind::SetCell { value, .. } => way_if(value.is_plain(), SegmentWay::GoesOn),
        StmtKind::Print { value, .. } => way_if(value.is_plain(), SegmentWay::GoesOn),
        StmtKind::SetAt {
            index,
            second,
            value,
            ..
        } => {
            let plain = index.is_plain() && is_plain_if_there(second) && value.is_plain();
            way_if(plain, SegmentWay::GoesOn)
        }
        _ => SegmentWay::Unknown,
    }
}

/// This way, if no method is called on it.
fn way_if(plain: bool, way: SegmentWay) -> SegmentWay {
    if plain { way } else { SegmentWay::Unknown }
}

/// Whether an expression calls no method, if there is one.
fn is_plain_if_there(value: &Option<Expr>) -> bool {
    match value {
        Some(value) => value.is_plain(),
        None => true,
    }
}

/// Whether no argument calls a method.
fn are_plain(args: &Args) -> bool {
    for arg in args.items.as_slice() {
        if !arg.is_plain() {
            return false;
        }
    }
    true
}
