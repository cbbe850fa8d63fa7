//! The operators on 32-bit numbers. Truth values are the numbers 0 and 1.
ghost use Rattle.std.specs.Prelude.{◌≡◌, ◌↔◌};
ghost use Rattle.seg_meaning.specs.Arithmetic.{decided, is_true, negation, negative, number_of, operated, quotient, remainder};

use twe_program::BinOp;

/// The number of a truth value: 1 for `true` and 0 for `false`.
pub(crate) fn number_of(truth: bool) -> i32
    ensures { result ≡ number_of truth }
{
    if truth { 1 } else { 0 }
}

/// Whether a number stands for `true`. Each number but 0 does.
pub(crate) fn is_true(value: i32) -> bool
    ensures { result ≡ is_true value }
{
    value != 0
}

/// The quotient, rounded toward zero; -2147483648 / -1 wraps to -2147483648. Returns none exactly if the divisor is 0.
fn quotient(x: i32, y: i32) -> Option<i32>
    ensures { result ≡ quotient x y }
{
    if y == 0 {
        None
    } else {
        Some(x.wrapping_div(y))
    }
}

/// The remainder, with the sign of the dividend. Returns none exactly if the divisor is 0.
fn remainder(x: i32, y: i32) -> Option<i32>
    ensures { result ≡ remainder x y }
{
    if y == 0 {
        None
    } else {
        Some(x.wrapping_rem(y))
    }
}

/// The value of an operator on its two operands; sums, differences and products wrap. Returns none exactly if the
/// operator divides by zero.
#[inline(always)]
pub(crate) fn operate(op: BinOp, x: i32, y: i32) -> Option<i32>
    ensures { result ≡ operated op x y }
{
    match op {
        BinOp::Or => Some(y),
        BinOp::And => Some(y),
        BinOp::Equal => Some(number_of(x == y)),
        BinOp::NotEqual => Some(number_of(x != y)),
        BinOp::Less => Some(number_of(x < y)),
        BinOp::LessEqual => Some(number_of(x <= y)),
        BinOp::Greater => Some(number_of(x > y)),
        BinOp::GreaterEqual => Some(number_of(x >= y)),
        BinOp::Add => Some(x.wrapping_add(y)),
        BinOp::Sub => Some(x.wrapping_sub(y)),
        BinOp::Mul => Some(x.wrapping_mul(y)),
        BinOp::Div => quotient(x, y),
        BinOp::Rem => remainder(x, y),
    }
}

/// The value of an operator if its left operand alone decides it: a true operand decides `||`, and a false one decides
/// `&&`. Returns none otherwise.
#[inline(always)]
pub(crate) fn decide(op: BinOp, left: bool) -> Option<i32>
    ensures { result ≡ decided op left }
{
    match (op, left) {
        (BinOp::Or, true) => Some(1),
        (BinOp::And, false) => Some(0),
        _ => None,
    }
}

/// The negative of a number. It wraps: the negative of -2147483648 is -2147483648.
pub(crate) fn negate(x: i32) -> i32
    ensures { result ≡ negative x }
{
    x.wrapping_neg()
}

/// The negation of a truth value.
pub(crate) fn invert(x: i32) -> i32
    ensures { result ≡ negation x }
{
    number_of(!is_true(x))
}
