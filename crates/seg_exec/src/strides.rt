//! Strides: several steps of the machine at once. What calls no method is evaluated or assigned at once, by recursion over the
//! expression, and with the same accesses in the same order as the steps make. The turns of a loop are made in place as long as
//! its body has only such assignments. A branch and a turn of another loop come next without a frame of their own, and an `if`
//! of which no branch is picked is passed in place. An operator whose value is returned from a body, and whose operands call
//! methods, takes one frame. All else is done by a step of the machine.

mod arguments;
mod assign;
mod branch;
mod carry;
mod choose;
mod enter;
mod evaluate;
mod gather;
mod give;
pub(crate) mod onward;
mod perform;
mod pick;
mod plain;
mod return_value;
pub(crate) mod run;
mod serve;
mod turn;
pub(crate) mod value;
