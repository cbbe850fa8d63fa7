//! What is written of a run, in the form that is asked for.
ghost use Rattle.std.specs.Prelude.{◌≡◌, ◌<◌, IfOk};
ghost use Rattle.std.specs.List.{All};
ghost use Rattle.span_profile.specs.Totals.{CanBeSummed};
ghost use Rattle.twe_advise.specs.Forms as forms;

use crate::chains::push_chain_table;
use crate::holds::push_holds_table;
use crate::json::{push_json_head, push_json_held, push_json_tasks, push_json_times};
use crate::json_chains::push_json_steps;
use crate::json_holds::push_json_pairs;
use crate::paces::PacedTime;
use crate::text::{push_head, push_held, push_tasks_table, push_times_table};
use crate::words::Form;
use held_span::{HeldPair, HeldProfile};
use span_profile::Advice;
use std::alloc::Global;
use twe_ast::Item;
use twe_base::{Bytes, Memory};
use twe_program::Prog;

/// What is written of a run of the program in this form.
pub(crate) fn advice_text(
    alloc: Global,
    form: Form,
    p: &Prog,
    advice: &Advice,
    items: &[Item],
    held: &HeldProfile,
    pairs: &[HeldPair],
    paces: &[PacedTime],
) -> Result<Bytes, Memory>
    requires few { CanBeSummed advice.now.works }
    requires some { All (λ pace. 0 < pace.workers) paces.now }
    ensures { IfOk result (λ text. text
        ≡ forms.advice_text form p.now items.now advice.now.profile.work advice.now.profile.span
        held.now.span held.now.holds pairs.now paces.now
        advice.now.works advice.now.tasks advice.now.profile.starts advice.now.steps) }
{
    let (work, span) = (advice.profile.work, advice.profile.span);
    let (works, decls) = (advice.works.as_slice(), p.tasks.as_slice());
    let (tasks, steps) = (advice.tasks.as_slice(), advice.steps.as_slice());
    let starts = advice.profile.starts.as_slice();
    let holds = held.holds.as_slice();
    let mut text = Bytes::new(alloc);
    match form {
        Form::Tables => {
            push_head(&mut text, work, span)?;
            push_held(&mut text, span, held.span)?;
            push_times_table(&mut text, work, span, paces)?;
            push_tasks_table(&mut text, works, tasks, holds, decls)?;
            push_holds_table(&mut text, p, items, pairs)?;
            push_chain_table(&mut text, p, tasks, starts, steps)?;
        }
        Form::Json => {
            push_json_head(&mut text, work, span)?;
            push_json_held(&mut text, span, held.span)?;
            push_json_times(&mut text, work, span, paces)?;
            text.push_all(b"],\"tasks\":[")?;
            push_json_tasks(&mut text, works, tasks, holds, decls)?;
            text.push_all(b"],\"holds\":[")?;
            push_json_pairs(&mut text, p, items, pairs)?;
            text.push_all(b"],\"chain\":[")?;
            push_json_steps(&mut text, p, tasks, starts, steps)?;
            text.push_all(b"]}\n")?;
        }
    }
    Ok(text)
}
