//! What the bodies of all methods read and write, and which methods they call.
ghost use Rattle.std.specs.Prelude.{◌≡◌, ◌++◌, ◌<◌, ◌^◌, length, IfOk, OnOk};
ghost use Rattle.effect_infer.specs.Gathered.{calls_in, calls_of, in_all, starts_in, starts_of};

use crate::found::{AllFound, CallSite, CallSites, FoundNeed};
use crate::needs::{BodyStep, steps_of_body};
use crate::widen::settle;
use std::alloc::Global;
use twe_base::Memory;
use twe_program::{CellDecl, Decl};

/// What bodies read and write, and which methods they call.
#[derive(Debug, Drop)]
pub(crate) struct GatheredBodies {
    /// The needs that bodies have of their own.
    pub starts: AllFound,
    /// The calls in bodies.
    pub calls: CallSites,
}

/// Adds what these steps of a method read and write, and their calls.
fn add_steps(
    gathered: &mut GatheredBodies,
    alloc: Global,
    method: u32,
    params: u32,
    steps: &[BodyStep],
) -> Result<(), Memory>
    ensures starts { OnOk result (gathered.new.starts ≡ gathered.old.starts ++ starts_of method params steps.now) }
    ensures calls { OnOk result (gathered.new.calls ≡ gathered.old.calls ++ calls_of method params steps.now) }
{
    for step in steps {
        match step {
            BodyStep::Touch(need) => {
                let need = settle(alloc, need, params)?;
                gathered.starts.push(FoundNeed { method, need })?;
            }
            BodyStep::Call {
                method: callee,
                args,
            } => {
                let args = args.copy(alloc)?;
                gathered.calls.push(CallSite {
                    callee: *callee,
                    caller: method,
                    params,
                    args,
                })?;
            }
        }
    }
    Ok(())
}

/// What the bodies of these methods read and write, and which methods they call.
pub(crate) fn gather(
    alloc: Global,
    cells: &[CellDecl],
    methods: &[Decl],
) -> Result<GatheredBodies, Memory>
    requires { length methods.now < 2 ^ 32 }
    ensures starts { IfOk result (λ gathered. gathered.starts ≡ in_all (starts_in cells.now) 0 methods.now) }
    ensures calls { IfOk result (λ gathered. gathered.calls ≡ in_all (calls_in cells.now) 0 methods.now) }
{
    let mut gathered = GatheredBodies {
        starts: AllFound::new(alloc),
        calls: CallSites::new(alloc),
    };
    for (number, decl) in methods.iter().enumerate() {
        let steps = steps_of_body(alloc, cells, &decl.body.block)?;
        add_steps(
            &mut gathered,
            alloc,
            number as u32,
            decl.params,
            steps.as_slice(),
        )?;
    }
    Ok(gathered)
}
