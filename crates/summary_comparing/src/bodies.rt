//! The accesses and calls of bodies, with their places.
ghost use Rattle.std.specs.Prelude.{◌≡◌, ◌++◌, IfOk, OnOk, map};
ghost use Rattle.summary_comparing.specs.Placed.{all_bodies, body_steps, step_place, step_places};

use effect_check::{Act, ActKind, acts_of_body};
use effect_infer::needs::{Steps, steps_of_body};
use std::alloc::Global;
use twe_base::{List, Memory, Place};
use twe_program::{Decl, Prog};

/// Places in the text, in order.
pub type Places = List<Place>;

/// What a body accesses and calls.
#[derive(Debug, Drop)]
pub struct BodySteps {
    /// The number of parameters.
    pub params: u32,
    /// The accesses and the calls, in the order of the text.
    pub steps: Steps,
    /// The place of each of them.
    pub places: Places,
}

/// What the bodies of all methods access and call.
pub type Bodies = List<BodySteps>;

/// Appends the place of an access or of a call.
fn push_place(places: &mut Places, act: &Act) -> Result<(), Memory>
    ensures { OnOk result (places.new ≡ places.old ++ step_place act.now.kind) }
{
    match &act.kind {
        ActKind::Touch { place, .. } => places.push(*place),
        ActKind::Call { place, .. } => places.push(*place),
        ActKind::Make { .. } => Ok(()),
        ActKind::Wait { .. } => Ok(()),
    }
}

/// The places of the accesses and of the calls.
fn places_of(alloc: Global, acts: &[Act]) -> Result<Places, Memory>
    ensures { IfOk result (λ places. places ≡ step_places acts.now) }
{
    let mut places = Places::new(alloc);
    for act in acts {
        push_place(&mut places, act)?;
    }
    Ok(places)
}

/// What the body of the declaration accesses and calls.
pub fn body_of(alloc: Global, p: &Prog, decl: &Decl) -> Result<BodySteps, Memory>
    ensures { IfOk result (λ body. body ≡ body_steps p.now decl.now) }
{
    let steps = steps_of_body(alloc, p.cells.as_slice(), &decl.body.block)?;
    let acts = acts_of_body(alloc, p, &decl.body.block)?;
    let places = places_of(alloc, acts.as_slice())?;
    Ok(BodySteps {
        params: decl.params,
        steps,
        places,
    })
}

/// The same of each of the declarations.
fn bodies_among(alloc: Global, p: &Prog, decls: &[Decl]) -> Result<Bodies, Memory>
    ensures { IfOk result (λ bodies. bodies ≡ map (body_steps p.now) decls.now) }
{
    let mut bodies = Bodies::new(alloc);
    for decl in decls {
        bodies.push(body_of(alloc, p, decl)?)?;
    }
    Ok(bodies)
}

/// What the bodies of the program's methods access and call.
pub fn bodies_of(alloc: Global, p: &Prog) -> Result<Bodies, Memory>
    ensures { IfOk result (λ bodies. bodies ≡ all_bodies p.now) }
{
    bodies_among(alloc, p, p.methods.as_slice())
}
