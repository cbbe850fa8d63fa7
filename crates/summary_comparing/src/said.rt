//! Effects as a declaration says them, which knows its parameters and none of its locals.
ghost use Rattle.std.specs.Prelude.{◌≡◌, IfOk, map};
ghost use Rattle.effect_infer.specs.needs.Needs.{settled_elem};
ghost use Rattle.summary_comparing.specs.Needed.{said_effect, said_path};

use effect_sets::Effect;
use region_paths::{Elem, Elems, Path};
use std::alloc::{AllocError, Global};
use twe_base::Memory;

/// The element as a declaration says it that has so many parameters: a variable that is none of them becomes any index.
pub(crate) fn said_elem(elem: Elem, params: u32) -> Elem
    ensures { result ≡ settled_elem params elem }
{
    match elem {
        Elem::Var(k) => { if k < params { elem } else { Elem::AnyIndex } }
        Elem::Name(_) => elem,
        Elem::Index(_) => elem,
        Elem::AnyIndex => elem,
    }
}

/// The same of each element.
fn said_elems(alloc: Global, elems: &[Elem], params: u32) -> Result<Vec<Elem>, AllocError>
    ensures { IfOk result (λ list. list.items ≡ map (settled_elem params) elems.now) }
{
    elems.iter().map(|e| said_elem(*e, params)).collect(alloc)
}

/// The path as a declaration says it that has so many parameters.
fn said_path(alloc: Global, path: &Path, params: u32) -> Result<Path, Memory>
    ensures { IfOk result (λ said. said ≡ said_path params path.now) }
{
    let elems = said_elems(alloc, path.elems().as_slice(), params)?;
    let tail = said_elems(alloc, path.tail().as_slice(), params)?;
    Ok(Path::new(Elems::from(elems), path.star(), Elems::from(tail)))
}

/// The effect as a declaration says it that has so many parameters.
pub(crate) fn said_effect(alloc: Global, effect: &Effect, params: u32) -> Result<Effect, Memory>
    ensures { IfOk result (λ said. said ≡ said_effect params effect.now) }
{
    let path = said_path(alloc, &effect.path, params)?;
    Ok(Effect {
        write: effect.write,
        path,
    })
}
