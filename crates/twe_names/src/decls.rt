//! The resolver, for declarations of methods and tasks.
ghost use Rattle.std.specs.Prelude.{◌≡◌, ◌++◌, All, IfOk, OnOk};
ghost use Rattle.std.specs.List.{flat_map};
ghost use Rattle.name_check.specs.Sites.{at_body};
ghost use Rattle.twe_names.specs.Meaning.{declared_body, decl_of, returns_value};
ghost use Rattle.twe_names.specs.PathMeaning.{effects_of_clause};
ghost use Rattle.twe_names.specs.inner.Numbers.{IsSmallClause, IsSmallDecl};

use crate::paths::effect_path;
use crate::statements::statements;
use effect_sets::{Effect, Effects, Summary};
use name_check::{BodyScope, Globals, Locals};
use std::alloc::Global;
use twe_ast::{Clause, Decl as Written, ReturnType};
use twe_base::Memory;
use twe_program::{Body, Decl};

/// Adds the effects of a clause.
fn add_clause(
    effects: &mut Effects,
    alloc: Global,
    globals: &Globals,
    params: &Locals,
    clause: &Clause,
) -> Result<(), Memory>
    requires { IsSmallClause clause.now }
    ensures { OnOk result (effects.new ≡ effects.old ++ effects_of_clause globals.now params.now clause.now) }
{
    for path in clause.paths.as_slice() {
        let path = effect_path(alloc, globals, params, path)?;
        effects.push(Effect {
            write: clause.write,
            path,
        })?;
    }
    Ok(())
}

/// The summary of these clauses.
fn summary(
    alloc: Global,
    globals: &Globals,
    params: &Locals,
    clauses: &[Clause],
) -> Result<Summary, Memory>
    requires { All IsSmallClause clauses.now }
    ensures { IfOk result (λ summary. summary.effects ≡ flat_map (effects_of_clause globals.now params.now) clauses.now) }
{
    let mut effects = Effects::new(alloc);
    for clause in clauses {
        add_clause(&mut effects, alloc, globals, params, clause)?;
    }
    Ok(Summary { effects })
}

/// The meaning of the body of a declaration, from the scope at its start.
#[tactic(auto, using(crate::proofs::Closing::close_is))]
fn body(
    alloc: Global,
    globals: &Globals,
    mut start: BodyScope,
    written: &Written,
) -> Result<Body, Memory>
    requires start { start ≡ at_body written.now }
    requires small { IsSmallDecl written.now }
    ensures { IfOk result (λ body. body ≡ declared_body globals.now written.now) }
{
    let block = statements(&written.body, alloc, globals, &mut start)?;
    Ok(Body {
        block,
        vars: start.vars,
        futures: start.futures,
        points: start.points + 1,
        close: written.body.close,
    })
}

/// Whether a value is returned.
fn returns_value(returns: ReturnType) -> bool
    ensures { result ≡ returns_value returns }
{
    match returns {
        ReturnType::Int => true,
        ReturnType::Void => false,
    }
}

/// The meaning of a declaration.
pub fn declaration(
    alloc: Global,
    globals: &Globals,
    deterministic: bool,
    written: &Written,
) -> Result<Decl, Memory>
    requires { IsSmallDecl written.now }
    ensures { IfOk result (λ decl. decl ≡ decl_of globals.now deterministic written.now) }
{
    let name = written.name.text.copy(alloc)?;
    let start = BodyScope::at_body(alloc, written)?;
    let summary = summary(alloc, globals, &start.locals, written.effects.as_slice())?;
    let body = body(alloc, globals, start, written)?;
    Ok(Decl {
        name,
        params: written.params.len() as u32,
        int: returns_value(written.returns),
        deterministic,
        summary,
        body,
        place: written.name.place,
    })
}
