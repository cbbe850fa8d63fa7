//! The rules on how much is declared, on second stars, and on bodies that can end without a `return`.
ghost use Rattle.std.specs.Prelude.{◌≡◌, false};
ghost use Rattle.std.specs.List.{flat_map};
ghost use Rattle.twe_ast.specs.declared.item.Clause.{Clause as EffectClause};
ghost use Rattle.name_check.specs.Limits.{is_star};
ghost use Rattle.name_check.specs.declared.rule.NRule.TheVariants.{N7 as N7_};
ghost use Rattle.name_check.specs.inner.First.{first_from};
ghost use Rattle.name_check.specs.OtherFailures as failures;

use crate::check_simple::is_void;
use crate::ends::{block_ends, close_of};
use crate::rule::NRule;
use twe_ast::{CellElem, Clause, Decl, Name, Path, PathElem, PathElemKind};
use twe_base::{Failure, List, MAX_EFFECTS, MAX_PARAMETERS, MAX_PATH_ELEMENTS, Place, report_if};

/// Reports the failure of the rule at the place, if there is one.
pub fn report_at(first: &mut Option<Failure<NRule>>, rule: NRule, place: Option<Place>)
    ensures { first.new ≡ first_from first.old (failures.failures_of_place rule place) }
{
    if let Some(place) = place {
        report_if(first, true, rule, place);
    }
}

/// The place of the first parameter that exceeds the limit on parameters, if there is one.
pub fn parameter_over_limit(names: &List<Name>) -> Option<Place>
    ensures { result ≡ failures.parameter_over_limit names.now }
{
    match names.get(MAX_PARAMETERS) {
        Some(name) => Some(name.place),
        None => None,
    }
}

/// The place of the first element of an effect's path that exceeds the limit on elements, if there is one.
pub fn element_over_limit(elems: &List<PathElem>) -> Option<Place>
    ensures { result ≡ failures.element_over_limit elems.now }
{
    match elems.get(MAX_PATH_ELEMENTS) {
        Some(elem) => Some(elem.place),
        None => None,
    }
}

/// The place of the first element of a cell's path that exceeds the limit on elements, if there is one.
pub fn cell_element_over_limit(elems: &List<CellElem>) -> Option<Place>
    ensures { result ≡ failures.cell_element_over_limit elems.now }
{
    match elems.get(MAX_PATH_ELEMENTS) {
        Some(elem) => Some(elem.place),
        None => None,
    }
}

/// The place of the first path of the clauses that exceeds the limit on effects, if there is one.
fn path_over_limit(clauses: &[Clause]) -> Option<Place>
    ensures { result ≡ failures.path_over_limit (flat_map (λ (clause : EffectClause). clause.paths) clauses.now) }
{
    let mut left = MAX_EFFECTS;
    for clause in clauses {
        match clause.paths.get(left) {
            Some(path) => return Some(path.place),
            None => left -= clause.paths.len(),
        }
    }
    None
}

/// Whether an element is a `*`.
pub fn is_star(elem: &PathElem) -> bool
    ensures { result ≡ is_star elem.now }
{
    match elem.kind {
        PathElemKind::Star => true,
        _ => false,
    }
}

/// The place of the second `*` among the elements, if there is one.
pub fn second_star(elems: &[PathElem]) -> Option<Place>
    ensures { result ≡ failures.second_star false elems.now }
{
    let mut before = false;
    for elem in elems {
        if is_star(elem) {
            if before {
                return Some(elem.place);
            }
            before = true;
        }
    }
    None
}

/// Checks the lengths and the stars of paths.
#[tactic(auto, using(crate::proofs::FirstFailures::firsts))]
fn check_paths(paths: &[Path], first: &mut Option<Failure<NRule>>)
    ensures { first.new ≡ first_from first.old (failures.paths_failures paths.now) }
{
    for path in paths {
        report_at(first, NRule::N7, element_over_limit(&path.elems));
        report_at(first, NRule::N9, second_star(path.elems.as_slice()));
    }
}

/// Checks the lengths and the stars of the paths of clauses.
#[tactic(auto, using(crate::proofs::FirstFailures::firsts))]
fn check_clauses(clauses: &[Clause], first: &mut Option<Failure<NRule>>)
    ensures { first.new ≡ first_from first.old (failures.clauses_failures clauses.now) }
{
    for clause in clauses {
        check_paths(clause.paths.as_slice(), first);
    }
}

/// Whether a value is returned and the body can end without a `return`.
fn lacks_return(decl: &Decl) -> bool
    ensures { result ≡ failures.lacks_return decl.now }
{
    !is_void(decl.returns) && !block_ends(&decl.body)
}

/// Checks the limits on a method or a task, the stars in its effects, and that its body ends with a `return` if it returns
/// a value.
#[tactic(auto, using(crate::proofs::FirstFailures::firsts))]
pub fn check_limits(decl: &Decl, first: &mut Option<Failure<NRule>>)
    ensures { first.new ≡ first_from first.old (failures.decl_failures decl.now) }
{
    report_at(first, NRule::N7, parameter_over_limit(&decl.params));
    report_at(first, NRule::N7, path_over_limit(decl.effects.as_slice()));
    check_clauses(decl.effects.as_slice(), first);
    report_if(first, lacks_return(decl), NRule::N5, close_of(&decl.body));
}

/// Checks the length of the path of a cell.
pub fn check_cell_limit(elems: &List<CellElem>, first: &mut Option<Failure<NRule>>)
    ensures { first.new ≡ first_from first.old (failures.failures_of_place N7_ (failures.cell_element_over_limit elems.now)) }
{
    report_at(first, NRule::N7, cell_element_over_limit(elems));
}
