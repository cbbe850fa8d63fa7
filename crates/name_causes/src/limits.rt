//! What is needed beside names and types, and what is there: limits, one star in a path, a `return` before the end of a body.
ghost use Rattle.std.specs.Prelude.{◌≡◌, ◌++◌, IfOk, OnOk, length, slice_get};
ghost use Rattle.twe_base.specs.Language.{max_effects};
ghost use Rattle.std.specs.List.{flat_map};
ghost use Rattle.name_check.specs.OtherFailures.{cell_element_over_limit};
ghost use Rattle.name_causes.specs.declared.need.NameLimit.TheVariants.{Elements as ElementsLimit};
ghost use Rattle.name_causes.specs.declared.need.NameNeed.TheVariants.{Over as OverLimit};
ghost use Rattle.name_causes.specs.Others.{first_star, need_there, needs_of_clause, needs_of_decl, needs_of_end, needs_of_path, places_of_effects, places_of_paths};

use crate::need::{NameLimit, NameNeed, PlacedNeed, PlacedNeeds};
use name_check::{
    cell_element_over_limit, element_over_limit, is_star, is_void, parameter_over_limit,
    second_star,
};
use std::alloc::Global;
use twe_ast::{CellElem, Clause, Decl, Path, PathElem};
use twe_base::{List, MAX_EFFECTS, Memory, Place};

/// Adds the need at the place, if there is a place.
#[tactic(auto, using(crate::proofs::Listing::listed))]
fn add_there(needs: &mut PlacedNeeds, place: Option<Place>, need: NameNeed) -> Result<(), Memory>
    ensures { OnOk result (needs.new ≡ needs.old ++ need_there place need) }
{
    match place {
        None => Ok(()),
        Some(place) => needs.push(PlacedNeed { place, need }),
    }
}

/// The place of the first `*`, if there is one.
fn first_star(elems: &[PathElem]) -> Option<Place>
    ensures { result ≡ first_star elems.now }
{
    for elem in elems {
        if is_star(elem) {
            return Some(elem.place);
        }
    }
    None
}

/// Adds what the path of an effect needs.
#[tactic(auto, using(crate::proofs::Listing::listed))]
fn add_path_limits(needs: &mut PlacedNeeds, path: &Path) -> Result<(), Memory>
    ensures { OnOk result (needs.new ≡ needs.old ++ needs_of_path path.now) }
{
    let limit = NameLimit::Elements;
    let count = path.elems.len() as u64;
    let over = NameNeed::Over { limit, count };
    let first = first_star(path.elems.as_slice());
    let star = NameNeed::SecondStar { first };
    add_there(needs, element_over_limit(&path.elems), over)?;
    add_there(needs, second_star(path.elems.as_slice()), star)
}

/// Adds what the paths of a clause need.
fn add_clause_limits(needs: &mut PlacedNeeds, clause: &Clause) -> Result<(), Memory>
    ensures { OnOk result (needs.new ≡ needs.old ++ needs_of_clause clause.now) }
{
    for path in clause.paths.as_slice() {
        add_path_limits(needs, path)?;
    }
    Ok(())
}

/// Adds what the paths of clauses need.
fn add_effect_limits(needs: &mut PlacedNeeds, clauses: &[Clause]) -> Result<(), Memory>
    ensures { OnOk result (needs.new ≡ needs.old ++ flat_map needs_of_clause clauses.now) }
{
    for clause in clauses {
        add_clause_limits(needs, clause)?;
    }
    Ok(())
}

/// Adds the places of paths.
fn add_places(places: &mut List<Place>, paths: &[Path]) -> Result<(), Memory>
    ensures { OnOk result (places.new ≡ places.old ++ places_of_paths paths.now) }
{
    for path in paths {
        places.push(path.place)?;
    }
    Ok(())
}

/// The places of the paths of clauses.
fn places_of_effects(alloc: Global, clauses: &[Clause]) -> Result<List<Place>, Memory>
    ensures { IfOk result (λ places. places ≡ places_of_effects clauses.now) }
{
    let mut places = List::new(alloc);
    for clause in clauses {
        add_places(&mut places, clause.paths.as_slice())?;
    }
    Ok(places)
}

/// The place of the first effect over the limit, if there is one.
fn effect_over(places: &List<Place>) -> Option<Place>
    ensures { result ≡ slice_get places.now max_effects }
{
    match places.get(MAX_EFFECTS) {
        Some(place) => Some(*place),
        None => None,
    }
}

/// Adds that a body that returns a value needs a `return` before its closing brace.
#[tactic(auto, using(crate::proofs::Listing::listed, name_check::proofs::Bodies::close_is))]
fn add_end(needs: &mut PlacedNeeds, decl: &Decl) -> Result<(), Memory>
    ensures { OnOk result (needs.new ≡ needs.old ++ needs_of_end decl.now) }
{
    if is_void(decl.returns) {
        return Ok(());
    }
    let decl_place = decl.name.place;
    let place = decl.body.close;
    needs.push(PlacedNeed {
        place,
        need: NameNeed::NoReturn { decl_place },
    })
}

/// Adds what a method or a task needs by itself, without its names and types.
pub(crate) fn add_limits(needs: &mut PlacedNeeds, alloc: Global, decl: &Decl) -> Result<(), Memory>
    ensures { OnOk result (needs.new ≡ needs.old ++ needs_of_decl decl.now) }
{
    let limit = NameLimit::Parameters;
    let count = decl.params.len() as u64;
    add_there(
        needs,
        parameter_over_limit(&decl.params),
        NameNeed::Over { limit, count },
    )?;
    let places = places_of_effects(alloc, decl.effects.as_slice())?;
    let limit = NameLimit::Effects;
    let count = places.len() as u64;
    add_there(needs, effect_over(&places), NameNeed::Over { limit, count })?;
    add_effect_limits(needs, decl.effects.as_slice())?;
    add_end(needs, decl)
}

/// Adds that no element of the path of a cell is over the limit.
pub(crate) fn add_cell_limits(needs: &mut PlacedNeeds, elems: &List<CellElem>) -> Result<(), Memory>
    ensures { OnOk result (needs.new ≡ needs.old
        ++ need_there (cell_element_over_limit elems.now) (OverLimit ElementsLimit (length elems.now))) }
{
    let limit = NameLimit::Elements;
    let count = elems.len() as u64;
    add_there(
        needs,
        cell_element_over_limit(elems),
        NameNeed::Over { limit, count },
    )
}
