//! What a text needs, and the cause of a failure of a rule of names in it.
ghost use Rattle.std.specs.Prelude.{◌≡◌, ◌↔◌, ◌++◌, ◌≤◌, ◌+◌, ◌-◌, ◌<◌, ◌^◌, IfNone, IfOk, IfSome, IsTrue, OnOk};
ghost use Rattle.std.specs.List.{All, flat_map, sum_by};
ghost use Rattle.name_check.specs.FailsName.{FailsName};
ghost use Rattle.name_check.specs.Size.{IsCountable, size_of_item};
ghost use Rattle.name_causes.specs.Causes.{IsNameCause, cells_made_by, cells_up_to, declares_cells_at};
ghost use Rattle.name_causes.specs.Others.{needs_of_item, needs_of_text};
ghost use Rattle.name_causes.specs.inner.Rest.{BreaksRule, IsBrokenAmong, IsRest, KeepsRule};

use crate::breaking::{breaks, is_numbered};
use crate::decls::add_item;
use crate::need::{NameLimit, NameNeed, PlacedNeed, PlacedNeeds};
use name_check::{Globals, NRule};
use std::alloc::Global;
use twe_ast::{Ast, CellShape, Item};
use twe_base::{List, MAX_CELLS, Memory, Place, Word};

/// Adds what items need.
fn add_items(
    needs: &mut PlacedNeeds,
    alloc: Global,
    globals: &Globals,
    items: &[Item],
) -> Result<(), Memory>
    requires { sum_by size_of_item items.now < 2 ^ 32 }
    ensures { OnOk result (needs.new ≡ needs.old ++ flat_map (needs_of_item globals.now) items.now) }
{
    for item in items {
        add_item(needs, alloc, globals, item)?;
    }
    Ok(())
}

/// What a text needs at its places, and what is there.
fn needs_of(alloc: Global, ast: &Ast) -> Result<PlacedNeeds, Memory>
    requires { IsCountable ast.now }
    ensures { IfOk result (λ needs. needs ≡ needs_of_text ast.now) }
{
    let globals = Globals::of(alloc, ast)?;
    let mut needs = List::new(alloc);
    add_items(&mut needs, alloc, &globals, ast.items.as_slice())?;
    let main = Word::from_text(alloc, "main")?;
    let found = globals.global(&main);
    needs.push(PlacedNeed {
        place: ast.end,
        need: NameNeed::NoMain { found },
    })?;
    Ok(needs)
}

/// Whether a need is at the place and breaks the rule.
fn breaks_there(placed: &PlacedNeed, rule: NRule, place: Place) -> bool
    ensures { IsTrue result ↔ BreaksRule rule place placed.now }
{
    if placed.place != place {
        return false;
    }
    breaks(rule, placed.need)
}

/// The first of the needs at the place that breaks the rule, if one does.
fn first_broken(needs: &[PlacedNeed], rule: NRule, place: Place) -> Option<NameNeed>
    ensures found { IfSome result (IsBrokenAmong rule place needs.now) }
    ensures none { IfNone result (All (KeepsRule rule place) needs.now) }
{
    for placed in needs {
        if breaks_there(placed, rule, place) {
            return Some(placed.need);
        }
    }
    None
}

/// How many cells an item makes.
fn cells_made_by(item: &Item) -> u64
    ensures made { result ≡ cells_made_by item.now }
    ensures small { result ≤ 2 ^ 64 - 2 ^ 33 + 1 }
{
    let Item::Cell(cell) = item else {
        return 0;
    };
    match &cell.shape {
        CellShape::Grid { rows, columns } => u64::from(*rows) * u64::from(*columns),
        CellShape::Array { length } => u64::from(*length),
        CellShape::Scalar(_) => 1,
    }
}

/// Whether an item is the declaration of cells whose name is at the place.
fn declares_cells_at(place: Place, item: &Item) -> bool
    ensures { result ≡ declares_cells_at place item.now }
{
    match item {
        Item::Cell(cell) => cell.name.place.line == place.line && cell.name.place.col == place.col,
        _ => false,
    }
}

/// How many cells there are up to the declaration at the place, or up to the first that is over the limit.
fn cells_up_to(place: Place, items: &[Item]) -> u64
    ensures { result ≡ cells_up_to place 0 items.now }
{
    let mut sum = 0;
    for item in items {
        sum += cells_made_by(item);
        if declares_cells_at(place, item) || sum > u64::from(MAX_CELLS) {
            return sum;
        }
    }
    sum
}

/// The cause of a failure that no need of the list has.
fn rest_cause(ast: &Ast, rule: NRule, place: Place) -> NameNeed
    requires { IsRest ast.now rule place }
    ensures { IsNameCause ast.now rule place result }
{
    if is_numbered(2, rule) {
        NameNeed::Again
    } else {
        let limit = NameLimit::Cells;
        let count = cells_up_to(place, ast.items.as_slice());
        NameNeed::Over { limit, count }
    }
}

/// The cause of a failure of a rule of names, of which there is always one.
pub fn name_cause(alloc: Global, ast: &Ast, rule: NRule, place: Place) -> Result<NameNeed, Memory>
    requires countable { IsCountable ast.now }
    requires fails { FailsName ast.now rule place }
    ensures { IfOk result (IsNameCause ast.now rule place) }
{
    let needs = needs_of(alloc, ast)?;
    let found = first_broken(needs.as_slice(), rule, place);
    match found {
        Some(need) => Ok(need),
        None => Ok(rest_cause(ast, rule, place)),
    }
}
