//! The resolver, for a whole tree.
ghost use Rattle.std.specs.Prelude.{◌≡◌, ◌++◌, [], ◌∷◌, All, IfOk, OnOk, codes};
ghost use Rattle.std.specs.List.{flat_map};
ghost use Rattle.twe_program.specs.WellFormed.{IsWellFormed};
ghost use Rattle.name_check.specs.Names.{globals_of, binding_of};
ghost use Rattle.twe_names.specs.BodyMeaning.{task_number};
ghost use Rattle.twe_names.specs.FromText.{IsFromText};
ghost use Rattle.twe_names.specs.Meaning.{methods_of_item, program_of, regions_of_item, tasks_of_item};
ghost use Rattle.twe_names.specs.inner.Numbers.{IsSmallItem};

use crate::cells::cells;
use crate::decls::declaration;
use crate::numbers::task_number;
use name_check::{Globals, Locals, look_up};
use std::alloc::Global;
use twe_ast::{Ast, Item};
use twe_base::{List, Memory, Word};
use twe_program::{Decl, Prog};

/// Adds the regions that an item declares.
fn add_regions(regions: &mut List<Word>, alloc: Global, item: &Item) -> Result<(), Memory>
    ensures { OnOk result (regions.new ≡ regions.old ++ regions_of_item item.now) }
{
    if let Item::Regions(names) = item {
        for name in names.as_slice() {
            regions.push(name.text.copy(alloc)?)?;
        }
    }
    Ok(())
}

/// The names of the regions: `Console`, and then those that are declared.
fn regions(alloc: Global, items: &[Item]) -> Result<List<Word>, Memory>
    ensures { IfOk result (λ regions. regions ≡ codes "Console" ∷ flat_map regions_of_item items.now) }
{
    let mut regions = List::new(alloc);
    regions.push(Word::from_text(alloc, "Console")?)?;
    for item in items {
        add_regions(&mut regions, alloc, item)?;
    }
    Ok(regions)
}

/// Adds the method that an item declares, if it declares one.
fn add_method(
    methods: &mut List<Decl>,
    alloc: Global,
    globals: &Globals,
    item: &Item,
) -> Result<(), Memory>
    requires { IsSmallItem item.now }
    ensures { OnOk result (methods.new ≡ methods.old ++ methods_of_item globals.now item.now) }
{
    match item {
        Item::Method(decl) => methods.push(declaration(alloc, globals, false, decl)?),
        _ => Ok(()),
    }
}

/// The methods.
fn methods(alloc: Global, globals: &Globals, items: &[Item]) -> Result<List<Decl>, Memory>
    requires { All IsSmallItem items.now }
    ensures { IfOk result (λ methods. methods ≡ flat_map (methods_of_item globals.now) items.now) }
{
    let mut methods = List::new(alloc);
    for item in items {
        add_method(&mut methods, alloc, globals, item)?;
    }
    Ok(methods)
}

/// Adds the task that an item declares, if it declares one.
fn add_task(
    tasks: &mut List<Decl>,
    alloc: Global,
    globals: &Globals,
    item: &Item,
) -> Result<(), Memory>
    requires { IsSmallItem item.now }
    ensures { OnOk result (tasks.new ≡ tasks.old ++ tasks_of_item globals.now item.now) }
{
    match item {
        Item::Task {
            deterministic,
            decl,
        } => tasks.push(declaration(alloc, globals, *deterministic, decl)?),
        _ => Ok(()),
    }
}

/// The tasks.
fn tasks(alloc: Global, globals: &Globals, items: &[Item]) -> Result<List<Decl>, Memory>
    requires { All IsSmallItem items.now }
    ensures { IfOk result (λ tasks. tasks ≡ flat_map (tasks_of_item globals.now) items.now) }
{
    let mut tasks = List::new(alloc);
    for item in items {
        add_task(&mut tasks, alloc, globals, item)?;
    }
    Ok(tasks)
}

/// The number of the task `main`.
fn main_task(alloc: Global, globals: &Globals) -> Result<u32, Memory>
    ensures { IfOk result (λ main. main ≡ task_number (binding_of globals.now [] (codes "main"))) }
{
    let name = Word::from_text(alloc, "main")?;
    Ok(task_number(look_up(globals, &Locals::new(alloc), &name)))
}

/// The program of a tree that fails no rule of names.
#[tactic(auto, using(crate::proofs::Small::small_items))]
pub fn program(alloc: Global, ast: &Ast, globals: &Globals) -> Result<Prog, Memory>
    requires text { IsFromText ast.now }
    requires names { globals.now ≡ globals_of ast.now }
    requires well_formed { IsWellFormed (program_of ast.now) }
    ensures { IfOk result (λ p. p ≡ program_of ast.now) }
{
    let items = ast.items.as_slice();
    Ok(Prog {
        regions: regions(alloc, items)?,
        cells: cells(alloc, globals, items)?,
        methods: methods(alloc, globals, items)?,
        tasks: tasks(alloc, globals, items)?,
        main: main_task(alloc, globals)?,
    })
}
