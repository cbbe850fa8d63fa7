//! What is said of a fault.
ghost use Rattle.std.specs.Prelude.{◌≡◌, ◌∷◌, ◌++◌, [], IfOk, OnOk};
ghost use Rattle.run_notes.specs.Faulted.{bounds_found, bounds_text, dims_named, fault_caption, fault_explanation, fault_headline, fault_notes, fault_remark, fault_remarks, index_words, index_words_in, runs_of_snapshot, task_fuel_text, any_bound, grid_bounds, made_caption, made_notes, notes_if, number_after, row_bound, task_limit_text};

use crate::calls_shown::{CallRun, push_call_notes, push_calls_left_out, runs_of};
use crate::cells_shown::push_snapshot_cells_shown;
use crate::task_texts::push_task;
use crate::variables_shown::push_snapshot_remarks;
use explain_pages::{Explanation, Note, word_at};
use itoa::Buffer;
use machine_state::{FirstFault, State};
use run_facts::{TaskMaking, making_of};
use seg_exec::FaultSnapshot;
use seg_journal::Limits;
use seg_meaning::FaultCause;
use std::alloc::Global;
use twe_ast::Item;
use twe_base::{Bytes, FaultKind, List, Memory, Place};
use twe_program::{CellDecl, Dims, Prog};

/// What is wrong.
fn fault_headline(kind: FaultKind) -> &'static [u8]
    ensures { result.now ≡ fault_headline kind }
{
    match kind {
        FaultKind::DivZero => b"a number is divided by 0",
        FaultKind::Index => b"an index is outside of its array",
        FaultKind::Fuel => b"a task has no fuel left",
        FaultKind::Depth => b"too many calls are active in a task",
        FaultKind::TaskLimit => b"no more tasks may be made",
    }
}

/// How many elements the array of this name is declared with, if there is one.
fn dims_named(word: &[u8], cells: &[CellDecl]) -> Option<Dims>
    ensures { result ≡ dims_named word.now cells.now }
{
    for cell in cells {
        if cell.name.as_bytes() == word {
            return Some(cell.dims);
        }
    }
    None
}

/// What an index of an array of this name may be.
fn row_bound(alloc: Global, name: &[u8], count: u32) -> Result<Bytes, Memory>
    ensures { IfOk result (λ text. text ≡ row_bound name.now count) }
{
    let mut text = Bytes::from_slice(alloc, b"an index of `")?;
    text.push_all(name)?;
    text.push_all(b"` is at least 0, and less than ")?;
    text.push_all(Buffer::new().format(count).as_bytes())?;
    Ok(text)
}

/// What the indexes of a grid of this name may be.
fn grid_bounds(alloc: Global, name: &[u8], rows: u32, columns: u32) -> Result<Bytes, Memory>
    ensures { IfOk result (λ text. text ≡ grid_bounds name.now rows columns) }
{
    let mut text = Bytes::from_slice(alloc, b"a row of `")?;
    text.push_all(name)?;
    text.push_all(b"` is at least 0, and less than ")?;
    text.push_all(Buffer::new().format(rows).as_bytes())?;
    text.push_all(b"; a column is at least 0, and less than ")?;
    text.push_all(Buffer::new().format(columns).as_bytes())?;
    Ok(text)
}

/// What the indexes of any array may be.
fn any_bound(alloc: Global) -> Result<Bytes, Memory>
    ensures { IfOk result (λ text. text ≡ any_bound) }
{
    Bytes::from_slice(
        alloc,
        b"an index is at least 0, and less than the bound of its array",
    )
}

/// What the indexes of a declaration of this name may be.
fn bounds_text(alloc: Global, name: &[u8], dims: Dims) -> Result<Bytes, Memory>
    ensures { IfOk result (λ text. text ≡ bounds_text name.now dims) }
{
    match dims {
        Dims::Scalar => any_bound(alloc),
        Dims::Row(count) => row_bound(alloc, name, count),
        Dims::Grid { rows, cols } => grid_bounds(alloc, name, rows, cols),
    }
}

/// The same of a declaration that was looked up.
fn bounds_found(alloc: Global, name: &[u8], dims: Option<Dims>) -> Result<Bytes, Memory>
    ensures { IfOk result (λ text. text ≡ bounds_found name.now dims) }
{
    match dims {
        None => any_bound(alloc),
        Some(dims) => bounds_text(alloc, name, dims),
    }
}

/// How much fuel a task has.
fn task_fuel_text(alloc: Global, fuel: u64) -> Result<Bytes, Memory>
    ensures { IfOk result (λ text. text ≡ task_fuel_text fuel) }
{
    let mut text = Bytes::from_slice(alloc, b"a task of this run has fuel ")?;
    text.push_all(Buffer::new().format(fuel).as_bytes())?;
    text.push_all(b": a turn of a loop, a call, a print, a make and a wait take 1 each")?;
    Ok(text)
}

/// How many tasks may be made.
fn task_limit_text(alloc: Global, tasks: u32) -> Result<Bytes, Memory>
    ensures { IfOk result (λ text. text ≡ task_limit_text tasks) }
{
    let mut text = Bytes::from_slice(alloc, b"the limit on tasks is ")?;
    text.push_all(Buffer::new().format(tasks).as_bytes())?;
    text.push_all(b" in this run, and main is one of them")?;
    Ok(text)
}

/// The bound that was met; for an index, the one of the array whose name is the word.
fn fault_remark(
    alloc: Global,
    lim: Limits,
    cells: &[CellDecl],
    word: &[u8],
    kind: FaultKind,
) -> Result<Bytes, Memory>
    ensures { IfOk result (λ text. text ≡ fault_remark lim cells.now word.now kind) }
{
    match kind {
        FaultKind::DivZero => Bytes::from_slice(
            alloc,
            b"the right side of this / or % was 0, and no number is the result",
        ),
        FaultKind::Index => bounds_found(alloc, word, dims_named(word, cells)),
        FaultKind::Fuel => task_fuel_text(alloc, lim.fuel),
        FaultKind::Depth => Bytes::from_slice(
            alloc,
            b"1000 calls are active here, each inside the one before, and that is the limit",
        ),
        FaultKind::TaskLimit => task_limit_text(alloc, lim.tasks),
    }
}

/// Appends a number after these words.
fn push_number_after(text: &mut Bytes, words: &[u8], number: i32) -> Result<(), Memory>
    ensures { OnOk result (text.new ≡ text.old ++ number_after words.now number) }
{
    text.push_all(words)?;
    text.push_all(Buffer::new().format(number).as_bytes())
}

/// Appends the index, or the row and the column, that led to a fault, as words before those on its bound.
fn push_index_words(text: &mut Bytes, cause: Option<FaultCause>) -> Result<(), Memory>
    ensures { OnOk result (text.new ≡ text.old ++ index_words cause) }
{
    match cause {
        Some(FaultCause::Index(index)) => {
            push_number_after(text, b"the index is ", index)?;
            text.push_all(b"; ")
        }
        Some(FaultCause::GridIndex { row, column }) => {
            push_number_after(text, b"the row is ", row)?;
            push_number_after(text, b" and the column is ", column)?;
            text.push_all(b"; ")
        }
        _ => Ok(()),
    }
}

/// The index, or the row and the column, that led to a fault with this snapshot, as words before those on its bound.
fn index_words_in(alloc: Global, snapshot: &Option<FaultSnapshot>) -> Result<Bytes, Memory>
    ensures { IfOk result (λ text. text ≡ index_words_in snapshot.now) }
{
    let mut text = Bytes::new(alloc);
    if let Some(snapshot) = snapshot {
        push_index_words(&mut text, snapshot.cause)?;
    }
    Ok(text)
}

/// The index that led to a fault with this snapshot, and the bound that was met.
fn cause_remark(
    alloc: Global,
    lim: Limits,
    cells: &[CellDecl],
    word: &[u8],
    kind: FaultKind,
    snapshot: &Option<FaultSnapshot>,
) -> Result<Bytes, Memory>
    ensures { IfOk result (λ text. text ≡ index_words_in snapshot.now ++ fault_remark lim cells.now word.now kind) }
{
    let mut text = index_words_in(alloc, snapshot)?;
    let bound = fault_remark(alloc, lim, cells, word, kind)?;
    text.push_all(bound.as_slice())?;
    Ok(text)
}

/// That a task is made, and by whom.
fn made_caption(alloc: Global, p: &Prog, st: &State, making: TaskMaking) -> Result<Bytes, Memory>
    ensures { IfOk result (λ text. text ≡ made_caption p.now st.now making) }
{
    let mut text = Bytes::new(alloc);
    push_task(&mut text, p, st, making.child)?;
    text.push_all(b" is made here by ")?;
    push_task(&mut text, p, st, making.maker)?;
    Ok(text)
}

/// Appends a note at the place, if it is known.
pub(crate) fn push_note_if(
    notes: &mut List<Note>,
    place: Option<Place>,
    caption: Bytes,
) -> Result<(), Memory>
    ensures { OnOk result (notes.new ≡ notes.old ++ notes_if place caption) }
{
    match place {
        None => Ok(()),
        Some(place) => notes.push(Note { place, caption }),
    }
}

/// Appends where a task was made, and by whom.
pub(crate) fn push_made_notes(
    notes: &mut List<Note>,
    alloc: Global,
    p: &Prog,
    st: &State,
    making: Option<TaskMaking>,
) -> Result<(), Memory>
    ensures { OnOk result (notes.new ≡ notes.old ++ made_notes p.now st.now making) }
{
    match making {
        None => Ok(()),
        Some(making) => { push_note_if(notes, making.place, made_caption(alloc, p, st, making)?) }
    }
}

/// That a task meets a fault.
fn fault_caption(alloc: Global, p: &Prog, st: &State, task: u32) -> Result<Bytes, Memory>
    ensures { IfOk result (λ text. text ≡ fault_caption p.now st.now task) }
{
    let mut text = Bytes::new(alloc);
    push_task(&mut text, p, st, task)?;
    text.push_all(b" meets the fault here")?;
    Ok(text)
}

/// The calls that were active in a snapshot.
fn runs_of_snapshot(
    alloc: Global,
    snapshot: &Option<FaultSnapshot>,
) -> Result<List<CallRun>, Memory>
    ensures { IfOk result (λ runs. runs ≡ runs_of_snapshot snapshot.now) }
{
    match snapshot {
        None => Ok(List::new(alloc)),
        Some(snapshot) => runs_of(alloc, snapshot.calls.as_slice()),
    }
}

/// The places of a fault: where it was met, the calls that were active, and where its task was made.
fn fault_notes(
    alloc: Global,
    p: &Prog,
    st: &State,
    makings: &[TaskMaking],
    runs: &[CallRun],
    task: u32,
    place: Place,
) -> Result<List<Note>, Memory>
    ensures { IfOk result (λ notes. notes ≡ fault_notes p.now st.now makings.now runs.now task place) }
{
    let mut notes = List::new(alloc);
    notes.push(Note {
        place,
        caption: fault_caption(alloc, p, st, task)?,
    })?;
    push_call_notes(&mut notes, alloc, p, runs)?;
    push_made_notes(&mut notes, alloc, p, st, making_of(makings, task))?;
    Ok(notes)
}

/// One remark.
pub(crate) fn one_remark(alloc: Global, remark: Bytes) -> Result<List<Bytes>, Memory>
    ensures { IfOk result (λ remarks. remarks ≡ remark ∷ []) }
{
    let mut remarks = List::new(alloc);
    remarks.push(remark)?;
    Ok(remarks)
}

/// What is said beside the places of a fault.
fn fault_remarks(
    alloc: Global,
    text: &[u8],
    items: &[Item],
    p: &Prog,
    lim: Limits,
    st: &State,
    snapshot: &Option<FaultSnapshot>,
    runs: &[CallRun],
    fault: FirstFault,
) -> Result<List<Bytes>, Memory>
    requires { runs.now ≡ runs_of_snapshot snapshot.now }
    ensures { IfOk result (λ remarks. remarks ≡ fault_remarks text.now items.now p.now lim st.now snapshot.now fault) }
{
    let word = word_at(text, fault.place);
    let cells = p.cells.as_slice();
    let remark = cause_remark(alloc, lim, cells, word, fault.kind, snapshot)?;
    let mut remarks = one_remark(alloc, remark)?;
    push_calls_left_out(&mut remarks, alloc, runs)?;
    let row = st.tasks.get(fault.task as usize);
    push_snapshot_remarks(&mut remarks, alloc, p, row, items, fault.place, snapshot)?;
    push_snapshot_cells_shown(&mut remarks, alloc, snapshot, cells)?;
    Ok(remarks)
}

/// What is said of a fault with this snapshot in a run of this text under these limits, which has come to this state. The
/// declarations are those of the text.
pub(crate) fn fault_explanation(
    alloc: Global,
    text: &[u8],
    items: &[Item],
    p: &Prog,
    lim: Limits,
    st: &State,
    makings: &[TaskMaking],
    snapshot: &Option<FaultSnapshot>,
    fault: FirstFault,
) -> Result<Explanation, Memory>
    ensures { IfOk result (λ e. e ≡ fault_explanation text.now items.now p.now lim st.now makings.now snapshot.now fault) }
{
    let found = runs_of_snapshot(alloc, snapshot)?;
    let runs = found.as_slice();
    Ok(Explanation {
        headline: Bytes::from_slice(alloc, fault_headline(fault.kind))?,
        notes: fault_notes(alloc, p, st, makings, runs, fault.task, fault.place)?,
        remarks: fault_remarks(alloc, text, items, p, lim, st, snapshot, runs, fault)?,
    })
}
