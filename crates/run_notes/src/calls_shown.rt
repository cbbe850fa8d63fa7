//! The calls that were active at a fault.
ghost use Rattle.std.specs.Prelude.{◌≡◌, ◌++◌, ◌∷◌, IfOk, OnOk, map, option_copied, slice_get, take};
ghost use Rattle.run_texts.specs.TaskLabels.{decl_name};
ghost use Rattle.run_notes.specs.CallsShown.{call_caption, call_note, call_notes, calls_left_out, calls_left_out_from, calls_left_out_text, is_same_call, most_runs, runs_of, times_words, with_call};

use explain_pages::Note;
use itoa::Buffer;
use seg_meaning::ActiveCall;
use std::alloc::Global;
use twe_base::{Bytes, List, Memory, Stack};
use twe_program::Prog;

/// How many runs of calls are shown at most.
const MOST_RUNS: usize = 8;

/// Active calls that are the same, each inside the one before.
#[derive(Clone, Copy, Debug, PartialEq, Eq)]
pub(crate) struct CallRun {
    /// The call.
    pub call: ActiveCall,
    /// How many of them there are.
    pub times: usize,
    /// How many calls there are from the latest of them to the first call of all.
    pub depth: usize,
}

/// Whether the calls are of the same method at the same place.
fn is_same_call(call: ActiveCall, other: ActiveCall) -> bool
    ensures { result ≡ is_same_call call other }
{
    call.method == other.method
        && (call.place.line == other.place.line && call.place.col == other.place.col)
}

/// Adds a call inside the others. It joins the latest run if it is the same call.
fn add_call(runs: &mut Stack<CallRun>, call: ActiveCall) -> Result<(), Memory>
    ensures { OnOk result (runs.new ≡ with_call call runs.old) }
{
    match runs.pop() {
        None => runs.push(CallRun {
            call,
            times: 1,
            depth: 1,
        }),
        Some(run) => add_behind(runs, run, call),
    }
}

/// Adds a run, and then a call inside it.
fn add_behind(runs: &mut Stack<CallRun>, run: CallRun, call: ActiveCall) -> Result<(), Memory>
    ensures { OnOk result (runs.new ≡ with_call call (run ∷ runs.old)) }
{
    let depth = Memory::next_count(run.depth)?;
    if is_same_call(call, run.call) {
        let times = Memory::next_count(run.times)?;
        return runs.push(CallRun {
            call: run.call,
            times,
            depth,
        });
    }
    runs.push(run)?;
    runs.push(CallRun {
        call,
        times: 1,
        depth,
    })
}

/// Active calls, the latest first, as runs of the same call.
pub(crate) fn runs_of(alloc: Global, calls: &[ActiveCall]) -> Result<List<CallRun>, Memory>
    ensures { IfOk result (λ runs. runs ≡ runs_of calls.now) }
{
    let mut runs = Stack::new(alloc);
    let mut at = calls.len();
    while at > 0 {
        at -= 1;
        add_call(&mut runs, calls[at])?;
    }
    Ok(runs.into_list())
}

/// The name of the method of this number, or nothing if there is none.
fn method_name(p: &Prog, method: u32) -> &[u8]
    ensures { result.now ≡ decl_name (slice_get p.now.methods method) }
{
    match p.methods.get(method as usize) {
        None => b"",
        Some(decl) => decl.name.as_bytes(),
    }
}

/// Appends how often the call of a run is active, unless it is once.
fn push_times(text: &mut Bytes, times: usize) -> Result<(), Memory>
    ensures { OnOk result (text.new ≡ text.old ++ times_words times) }
{
    if times == 1 {
        return Ok(());
    }
    text.push_all(b" ")?;
    text.push_all(Buffer::new().format(times).as_bytes())?;
    text.push_all(b" times, each inside the one before")
}

/// The method that is called, and how often.
fn call_caption(alloc: Global, p: &Prog, run: CallRun) -> Result<Bytes, Memory>
    ensures { IfOk result (λ text. text ≡ call_caption p.now run) }
{
    let mut text = Bytes::from_slice(alloc, b"in `")?;
    text.push_all(method_name(p, run.call.method))?;
    text.push_all(b"`, called here")?;
    push_times(&mut text, run.times)?;
    Ok(text)
}

/// The same at the place of the call.
fn call_note(alloc: Global, p: &Prog, run: CallRun) -> Result<Note, Memory>
    ensures { IfOk result (λ note. note ≡ call_note p.now run) }
{
    Ok(Note {
        place: run.call.place,
        caption: call_caption(alloc, p, run)?,
    })
}

/// The first runs, as many as are shown.
fn shown_runs(runs: &[CallRun]) -> &[CallRun]
    ensures { result.now ≡ take most_runs runs.now }
{
    if MOST_RUNS < runs.len() {
        &runs[..MOST_RUNS]
    } else {
        runs
    }
}

/// Appends a note for each of these runs.
fn push_each_run(
    notes: &mut List<Note>,
    alloc: Global,
    p: &Prog,
    runs: &[CallRun],
) -> Result<(), Memory>
    ensures { OnOk result (notes.new ≡ notes.old ++ map (call_note p.now) runs.now) }
{
    for run in runs {
        notes.push(call_note(alloc, p, *run)?)?;
    }
    Ok(())
}

/// Appends the calls of the first runs, the latest first.
pub(crate) fn push_call_notes(
    notes: &mut List<Note>,
    alloc: Global,
    p: &Prog,
    runs: &[CallRun],
) -> Result<(), Memory>
    ensures { OnOk result (notes.new ≡ notes.old ++ call_notes p.now runs.now) }
{
    push_each_run(notes, alloc, p, shown_runs(runs))
}

/// How many calls are left out.
fn calls_left_out_text(alloc: Global, number: usize) -> Result<Bytes, Memory>
    ensures { IfOk result (λ text. text ≡ calls_left_out_text number) }
{
    let mut text = Bytes::from_slice(alloc, b"active calls that are left out here: ")?;
    text.push_all(Buffer::new().format(number).as_bytes())?;
    Ok(text)
}

/// Adds how many calls are left out from a run on, if there is one.
fn push_calls_left_out_from(
    remarks: &mut List<Bytes>,
    alloc: Global,
    run: Option<&CallRun>,
) -> Result<(), Memory>
    ensures { OnOk result (remarks.new ≡ remarks.old ++ calls_left_out_from (option_copied run.entry)) }
{
    match run {
        None => Ok(()),
        Some(run) => remarks.push(calls_left_out_text(alloc, run.depth)?),
    }
}

/// Adds how many calls are left out, if some are.
pub(crate) fn push_calls_left_out(
    remarks: &mut List<Bytes>,
    alloc: Global,
    runs: &[CallRun],
) -> Result<(), Memory>
    ensures { OnOk result (remarks.new ≡ remarks.old ++ calls_left_out runs.now) }
{
    push_calls_left_out_from(remarks, alloc, runs.get(MOST_RUNS))
}
