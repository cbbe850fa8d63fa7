//! The results as JSON: one object, on one line.
ghost use Rattle.std.specs.Prelude.{◌≡◌, ◌≤◌, IfOk, Some, false, length, map, string_bytes};
ghost use Rattle.serde_json.specs.Data.{items_depth};
ghost use Rattle.serde_json.specs.Read.{read};
ghost use Rattle.serde_json.specs.View.{items_of, view};
ghost use Rattle.serde_json.specs.Written.{compact_text, items_have_float};
ghost use Rattle.twe_explore.specs.Json.{IsJsonLine, explored_data, result_data, results_data};

use flat_sched::WholeRun;
use serde_json::{Value, json};
use std::alloc::{AllocError, Global};
use twe_base::{Bytes, Limits, Memory};
use twe_io::Answer;
use twe_report::journal_part;

/// The object of a result.
fn result_value(alloc: Global, answer: &Answer, journal: &[u8]) -> Result<Value, AllocError>
    ensures { IfOk result (λ value. view value ≡ result_data answer.now journal.now) }
{
    let err = String::from_utf8_lossy(alloc, answer.err.as_slice())?;
    let lines = String::from_utf8_lossy(alloc, journal)?;
    let out = String::from_utf8_lossy(alloc, answer.out.as_slice())?;
    let status = answer.status.code();
    json!(in alloc; {"err": &err, "journal": &lines, "out": &out, "status": status})
}

/// The objects of the results.
fn result_values(
    alloc: Global,
    lim: Limits,
    runs: &[WholeRun],
    answers: &[Answer],
) -> Result<Vec<Value>, Memory>
    requires { length answers.now ≡ length runs.now }
    ensures { IfOk result (λ values. map view values.items ≡ results_data lim runs.now answers.now) }
{
    let mut values = Vec::new(alloc);
    for at in 0..runs.len() {
        let journal = journal_part(alloc, &runs[at].journal, lim)?;
        values.push(result_value(alloc, &answers[at], journal.as_slice())?)?;
    }
    Ok(values)
}

/// The object of all of them.
fn explored_value(
    alloc: Global,
    whole: bool,
    states: usize,
    values: Vec<Value>,
) -> Result<Value, AllocError>
    ensures { IfOk result (λ value. view value ≡ explored_data whole (map view values.items) states) }
{
    let results = Value::from(values);
    json!(in alloc; {"all": whole, "results": results, "states": states})
}

/// The object of all of them, as JSON.
fn explored_json(
    alloc: Global,
    whole: bool,
    states: usize,
    values: Vec<Value>,
) -> Result<String, AllocError>
    requires plain { items_have_float (items_of (map view values.items)) ≡ false }
    requires shallow { items_depth (items_of (map view values.items)) ≤ 1 }
    ensures text { IfOk result (λ json. string_bytes json ≡ compact_text (explored_data whole (map view values.items) states)) }
    ensures read { IfOk result (λ json. read (string_bytes json) ≡ Some (explored_data whole (map view values.items) states)) }
{
    let explored = explored_value(alloc, whole, states, values)?;
    explored.to_string(alloc)
}

/// The results as JSON, with the end of a line.
pub(crate) fn json_line(
    alloc: Global,
    lim: Limits,
    states: usize,
    whole: bool,
    runs: &[WholeRun],
    answers: &[Answer],
) -> Result<Bytes, Memory>
    requires { length answers.now ≡ length runs.now }
    ensures { IfOk result (IsJsonLine (explored_data whole (results_data lim runs.now answers.now) states)) }
{
    let values = result_values(alloc, lim, runs, answers)?;
    let json = explored_json(alloc, whole, states, values)?;
    let mut text = Bytes::from_slice(alloc, json.as_bytes())?;
    text.push(b'\n')?;
    Ok(text)
}
