//! Where runs may stand among those that were found. An answer is a hint, which its user compares with what stands there.

use machine_state::{State, TaskRow, TaskStatus};
use std::alloc::Global;
use std::collections::BTreeMap;
use twe_base::{List, Memory};

/// The places of runs, by numbers that are made of their states.
#[derive(Debug, Drop)]
pub(crate) struct Index {
    places: BTreeMap<u64, List<usize>>,
}

impl Index {
    /// An index of nothing.
    pub(crate) fn new(alloc: Global) -> Self {
        Index {
            places: BTreeMap::new(alloc),
        }
    }

    /// The places that were noted with this number.
    pub(crate) fn places(&self, number: u64) -> &[usize] {
        match self.places.get(&number) {
            Some(places) => places.as_slice(),
            None => &[],
        }
    }

    /// Notes a place with this number.
    pub(crate) fn note(&mut self, alloc: Global, number: u64, place: usize) -> Result<(), Memory> {
        if let Some(places) = self.places.get_mut(&number) {
            return places.push(place);
        }
        let mut places = List::new(alloc);
        places.push(place)?;
        self.places.insert(number, places)?;
        Ok(())
    }
}

/// A number that is made of parts of a state that alike states have in common, so that such states have one number.
pub(crate) fn number_of(st: &State) -> u64 {
    let mut number = mixed(0, u64::from(st.asked));
    number = mixed_ints(number, st.cells.as_slice());
    number = mixed_ints(number, st.prints.as_slice());
    for row in st.tasks.as_slice() {
        number = mixed_row(number, row);
    }
    number
}

/// A number made of one more.
fn mixed(number: u64, more: u64) -> u64 {
    (number ^ more)
        .wrapping_mul(0x9E37_79B9_7F4A_7C15)
        .rotate_left(29)
}

/// A number made of some more, and of how many they are.
fn mixed_ints(number: u64, more: &[i32]) -> u64 {
    let mut number = mixed(number, more.len() as u64);
    for int in more {
        number = mixed(number, i64::from(*int).cast_unsigned());
    }
    number
}

/// A number made of what lasts of a row.
fn mixed_row(number: u64, row: &TaskRow) -> u64 {
    let number = mixed(mixed(number, u64::from(row.decl)), u64::from(row.joined));
    let number = mixed_ints(number, row.args.as_slice());
    match row.status {
        TaskStatus::Made => mixed(number, 1),
        TaskStatus::Enabled => mixed_frame(mixed(number, 2), row),
        TaskStatus::Done => mixed(mixed(number, 3), i64::from(row.value).cast_unsigned()),
        TaskStatus::Faulted => mixed(number, 4),
    }
}

/// A number made of the fuel, the variables and the futures of the frame of a row.
fn mixed_frame(number: u64, row: &TaskRow) -> u64 {
    let mut number = mixed(number, row.frame.fuel);
    if let Some(body) = &row.frame.body {
        number = mixed_ints(number, body.vars.as_slice());
    }
    for future in row.frame.futures.as_slice() {
        number = mixed(
            number,
            future.map_or(0, |task| u64::from(task).wrapping_add(1)),
        );
    }
    number
}
