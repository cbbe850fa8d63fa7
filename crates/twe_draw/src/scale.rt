//! Where things stand in a picture.
ghost use Rattle.std.specs.Prelude.{◌≡◌};
ghost use Rattle.twe_draw.specs.Scale as scale;

use crate::picture::EntryBar;
use crate::words::AxisKind;
use held_span::Hold;

/// The axis of a picture, from its left to its right.
#[derive(Clone, Copy, Debug)]
pub struct Axis {
    /// How the run is drawn.
    pub kind: AxisKind,
    /// How long it is: a time, or a number of entries.
    pub length: u64,
}

/// The axis of a picture: it is as long as the held span, or has a column for each entry.
pub(crate) fn axis_of(kind: AxisKind, held: u64, bars: &[EntryBar]) -> Axis
    ensures { result ≡ scale.axis_of kind held bars.now }
{
    let length = match kind {
        AxisKind::Time => held,
        AxisKind::Order => bars.len() as u64,
    };
    Axis { kind, length }
}

/// When the entry of a bar begins, or its column.
pub(crate) fn bar_begin(kind: AxisKind, bar: &EntryBar) -> u128
    ensures { result ≡ scale.bar_begin kind bar.now }
{
    match kind {
        AxisKind::Time => u128::from(bar.begins),
        AxisKind::Order => u128::from(bar.number),
    }
}

/// When the entry of a bar ends, or the next column.
pub(crate) fn bar_end(kind: AxisKind, bar: &EntryBar) -> u128
    ensures { result ≡ scale.bar_end kind bar.now }
{
    match kind {
        AxisKind::Time => u128::from(bar.ends),
        AxisKind::Order => u128::from(bar.number) + 1,
    }
}

/// The column after that of an entry, if there is one, and else the first.
fn column_after(number: Option<u64>) -> u128
    ensures { result ≡ scale.column_after number }
{
    match number {
        None => 0,
        Some(number) => u128::from(number) + 1,
    }
}

/// Since when the admission of a bar was held, or the column after that of the entry that made its task.
pub(crate) fn held_begin(kind: AxisKind, bar: &EntryBar, hold: &Hold) -> u128
    ensures { result ≡ scale.held_begin kind bar.now hold.now }
{
    match kind {
        AxisKind::Time => u128::from(bar.begins.saturating_sub(hold.time)),
        AxisKind::Order => column_after(bar.previous),
    }
}

/// Where a time stands in a picture of this length.
#[tactic(auto, unfolding(crate::specs::Scale::time_column))]
pub(crate) fn time_column(whole: u64, time: u128) -> u128
    ensures { result ≡ scale.time_column whole time }
{
    let length = u128::from(whole.max(1));
    time.min(u128::from(whole)) * 1000 / length + 240
}

/// How wide it is from one time to another.
#[tactic(auto, unfolding(crate::specs::Scale::time_width))]
pub(crate) fn time_width(whole: u64, from: u128, until: u128) -> u128
    ensures { result ≡ scale.time_width whole from until }
{
    time_column(whole, until)
        .saturating_sub(time_column(whole, from))
        .max(2)
}

/// The top of the bars of a row.
#[tactic(auto, unfolding(crate::specs::Scale::row_top))]
pub(crate) fn row_top(row: u64) -> u128
    ensures { result ≡ scale.row_top row }
{
    92 + 20 * u128::from(row)
}

/// The bottom of the bars of a row.
#[tactic(auto, unfolding(crate::specs::Scale::row_bottom))]
pub(crate) fn row_bottom(row: u64) -> u128
    ensures { result ≡ scale.row_bottom row }
{
    106 + 20 * u128::from(row)
}

/// The height of a picture of so many rows.
#[tactic(auto, unfolding(crate::specs::Scale::picture_height))]
pub(crate) fn picture_height(rows: usize) -> u128
    ensures { result ≡ scale.picture_height rows }
{
    120 + 20 * rows as u128
}
