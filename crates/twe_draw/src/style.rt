//! What is the same in each picture: its colours, and the tip of its arrows.
ghost use Rattle.std.specs.Prelude.{◌≡◌, ◌++◌, OnOk};
ghost use Rattle.twe_draw.specs.Style.{arrow_tip, chain_style, dark_entry_style, hatch_opening, hatch_stripes, hatching, held_style, dark_page_style, dark_style, entry_style, light_style, line_style, page_style, setting, style_words, tip_opening, tip_shape};

use twe_base::{Bytes, Memory};

/// Appends the background, the words and the boxes.
fn push_page_style(text: &mut Bytes) -> Result<(), Memory>
    ensures { OnOk result (text.new ≡ text.old ++ page_style) }
{
    text.push_all(
        b"svg{background:#fff;font:12px sans-serif}text{fill:#222}rect{stroke:#fff;stroke-width:.5}\n",
    )
}

/// Appends the colours of entries.
fn push_entry_style(text: &mut Bytes) -> Result<(), Memory>
    ensures { OnOk result (text.new ≡ text.old ++ entry_style) }
{
    text.push_all(
        b".admission{fill:#999}.segment{fill:#56b4e9}.deterministic{fill:#009e73}.waits{fill:#ddd}\n",
    )
}

/// Appends the lines and the arrows.
fn push_line_style(text: &mut Bytes) -> Result<(), Memory>
    ensures { OnOk result (text.new ≡ text.old ++ line_style) }
{
    text.push_all(
        b".row{stroke:#bbb}.makes,.gives{fill:none;stroke:#777;marker-end:url(#tip)}.gives{stroke-dasharray:4 2}\n",
    )
}

/// Appends the heaviest chain.
fn push_chain_style(text: &mut Bytes) -> Result<(), Memory>
    ensures { OnOk result (text.new ≡ text.old ++ chain_style) }
{
    text.push_all(b".chain{fill:none;stroke:#d55e00;stroke-width:3;pointer-events:none}\n")
}

/// Appends what was held: hatched, with a border.
fn push_held_style(text: &mut Bytes) -> Result<(), Memory>
    ensures { OnOk result (text.new ≡ text.old ++ held_style) }
{
    text.push_all(
        b".held{fill:url(#hatch);stroke:#cc79a7;stroke-width:1}.stripe{stroke:#cc79a7;stroke-width:2}\n",
    )
}

/// Appends what differs in the dark: the background, the words and the boxes.
fn push_dark_page_style(text: &mut Bytes) -> Result<(), Memory>
    ensures { OnOk result (text.new ≡ text.old ++ dark_page_style) }
{
    text.push_all(
        b"@media (prefers-color-scheme:dark){svg{background:#111}text{fill:#ddd}rect{stroke:#111}\n",
    )
}

/// Appends what differs in the dark: the rest.
fn push_dark_entry_style(text: &mut Bytes) -> Result<(), Memory>
    ensures { OnOk result (text.new ≡ text.old ++ dark_entry_style) }
{
    text.push_all(b".waits{fill:#333}.row{stroke:#444}.chain{stroke:#e69f00}}")
}

/// Appends the tip of an arrow: its size.
fn push_tip_opening(text: &mut Bytes) -> Result<(), Memory>
    ensures { OnOk result (text.new ≡ text.old ++ tip_opening) }
{
    text.push_all(
        b"<defs><marker id='tip' viewBox='0 0 8 8' refX='8' refY='4' markerWidth='6' markerHeight='6' orient='auto'>\n",
    )
}

/// Appends the tip of an arrow: its shape.
fn push_tip_shape(text: &mut Bytes) -> Result<(), Memory>
    ensures { OnOk result (text.new ≡ text.old ++ tip_shape) }
{
    text.push_all(b"<path fill='#777' d='M0 0L8 4L0 8z'/></marker></defs>\n")
}

/// Appends the hatching: its size.
fn push_hatch_opening(text: &mut Bytes) -> Result<(), Memory>
    ensures { OnOk result (text.new ≡ text.old ++ hatch_opening) }
{
    text.push_all(
        b"<defs><pattern id='hatch' width='6' height='6' patternUnits='userSpaceOnUse'>\n",
    )
}

/// Appends the hatching: its stripes.
fn push_hatch_stripes(text: &mut Bytes) -> Result<(), Memory>
    ensures { OnOk result (text.new ≡ text.old ++ hatch_stripes) }
{
    text.push_all(b"<path class='stripe' d='M-1 7L7 -1M-1 1L1 -1M5 7L7 5'/></pattern></defs>\n")
}

/// Appends the colours.
fn push_light_style(text: &mut Bytes) -> Result<(), Memory>
    ensures { OnOk result (text.new ≡ text.old ++ light_style) }
{
    push_page_style(text)?;
    push_entry_style(text)?;
    push_line_style(text)?;
    push_chain_style(text)?;
    push_held_style(text)
}

/// Appends what differs in the dark.
fn push_dark_style(text: &mut Bytes) -> Result<(), Memory>
    ensures { OnOk result (text.new ≡ text.old ++ dark_style) }
{
    push_dark_page_style(text)?;
    push_dark_entry_style(text)
}

/// Appends the whole style.
fn push_style_words(text: &mut Bytes) -> Result<(), Memory>
    ensures { OnOk result (text.new ≡ text.old ++ style_words) }
{
    push_light_style(text)?;
    push_dark_style(text)
}

/// Appends the tip of an arrow.
fn push_arrow_tip(text: &mut Bytes) -> Result<(), Memory>
    ensures { OnOk result (text.new ≡ text.old ++ arrow_tip) }
{
    push_tip_opening(text)?;
    push_tip_shape(text)
}

/// Appends the hatching.
fn push_hatching(text: &mut Bytes) -> Result<(), Memory>
    ensures { OnOk result (text.new ≡ text.old ++ hatching) }
{
    push_hatch_opening(text)?;
    push_hatch_stripes(text)
}

/// Appends what is the same in each picture.
#[tactic(auto, unfolding(crate::specs::Style::setting))]
pub(crate) fn push_setting(text: &mut Bytes) -> Result<(), Memory>
    ensures { OnOk result (text.new ≡ text.old ++ setting) }
{
    text.push_all(b"<style>")?;
    push_style_words(text)?;
    text.push_all(b"</style>\n")?;
    push_arrow_tip(text)?;
    push_hatching(text)
}
