//! The laws of elements: their tags nest.
ghost use Rattle.std.specs.Prelude.{◌≡◌, ℕ, List, true};
ghost use Rattle.std.specs.List.{list_all};
ghost use Rattle.twe_draw.specs.picture.Elements.{escaped};
ghost use Rattle.twe_draw.specs.picture.Markup.{IsMarkup, IsText, is_value_byte};
ghost use Rattle.twe_draw.specs.picture.Shapes.{plain_box, row_line, title_element, titled_box, upright, words_at};

/// No words begin or end a tag: what is written of them is text.
pub fn words_are_text()
    ensures { (words : List ℕ) → IsText (escaped words) }
{}

/// The tags of each element nest, if its class may stand in an attribute.
pub fn elements_nest()
    ensures boxes { (class : List ℕ) (left top width : ℕ) → list_all is_value_byte class ≡ true
        → IsMarkup (plain_box class left top width) }
    ensures titles { (title : List ℕ) → IsMarkup (title_element title) }
    ensures titled { (class title : List ℕ) (left top width : ℕ) → list_all is_value_byte class ≡ true
        → IsMarkup (titled_box class left top width title) }
    ensures words { (words : List ℕ) (left bottom : ℕ) → IsMarkup (words_at left bottom words) }
    ensures uprights { (class : List ℕ) (left from until : ℕ) → list_all is_value_byte class ≡ true
        → IsMarkup (upright class left from until) }
    ensures rows { (height : ℕ) → IsMarkup (row_line height) }
{}
