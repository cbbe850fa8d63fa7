//! Laws of the layout.
ghost use Rattle.std.specs.Prelude.{◌≡◌, ℕ, List, map};
ghost use Rattle.text_pieces.specs.declared.piece.Piece.{Piece};
ghost use Rattle.text_pieces.specs.Pieces.{IsCutInto};
ghost use Rattle.text_layout.specs.Kinds.{piece_kinds, HasKinds};
ghost use Rattle.text_layout.specs.Layout.{layout};
ghost use Rattle.text_layout.specs.Settled.{settled_pieces};

/// Pieces that begin where the layout begins them are laid out as before: what was laid out stays as it is.
pub fn layout_stays()
    ensures stays { (pieces : List Piece) → layout (settled_pieces pieces) ≡ layout pieces }
    ensures bytes { (pieces : List Piece)
        → map (λ piece. piece.bytes) (settled_pieces pieces) ≡ map (λ piece. piece.bytes) pieces }
{}

/// A text that was laid out is cut into the pieces of the text: the same tokens and comments in the same order, each where the
/// layout begins it. The tokens among the pieces of a text are the tokens of the text.
pub fn pieces_stay()
    ensures again { (text : List ℕ) (pieces : List Piece) → IsCutInto text pieces → IsCutInto (layout pieces) (settled_pieces pieces) }
    ensures kinds { (text : List ℕ) (pieces : List Piece) → IsCutInto text pieces → HasKinds text (piece_kinds pieces) }
    ensures same_kinds { (pieces : List Piece) → piece_kinds (settled_pieces pieces) ≡ piece_kinds pieces }
{}
