ghost use Rattle.std.specs.Prelude.{◌≡◌, ◌≢◌, ℕ, ◌+◌, ◌<◌, None, Some, length, map, IfOk, IfErr, slice_index, slice_index_or, slice_range};
ghost use Rattle.std.specs.Option.{option_map};
ghost use Rattle.dts_tree.specs.Content.{node_of};
ghost use Rattle.dts_tree.specs.Inside.Pieces.{piece_by, reference_in, label_at};
ghost use Rattle.dts_tree.specs.Inside.Stored.{labels_kept};
ghost use Rattle.dts_tree.specs.Inside.Numbered.{first_unknown, number_of};

use crate::fault::TreeFault;
use crate::piece::{Piece, Place};
use name_map::NameMap;
use std::alloc::Global;

/// The pieces with the ranks of nodes in place of their labels, or the first label that no node has.
pub(crate) fn numbered(
    alloc: Global,
    text: &[u8],
    labels: &NameMap<u32>,
    ranks: &[u32],
    pieces: Vec<Piece<Place>>,
) -> Result<Vec<Piece<u32>>, TreeFault>
    requires { (k : ℕ) → k < length labels.now → slice_index_or (map (λ e. e.1) labels.now) k 0 < length ranks.now }
    ensures numbered { IfOk result (λ v. v.items ≡ map (piece_by (number_of text.now labels.now ranks.now)) pieces.items) }
    ensures known { IfOk result (λ _. first_unknown labels.now (labels_kept text.now pieces.items) ≡ None) }
    ensures fault { IfErr result (λ fault. fault ≢ TreeFault.Memory → option_map (λ l. TreeFault.NoLabel l.at) (first_unknown labels.now (labels_kept text.now pieces.items)) ≡ Some fault) }
{
    let mut kept = Vec::with_capacity(alloc, pieces.len())?;
    for piece in pieces.as_slice() {
        match numbered_piece(text, labels, ranks, piece) {
            Ok(piece) => kept.push(piece)?,
            Err(at) => return Err(TreeFault::NoLabel(at)),
        }
    }
    Ok(kept)
}

/// One piece, or the place of its label where no node has that.
fn numbered_piece(
    text: &[u8],
    labels: &NameMap<u32>,
    ranks: &[u32],
    piece: &Piece<Place>,
) -> Result<Piece<u32>, u32>
    requires { (k : ℕ) → k < length labels.now → slice_index_or (map (λ e. e.1) labels.now) k 0 < length ranks.now }
    ensures numbered { IfOk result (λ p. p ≡ piece_by (number_of text.now labels.now ranks.now) piece.now) }
    ensures known { IfOk result (λ _. first_unknown labels.now (map (label_at text.now) (reference_in piece.now)) ≡ None) }
    ensures unknown { IfErr result (λ at. option_map (λ l. l.at) (first_unknown labels.now (map (label_at text.now) (reference_in piece.now))) ≡ Some at) }
{
    match *piece {
        Piece::Cells => Ok(Piece::Cells),
        Piece::Number(n) => Ok(Piece::Number(n)),
        Piece::Node(place) => match rank_at(text, labels, ranks, &place) {
            Some(node) => Ok(Piece::Node(node)),
            None => Err(place.at),
        },
        Piece::Text => Ok(Piece::Text),
        Piece::Bytes => Ok(Piece::Bytes),
        Piece::Byte(b) => Ok(Piece::Byte(b)),
        Piece::Whole(place) => match rank_at(text, labels, ranks, &place) {
            Some(node) => Ok(Piece::Whole(node)),
            None => Err(place.at),
        },
    }
}

/// The rank of the node that has the label at a place.
fn rank_at(text: &[u8], labels: &NameMap<u32>, ranks: &[u32], place: &Place) -> Option<u32>
    requires { (k : ℕ) → k < length labels.now → slice_index_or (map (λ e. e.1) labels.now) k 0 < length ranks.now }
    ensures { result ≡ option_map (slice_index ranks.now) (node_of labels.now (label_at text.now place.now).name) }
{
    match labels.get(0, name_at(text, place)) {
        Some(node) => Some(ranks[*node as usize]),
        None => None,
    }
}

/// The label of the reference at a place, as far as the text has it.
fn name_at<'a>(text: &'a [u8], place: &Place) -> &'a [u8]
    ensures { result.now ≡ (label_at text.now place.now).name }
{
    let end = (place.end as usize).min(text.len());
    let start = (place.at as usize + 1).min(end);
    &text[start..end]
}
