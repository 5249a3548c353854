//! Pieces as the rows of a table.

use pooma_machine::{Mode, Request};
use pooma_piece::Piece;

/// The numbers of the first and of the last cell of a piece's positions, and what it asks for.
pub(crate) type Row = ([i32; 3], [i32; 3], &'static [(u32, Mode)]);

// Whether the requests are these, in this order.
fn are_requests(requests: &[Request], wanted: &[(u32, Mode)]) -> bool {
    for (request, row) in requests.iter().zip(wanted) {
        if (request.object, request.mode) != *row {
            return false;
        }
    }
    requests.len() == wanted.len()
}

fn is_row(piece: &Piece, row: &Row) -> bool {
    let positions = piece.positions();
    let (first, last, asks) = *row;
    positions.least().coordinates() == first
        && positions.greatest().coordinates() == last
        && are_requests(piece.requests(), asks)
}

/// Whether the pieces are these, in this order.
pub(crate) fn are_rows(pieces: &[Piece], rows: &[Row]) -> bool {
    for (piece, row) in pieces.iter().zip(rows) {
        if !is_row(piece, row) {
            return false;
        }
    }
    pieces.len() == rows.len()
}
