// A piece of an operation, by its region's map where it lies in the store's words (store-io's submitter/mod.rs: first_piece; the next pieces
// come from it too).
ghost use Rattle.memory.specs.Piece.{PieceIn};

use crate::{MAP, MAP_WORDS, REGION};
use regionmap::{FoundPiece, Offset, Position};

// The piece at a position of the region at a handle, of the bytes left there; none where the words are too few.
pub fn first_piece(store: &[u64], handle: u64, pos: Position, left: u64) -> FoundPiece
    ensures { PieceIn store.now handle pos.0 left result }
{
    let none = FoundPiece {
        offset: Offset(0),
        count: 0,
    };
    if 8 <= handle {
        return none;
    }
    let at = MAP + REGION * handle as usize;
    if store.len() < at + MAP_WORDS {
        return none;
    }
    regionmap::pieces::piece_at(&store[at..at + MAP_WORDS], pos, left)
}
