//! Pieces as works of the iterate machine.

use crate::block::Block;
use crate::outcome::Outcome;
use crate::piece::Piece;
use crate::run::{read_with, write_with};
use pooma_domain::BoxN;
use pooma_machine::{Request, Work};
use pooma_patch::Patch;
use std::alloc::{AllocError, Global};
use std::sync::Arc;

impl Work for Piece {
    type Value = Patch;

    type Outcome = Outcome;

    type Content = Block;

    type Shape = BoxN;

    ghost use Rattle.pooma_piece.specs.Meaning.{content_of, is_ready, pieces};

    ghost content = { content_of };

    ghost ready = { is_ready };

    ghost meaning = { pieces };

    fn requests(&self) -> &[Request] {
        Piece::requests(self)
    }

    fn statement(&self) -> u32 {
        Piece::statement(self)
    }

    fn perform(&self, write: Option<&mut Patch>, reads: &[Arc<Patch>]) -> Outcome {
        match write {
            None => read_with(self, reads),
            Some(patch) => write_with(self, patch, reads),
        }
    }

    fn copied(alloc: Global, value: &Patch) -> Result<Patch, AllocError> {
        value.copied(alloc)
    }

    fn prepared(alloc: Global, value: &mut Patch) -> Result<(), AllocError> {
        value.writable(alloc)
    }
}
