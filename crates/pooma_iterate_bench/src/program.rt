//! The pieces of a script's first statement.
ghost use Rattle.std.specs.Prelude.{◌≡◌};

use crate::sample::failed;
use pooma_model::Program;
use pooma_piece::Piece;
use pooma_split::pieces;
use pooma_store::Store;
use std::alloc::Global;
use std::io;

/// The pieces of the program's first statement, where its scalars are 0.
pub(crate) fn first_pieces(
    alloc: Global,
    program: &Program,
    store: &Store,
) -> io::Result<Vec<Piece>>
    requires shapes { store.now.shapes ≡ program.now.declared.shapes }
    requires layouts { store.now.layouts ≡ program.now.declared.layouts }
{
    let scalars = vec![in alloc; 0; program.scalars() as usize]?;
    let mut walk = program.walk();
    let Some(statement) = walk.next() else {
        return Err(failed());
    };
    Ok(pieces(alloc, 0, &statement.action, store, &scalars)?)
}
