//! The laws of pieces, for the proofs of the crates above. Each does nothing.
ghost use Rattle.std.specs.Prelude.{◌≡◌, ◌↔◌, ◌<◌, ℕ, IsTrue, Some, Option, List, length, slice_get, All};
ghost use Rattle.pooma_domain.specs.Cells.{Interval};
ghost use Rattle.pooma_field.specs.Numbered.{Numbered};
ghost use Rattle.pooma_expr.specs.Trees.{views_of};
ghost use Rattle.pooma_view.specs.Views.{Viewed};
ghost use Rattle.pooma_machine.specs.Steps.{IsRequestList};
ghost use Rattle.pooma_law.specs.Ser.{ser};
ghost use Rattle.pooma_machine.specs.Values.{lent_by, written_object};
ghost use Rattle.pooma_piece.specs.Lent.{IsFitting, Names, fits, lent_for, read_in};
ghost use Rattle.pooma_piece.specs.Meaning.{pieces};
ghost use Rattle.pooma_piece.specs.Pieces.{AreReadAlike, Pieced, requests_of};
ghost use Rattle.pooma_piece.specs.Requests.{requests_for};
ghost use Rattle.pooma_piece.specs.Words.{AllWords, MakesWords};

use pooma_domain::order_of_cells;

/// What pieces ask for, as a law for proofs: a list of requests, the one to write for the object that is written, and all for
/// objects below any number that is above those that a piece names. What objects lend for these requests to a piece is, for each
/// object that it names, the object's own content, or area.
pub fn objects_lend()
    ensures form { (write : Option ℕ) (reads : List ℕ) → IsRequestList (requests_for write reads) }
    ensures written { (write : Option ℕ) (reads : List ℕ) → written_object (requests_for write reads) ≡ write }
    ensures below { (n : ℕ) (write : Option ℕ) (reads : List ℕ) → ((o : ℕ) → write ≡ Some o → o < n) → All (λ o. o < n) reads
        → All (λ r. r.object < n) (requests_for write reads) }
    ensures contents { (piece : Pieced) (objects : List Numbered) (o : ℕ) → All (λ r. r.object < length objects) (requests_of piece) → Names piece o
        → lent_for piece (lent_by objects (requests_of piece)).written (lent_by objects (requests_of piece)).reads o ≡ slice_get objects o }
    ensures areas { (piece : Pieced) (areas : List (List Interval)) (o : ℕ) → All (λ r. r.object < length areas) (requests_of piece) → Names piece o
        → lent_for piece (lent_by areas (requests_of piece)).written (lent_by areas (requests_of piece)).reads o ≡ slice_get areas o }
    ensures read_in { (piece : Pieced) (k : ℕ) (view : Viewed) (object : ℕ) → AreReadAlike (views_of piece.code) piece.reads
        → slice_get (views_of piece.code) k ≡ Some view → slice_get piece.reads k ≡ Some object → read_in piece view ≡ object }
{}

/// When a piece fits, as a law for proofs: each cell that it reads or sets lies in the area of the patch in which it does.
pub fn pieces_fit()
    ensures { (piece : Pieced) (written : Option (List Interval)) (reads : List (List Interval)) → IsTrue (fits piece written reads) ↔ IsFitting piece written reads }
{
    order_of_cells();
}

/// Numbers of 64 bits, as a law for proofs: pieces that make such numbers, done one after another, leave none but such in the
/// objects, where there were none but such.
pub fn pieces_make_words()
    ensures { (plan : List Pieced) (objects : List Numbered) → All MakesWords plan → AllWords objects → AllWords (ser pieces plan objects).objects }
{
    order_of_cells();
}
