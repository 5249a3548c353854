//! The law of cut positions, for the proofs of the crates above. It does nothing.
ghost use Rattle.std.specs.Prelude.{◌≡◌, ℕ, List, map};
ghost use Rattle.pooma_domain.specs.Cells.{Interval};
ghost use Rattle.pooma_view.specs.Views.{Viewed};
ghost use Rattle.pooma_layout.specs.Patches.{boxes_of};
ghost use Rattle.pooma_model.specs.Declarations.{Declared};
ghost use Rattle.pooma_model.specs.Parts.{cut_axes, parts_of};
ghost use Rattle.pooma_part.specs.Cuts.{cuts_of, laid_in};

/// Where positions are cut, as a law for proofs: with the layouts that are declared for the views' arrays, the axes are cut
/// into the parts of a statement with these views and positions.
pub fn cuts_are_parts()
    ensures axes { (declared : Declared) (views : List Viewed) (n : ℕ) (positions : List Interval)
        → cuts_of (map (laid_in declared) views) n positions ≡ cut_axes declared views n positions }
    ensures parts { (declared : Declared) (views : List Viewed) (positions : List Interval)
        → boxes_of (cuts_of (map (laid_in declared) views) 0 positions) ≡ parts_of declared views positions }
{}
