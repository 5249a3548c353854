//! Views of a statement.

use pooma_layout::Layout;
use pooma_view::View;
use std::marker::Model;

/// A view of a statement, and the layout of its array.
#[derive(Drop)]
pub struct Seen<'a> {
    pub view: &'a View,
    pub layout: &'a Layout,
}

impl<'a> Model for Seen<'a> {
    ghost use Rattle.pooma_part.specs.Cuts.{LaidView};

    ghost Value = { LaidView };

    ghost view = { λ s. record { view = s.view.now; layout = s.layout.now } };
}
