ghost use Rattle.std.specs.Prelude.{◌≡◌, ◌⊎◌, ◌<◌, ◌+◌, ◌^◌, All, IfOk, OnErr, OnOk, length, map};
ghost use Rattle.std.specs.Arc.{arc_value};
ghost use Rattle.pooma_machine.specs.Slots.{contents};
ghost use Rattle.pooma_machine.specs.Machine.{FitsShapes};
ghost use Rattle.pooma_law.specs.Ser.{ser};
ghost use Rattle.pooma_window.specs.Windows.{TellsOne, AsksWithin};

use pooma_machine::Work;
use std::alloc::{AllocError, Global};
use std::sync::Arc;

/// What is left of a window that was completed.
#[derive(Drop)]
pub struct Completed<W: Work> {
    /// The objects, by number.
    pub objects: Vec<Arc<W::Value>>,
    /// What each work answered, in the order of the works.
    pub outcomes: Vec<W::Outcome>,
}

/// Who completes windows: does all works of a window on the objects, and tells the window.
///
/// Whoever it is and in whatever order the works are done, objects and outcomes are those of doing the works one after
/// another. What it tells of a window, and what else it does meanwhile, is its own affair, and is said by `tells`.
pub trait Completer<W: Work> {
    ghost use Rattle.std.specs.Prelude.{List, Option};
    ghost use Rattle.pooma_machine.specs.Told.{Window};

    /// The windows told so far, where they are known.
    ghost told: { Self → Option (List Window) };

    /// What has to be known of what it is made of.
    ghost ready: { Self → Type 0 };

    /// What stays of it whatever it does, as whom it asks and whom it tells.
    ghost stays: { Self → Self → Type 0 };

    /// Which window it tells of these works, and how it stands afterwards to how it stood before.
    ghost tells: { List W → Window → Self → Self → Type 0 };

    /// How it stands, after it told no window of these works for want of memory, to how it stood before.
    ghost stops: { List W → Self → Self → Type 0 };

    /// Does the works of a window, in their order or as if it had been theirs, and tells one window. The only error is want
    /// of memory, and gives the objects up; then no window was told, or the one of these works where memory ended behind it.
    fn complete(
        &mut self,
        alloc: Global,
        objects: Vec<Arc<W::Value>>,
        works: Vec<Arc<W>>,
    ) -> Result<Completed<W>, AllocError>
        requires ready { ready self.old }
        requires objects { All (AsksWithin W.meaning (length objects.items)) (map arc_value works.items) }
        requires fits { All (FitsShapes W.meaning (map W.meaning.shape (contents W.content objects.items))) (map arc_value works.items) }
        requires fewer { length works.items + 1 < 2 ^ 32 }
        ensures stays { stays self.old self.new }
        ensures objects { IfOk result (λ done. contents W.content done.objects.items ≡ (ser W.meaning (map arc_value works.items) (contents W.content objects.items)).objects) }
        ensures outcomes { IfOk result (λ done. done.outcomes.items ≡ (ser W.meaning (map arc_value works.items) (contents W.content objects.items)).outcomes) }
        ensures told { OnOk result (TellsOne (told self.old) (told self.new) (λ window. tells (map arc_value works.items) window self.old self.new)) }
        ensures err { OnErr result (((told self.new ≡ told self.old) × stops (map arc_value works.items) self.old self.new) ⊎ TellsOne (told self.old) (told self.new) (λ window. tells (map arc_value works.items) window self.old self.new)) };

    // What stays over one window stays over many, and over none.
    ghost stays_itself: { (c : Self) → stays c c };

    ghost stays_on: { (a b c : Self) → stays a b → stays b c → stays a c };

    // And while it stays, as much is known of it.
    ghost stays_ready: { (a b : Self) → stays a b → ready a → ready b };
}
