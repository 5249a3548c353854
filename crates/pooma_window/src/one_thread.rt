ghost use Rattle.std.specs.Prelude.{◌≡◌, ◌⊎◌, ◌<◌, ◌+◌, ◌^◌, ⊤, All, IfOk, OnErr, OnOk, length, map};
ghost use Rattle.std.specs.Arc.{arc_value};
ghost use Rattle.pooma_machine.specs.Slots.{contents};
ghost use Rattle.pooma_machine.specs.Machine.{FitsShapes};
ghost use Rattle.pooma_law.specs.Ser.{ser};
ghost use Rattle.pooma_window.specs.Windows.{AsksWithin, IsPickedFrom, IsStopped, TellsOne};

use crate::completer::{Completed, Completer};
use crate::picker::Picker;
use crate::window::{close_window, run_window};
use pooma_machine::{Journal, Work};
use std::alloc::{AllocError, Global};
use std::sync::Arc;

/// Completes windows on one thread: after all works of a window are issued, the picker says which entry is run next.
#[derive(Drop)]
pub struct OneThread<'a, P, J> {
    picker: &'a mut P,
    journal: &'a mut J,
}

impl<'a, P, J> OneThread<'a, P, J> {
    /// One that asks this picker and tells this journal.
    pub fn new(picker: &'a mut P, journal: &'a mut J) -> OneThread<'a, P, J>
        ensures same_picker { result.picker.ghost_name ≡ picker.entry.ghost_name }
        ensures same_journal { result.journal.ghost_name ≡ journal.entry.ghost_name }
        ensures picker { result.picker.now ≡ picker.old }
        ensures journal { result.journal.now ≡ journal.old }
    {
        OneThread { picker, journal }
    }
}

impl<W: Work, P: Picker, J: Journal<W>> Completer<W> for OneThread<'_, P, J>
where
    W::Outcome: Copy,
{
    ghost use Rattle.std.proofs.Common.{◌∙◌, refl};

    ghost told = { λ c. J.told c.journal.now };

    ghost ready = { λ c. ⊤ };

    ghost stays = { λ old new. (new.picker.ghost_name ≡ old.picker.ghost_name) × (new.journal.ghost_name ≡ old.journal.ghost_name) };

    ghost tells = { λ works window old new. IsPickedFrom W.meaning works window (P.asked old.picker.now) (P.asked new.picker.now) };

    ghost stops = { λ works old new. IsStopped W.meaning works (P.asked old.picker.now) (P.asked new.picker.now) };

    ghost stays_itself = { λ c. (refl, refl) };

    ghost stays_on = { λ a b c one two. (two.0 ∙ one.0, two.1 ∙ one.1) };

    ghost stays_ready = { λ a b one known. known };

    fn complete(
        &mut self,
        alloc: Global,
        objects: Vec<Arc<W::Value>>,
        works: Vec<Arc<W>>,
    ) -> Result<Completed<W>, AllocError>
        requires ready { ⊤ }
        requires objects { All (AsksWithin W.meaning (length objects.items)) (map arc_value works.items) }
        requires fits { All (FitsShapes W.meaning (map W.meaning.shape (contents W.content objects.items))) (map arc_value works.items) }
        requires fewer { length works.items + 1 < 2 ^ 32 }
        ensures stays { (self.new.picker.ghost_name ≡ self.old.picker.ghost_name) × (self.new.journal.ghost_name ≡ self.old.journal.ghost_name) }
        ensures objects { IfOk result (λ done. contents W.content done.objects.items ≡ (ser W.meaning (map arc_value works.items) (contents W.content objects.items)).objects) }
        ensures outcomes { IfOk result (λ done. done.outcomes.items ≡ (ser W.meaning (map arc_value works.items) (contents W.content objects.items)).outcomes) }
        ensures told { OnOk result (TellsOne (J.told self.old.journal.now) (J.told self.new.journal.now) (λ window. IsPickedFrom W.meaning (map arc_value works.items) window (P.asked self.old.picker.now) (P.asked self.new.picker.now))) }
        ensures err { OnErr result (((J.told self.new.journal.now ≡ J.told self.old.journal.now) × IsStopped W.meaning (map arc_value works.items) (P.asked self.old.picker.now) (P.asked self.new.picker.now)) ⊎ TellsOne (J.told self.old.journal.now) (J.told self.new.journal.now) (λ window. IsPickedFrom W.meaning (map arc_value works.items) window (P.asked self.old.picker.now) (P.asked self.new.picker.now))) }
    {
        let machine = run_window(alloc, self.picker, objects, works)?;
        close_window(alloc, self.journal, machine)
    }
}
