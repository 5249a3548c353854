ghost use Rattle.std.specs.Prelude.{◌≡◌, ◌⊎◌, ◌<◌, ◌+◌, ◌^◌, ⊤, All, IfOk, OnErr, OnOk, length, map};
ghost use Rattle.std.specs.Arc.{arc_value};
ghost use Rattle.pooma_machine.specs.Slots.{contents};
ghost use Rattle.pooma_machine.specs.Machine.{FitsShapes};
ghost use Rattle.pooma_law.specs.Ser.{ser};
ghost use Rattle.pooma_piece.specs.Meaning.{content_of, pieces};
ghost use Rattle.pooma_window.specs.Windows.{AsksWithin, TellsOne};
ghost use Rattle.pooma_window.specs.Workers.{IsShared, SharesOut};

use crate::completer::{Completed, Completer};
use crate::window::{close_window, request_all};
use pooma_machine::{Journal, Machine};
use pooma_patch::Patch;
use pooma_piece::Piece;
use std::alloc::{AllocError, Global};
use std::sync::Arc;

/// Completes windows by several workers: after all works of a window are issued, the machine is handed to who shares its
/// entries out among them.
///
/// That is a function made of [`share_out`](crate::share_out), as a closure over the runtime, the gate and the number of
/// workers: so this completer itself starts no thread, and a run of it waits only where that function does.
#[derive(Drop)]
pub struct ManyThreads<'a, F, J> {
    share: F,
    workers: u32,
    journal: &'a mut J,
}

impl<'a, F, J> ManyThreads<'a, F, J> {
    /// One that hands machines to this function, which has so many workers, and tells this journal.
    pub fn new(share: F, workers: u32, journal: &'a mut J) -> ManyThreads<'a, F, J>
        ensures share { result.share ≡ share }
        ensures workers { result.workers ≡ workers }
        ensures same_journal { result.journal.ghost_name ≡ journal.entry.ghost_name }
        ensures journal { result.journal.now ≡ journal.old }
    {
        ManyThreads {
            share,
            workers,
            journal,
        }
    }
}

impl<F, J: Journal<Piece>> Completer<Piece> for ManyThreads<'_, F, J>
where
    F: Fn(Machine<Piece>) -> Result<Machine<Piece>, AllocError>,
{
    ghost use Rattle.std.proofs.Common.{◌∙◌, refl, subst, sym};

    ghost told = { λ c. J.told c.journal.now };

    ghost ready = { λ c. SharesOut pieces c.workers (F.pre c.share) (F.post c.share) };

    ghost stays = { λ old new. (new.share ≡ old.share) × (new.workers ≡ old.workers) × (new.journal.ghost_name ≡ old.journal.ghost_name) };

    ghost tells = { λ works window old new. IsShared pieces old.workers works window × (new.workers ≡ old.workers) };

    ghost stops = { λ works old new. ⊤ };

    ghost stays_itself = { λ c. (refl, refl, refl) };

    ghost stays_on = { λ a b c one two. (two.0 ∙ one.0, two.1 ∙ one.1, two.2 ∙ one.2) };

    ghost stays_ready = { λ a b one known. subst (λ share. SharesOut pieces b.workers (F.pre share) (F.post share)) (sym one.0) (subst (λ workers. SharesOut pieces workers (F.pre a.share) (F.post a.share)) (sym one.1) known) };

    fn complete(
        &mut self,
        alloc: Global,
        objects: Vec<Arc<Patch>>,
        works: Vec<Arc<Piece>>,
    ) -> Result<Completed<Piece>, AllocError>
        requires ready { SharesOut pieces self.old.workers (F.pre self.old.share) (F.post self.old.share) }
        requires objects { All (AsksWithin pieces (length objects.items)) (map arc_value works.items) }
        requires fits { All (FitsShapes pieces (map pieces.shape (contents content_of objects.items))) (map arc_value works.items) }
        requires fewer { length works.items + 1 < 2 ^ 32 }
        ensures stays { (self.new.share ≡ self.old.share) × (self.new.workers ≡ self.old.workers) × (self.new.journal.ghost_name ≡ self.old.journal.ghost_name) }
        ensures objects { IfOk result (λ done. contents content_of done.objects.items ≡ (ser pieces (map arc_value works.items) (contents content_of objects.items)).objects) }
        ensures outcomes { IfOk result (λ done. done.outcomes.items ≡ (ser pieces (map arc_value works.items) (contents content_of objects.items)).outcomes) }
        ensures told { OnOk result (TellsOne (J.told self.old.journal.now) (J.told self.new.journal.now) (λ window. IsShared pieces self.old.workers (map arc_value works.items) window × (self.new.workers ≡ self.old.workers))) }
        ensures err { OnErr result (((J.told self.new.journal.now ≡ J.told self.old.journal.now) × ⊤) ⊎ TellsOne (J.told self.old.journal.now) (J.told self.new.journal.now) (λ window. IsShared pieces self.old.workers (map arc_value works.items) window × (self.new.workers ≡ self.old.workers))) }
    {
        let mut machine = match Machine::<Piece>::new(alloc, objects) {
            Ok(machine) => machine,
            Err(_) => return Err(AllocError),
        };
        request_all(alloc, &mut machine, works)?;
        let machine = (self.share)(machine)?;
        close_window(alloc, self.journal, machine)
    }
}
