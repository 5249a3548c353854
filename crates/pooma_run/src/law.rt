ghost use Rattle.std.specs.Prelude.{◌≡◌, ◌≢◌, ◌++◌, [], List, All, flat_map};
ghost use Rattle.pooma_machine.specs.declared.journal.Entry.{Entry};
ghost use Rattle.pooma_run.specs.Steps.{Step, windows_of};

/// The law of windows: each has entries, and one after another they have the entries that were pending and then those of all
/// steps, in their order.
///
/// It does nothing; its contract is for proofs about what a run tells.
pub fn windows_of_steps()
    ensures joined { (pending : List Entry) (steps : List Step) → flat_map (λ window. window) (windows_of pending steps) ≡ pending ++ flat_map (λ step. step.entries) steps }
    ensures some { (pending : List Entry) (steps : List Step) → All (λ window. window ≢ []) (windows_of pending steps) }
{}
