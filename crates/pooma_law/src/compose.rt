ghost use Rattle.std.specs.Prelude.{◌≡◌, ◌+◌, ◌++◌, ℕ, false, List, Some, All, length, take, slice_get};
ghost use Rattle.pooma_machine.specs.Values.{lent_by, outcome_of};
ghost use Rattle.pooma_law.specs.Ser.{ser, with_work};
ghost use Rattle.pooma_law.specs.Writers.{asks_to_write};

use pooma_machine::Work;

/// The law of doing works one after another: a front of them and then the rest is all of them.
pub fn ser_composes<W: Work>()
    // The rest begins with the objects that the front leaves, and its outcomes stand behind those of the front.
    ensures objects { (front rest : List W) (opening : List W.Content)
        → (ser W.meaning (front ++ rest) opening).objects
        ≡ (ser W.meaning rest (ser W.meaning front opening).objects).objects }
    ensures outcomes { (front rest : List W) (opening : List W.Content)
        → (ser W.meaning (front ++ rest) opening).outcomes
        ≡ (ser W.meaning front opening).outcomes ++ (ser W.meaning rest (ser W.meaning front opening).objects).outcomes }

    // The entries up to one, with it, are those before it and then its work.
    ensures next { (plan : List W) (opening : List W.Content) (j : ℕ) (work : W) → slice_get plan j ≡ Some work
        → ser W.meaning (take (j + 1) plan) opening ≡ with_work W.meaning (ser W.meaning (take j plan) opening) work }

    // There is an outcome for each work, and no object is made or lost.
    ensures outcome_count { (plan : List W) (opening : List W.Content)
        → length (ser W.meaning plan opening).outcomes ≡ length plan }
    ensures object_count { (plan : List W) (opening : List W.Content)
        → length (ser W.meaning plan opening).objects ≡ length opening }

    // A work answers from what the works before it leave.
    ensures outcome { (plan : List W) (opening : List W.Content) (j : ℕ) (work : W) → slice_get plan j ≡ Some work
        → slice_get (ser W.meaning plan opening).outcomes j
        ≡ Some (outcome_of W.meaning work (lent_by (ser W.meaning (take j plan) opening).objects (W.meaning.requests work))) }

    // An object that no work asks to write stays.
    ensures unwritten { (plan : List W) (opening : List W.Content) (object : ℕ)
        → All (λ work. asks_to_write (W.meaning.requests work) object ≡ false) plan
        → slice_get (ser W.meaning plan opening).objects object ≡ slice_get opening object }
{}
