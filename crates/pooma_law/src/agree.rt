ghost use Rattle.std.specs.Prelude.{◌≡◌, ℕ, IsTrue, take, slice_get};
ghost use Rattle.pooma_machine.specs.Steps.{requests_of, status_of, is_released};
ghost use Rattle.pooma_machine.specs.Values.{asks_of, values, lent_by, IsComplete};
ghost use Rattle.pooma_law.specs.Ser.{ser};
ghost use Rattle.pooma_law.specs.Writers.{IsFront, writers, released_writers, up_to_last};
ghost use Rattle.pooma_law.specs.Histories.{ForEachHistory, WasDispatched};

use pooma_machine::Work;

/// The law of legal histories: whatever the order in which entries are dispatched and released, what comes of it is what
/// doing the entries of the plan one after another gives.
///
/// It holds for every plan, all opening values and every legal history, whether or not a machine ever had it, and asks for
/// nothing else: not that objects are there, and not that requests have a form. It does nothing; its contract is for proofs.
pub fn legal_histories_agree<W: Work>()
    // The released writers of an object are a front of its writers.
    ensures writers { ForEachHistory W.meaning (λ plan opening history. (object : ℕ)
        → IsFront (released_writers (asks_of W.meaning plan) history object) (writers (asks_of W.meaning plan) object)) }

    // An object has what the entries up to the last of these leave, and its opening value where there is none. While it is
    // lent to write, this is the value that was lent.
    ensures objects { ForEachHistory W.meaning (λ plan opening history. (object : ℕ)
        → slice_get (values W.meaning plan opening history).objects object
        ≡ slice_get (ser W.meaning (take (up_to_last (released_writers (asks_of W.meaning plan) history object)) plan) opening).objects object) }

    // An entry that is out, or was released, was lent what the entries before it leave.
    ensures lent { ForEachHistory W.meaning (λ plan opening history. (j : ℕ) → WasDispatched history j
        → (values W.meaning plan opening history).lent j
        ≡ lent_by (ser W.meaning (take j plan) opening).objects (requests_of (asks_of W.meaning plan) j)) }

    // An entry that was released has the outcome that it has in its turn.
    ensures outcomes { ForEachHistory W.meaning (λ plan opening history. (j : ℕ) → IsTrue (is_released (status_of history j))
        → (values W.meaning plan opening history).outcome j ≡ slice_get (ser W.meaning plan opening).outcomes j) }

    // Where all entries were released, objects and outcomes are those of doing all of them.
    ensures all_objects { ForEachHistory W.meaning (λ plan opening history. IsComplete plan history
        → (values W.meaning plan opening history).objects ≡ (ser W.meaning plan opening).objects) }
    ensures all_outcomes { ForEachHistory W.meaning (λ plan opening history. IsComplete plan history
        → (j : ℕ) → (values W.meaning plan opening history).outcome j ≡ slice_get (ser W.meaning plan opening).outcomes j) }
{}
