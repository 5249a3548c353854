ghost use Rattle.std.specs.Prelude.{◌≡◌, ◌++◌, ◌∷◌, [], ℕ, List, IsTrue, take};
ghost use Rattle.pooma_machine.specs.declared.step.Event.{Event};
ghost use Rattle.pooma_machine.specs.Steps.{MayCome, IsDispatchedAt, status_of, status_after, issued, is_released};
ghost use Rattle.pooma_machine.specs.Values.{asks_of};
ghost use Rattle.pooma_law.specs.Histories.{IsHistoryOf};

use pooma_machine::Work;

/// The law of histories that grow, and of plans that do.
pub fn legal_histories_grow<W: Work>()
    // A legal history and an event that may come after it are a legal history, and each legal history is made so.
    ensures next { (plan : List W) (history : List Event) (event : Event)
        → IsHistoryOf W.meaning plan history → MayCome (asks_of W.meaning plan) history event
        → IsHistoryOf W.meaning plan (history ++ event ∷ []) }
    ensures front { (plan : List W) (history later : List Event)
        → IsHistoryOf W.meaning plan (history ++ later) → IsHistoryOf W.meaning plan history }
    ensures comes { (plan : List W) (history later : List Event) (event : Event)
        → IsHistoryOf W.meaning plan (history ++ event ∷ later) → MayCome (asks_of W.meaning plan) history event }

    // It is legal for a plan with further entries, and for the entries alone that it issued.
    ensures longer_plan { (plan more : List W) (history : List Event)
        → IsHistoryOf W.meaning plan history → IsHistoryOf W.meaning (plan ++ more) history }
    ensures issued_alone { (plan : List W) (history : List Event)
        → IsHistoryOf W.meaning plan history → IsHistoryOf W.meaning (take (issued history) plan) history }

    // A further event changes the status of its own entry alone, as the table of steps says.
    ensures status { (history : List Event) (event : Event) (j : ℕ)
        → status_of (history ++ event ∷ []) j ≡ status_after j (status_of history j) event }

    // Whatever comes later, an entry keeps the seat of its dispatch and stays released.
    ensures seat { (plan : List W) (history later : List Event) (j seat : ℕ)
        → IsHistoryOf W.meaning plan (history ++ later)
        → IsDispatchedAt history j seat → IsDispatchedAt (history ++ later) j seat }
    ensures released { (plan : List W) (history later : List Event) (j : ℕ)
        → IsHistoryOf W.meaning plan (history ++ later)
        → IsTrue (is_released (status_of history j)) → IsTrue (is_released (status_of (history ++ later) j)) }
{}
