ghost use Rattle.std.specs.Prelude.{◌≡◌, ◌++◌, ◌∷◌, [], ℕ, List, IsTrue, is_some, take};
ghost use Rattle.pooma_machine.specs.declared.step.Event.{Event};
ghost use Rattle.pooma_machine.specs.Steps.{status_of, issued, is_released};
ghost use Rattle.pooma_machine.specs.Values.{values, values_after};
ghost use Rattle.pooma_law.specs.Histories.{ForEachHistory, IsHistoryOf, WasDispatched};

use pooma_machine::Work;

/// The law of the values that a history gives, as the history grows or the plan does.
pub fn values_stay<W: Work>()
    // A further event makes of them what its kind says.
    ensures next { (plan : List W) (opening : List W.Content) (history : List Event) (event : Event)
        → values W.meaning plan opening (history ++ event ∷ [])
        ≡ values_after W.meaning plan (values W.meaning plan opening history) event }

    // They do not change where the plan gets further entries, and are those of the entries alone that were issued.
    ensures longer_plan { ForEachHistory W.meaning (λ plan opening history. (more : List W)
        → values W.meaning (plan ++ more) opening history ≡ values W.meaning plan opening history) }
    ensures issued_alone { ForEachHistory W.meaning (λ plan opening history.
        values W.meaning (take (issued history) plan) opening history ≡ values W.meaning plan opening history) }

    // Whatever comes later, what was lent to an entry and what it answered stay.
    ensures lent { (plan : List W) (opening : List W.Content) (history later : List Event)
        → IsHistoryOf W.meaning plan (history ++ later) → (j : ℕ) → WasDispatched history j
        → (values W.meaning plan opening (history ++ later)).lent j ≡ (values W.meaning plan opening history).lent j }
    ensures outcome { (plan : List W) (opening : List W.Content) (history later : List Event)
        → IsHistoryOf W.meaning plan (history ++ later) → (j : ℕ) → IsTrue (is_released (status_of history j))
        → (values W.meaning plan opening (history ++ later)).outcome j ≡ (values W.meaning plan opening history).outcome j }

    // An entry has an outcome exactly where it was released.
    ensures answered { ForEachHistory W.meaning (λ plan opening history. (j : ℕ)
        → is_some ((values W.meaning plan opening history).outcome j) ≡ is_released (status_of history j)) }
{}
