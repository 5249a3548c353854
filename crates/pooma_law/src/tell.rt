ghost use Rattle.std.specs.Prelude.{◌≡◌, ◌↔◌, ◌<◌, ◌≤◌, ◌*◌, ℕ, List, Some, IsSome, IsTrue, Contains, length, slice_get};
ghost use Rattle.pooma_machine.specs.declared.step.Event.{Event};
ghost use Rattle.pooma_machine.specs.declared.step.EventKind.TheVariants as kind;
ghost use Rattle.pooma_machine.specs.Steps.{IsDispatchedAt, status_of, issued, is_out, is_released, event_of};
ghost use Rattle.pooma_machine.specs.Values.{IsComplete};
ghost use Rattle.pooma_law.specs.Histories.{IsHistoryOf, WasDispatched};

use pooma_machine::Work;

/// The law of what stands in a legal history.
pub fn legal_histories_tell<W: Work>()
    // The entries issued are the first of the plan, and they alone have a status.
    ensures within { (plan : List W) (history : List Event) → IsHistoryOf W.meaning plan history
        → issued history ≤ length plan }
    ensures issued { (plan : List W) (history : List Event) → IsHistoryOf W.meaning plan history
        → (j : ℕ) → IsSome (status_of history j) ↔ (j < issued history) }

    // An entry was dispatched at a seat, or released, exactly where that event stands in the history.
    ensures dispatched { (plan : List W) (history : List Event) → IsHistoryOf W.meaning plan history
        → (j seat : ℕ) → IsDispatchedAt history j seat ↔ Contains history (event_of kind.Dispatch j seat) }
    ensures released { (plan : List W) (history : List Event) → IsHistoryOf W.meaning plan history
        → (j : ℕ) → IsTrue (is_released (status_of history j)) ↔ ((seat : ℕ) × Contains history (event_of kind.Release j seat)) }

    // So it is out where its dispatch stands there and no release. Where it is out or was released, it has a seat.
    ensures out { (plan : List W) (history : List Event) → IsHistoryOf W.meaning plan history
        → (j seat : ℕ) → Contains history (event_of kind.Dispatch j seat)
        → ((at : ℕ) → Contains history (event_of kind.Release j at) → ⊥)
        → IsTrue (is_out (status_of history j)) }
    ensures seat { (history : List Event) (j : ℕ)
        → WasDispatched history j ↔ ((seat : ℕ) × IsDispatchedAt history j seat) }

    // No two events are of one kind and one entry. So there are at most three an entry, and three where all were released.
    ensures once { (plan : List W) (history : List Event) → IsHistoryOf W.meaning plan history
        → (k l : ℕ) (one other : Event) → slice_get history k ≡ Some one → slice_get history l ≡ Some other
        → one.kind ≡ other.kind → one.entry ≡ other.entry → k ≡ l }
    ensures events { (plan : List W) (history : List Event) → IsHistoryOf W.meaning plan history
        → length history ≤ 3 * length plan }
    ensures all_events { (plan : List W) (history : List Event) → IsHistoryOf W.meaning plan history
        → IsComplete plan history → length history ≡ 3 * length plan }
{}
