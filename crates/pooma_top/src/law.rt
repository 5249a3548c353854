ghost use Rattle.std.specs.Prelude.{◌≡◌, ◌≤◌, ◌↔◌, ℕ, List};
ghost use Rattle.pooma_model.specs.Order.{Programmed};
ghost use Rattle.pooma_print.specs.Texts.{refusal_text};
ghost use Rattle.pooma_script.specs.declared.cause.Cause.{Cause};
ghost use Rattle.pooma_script.specs.Scripts.{IsScript, Refused, Runs};
ghost use Rattle.pooma_top.specs.declared.command.Command.{Command};
ghost use Rattle.pooma_top.specs.declared.command.Command.TheVariants as command;
ghost use Rattle.pooma_top.specs.declared.command.Recipe.{Recipe};
ghost use Rattle.pooma_top.specs.declared.command.Task.TheVariants.{Read, Make, Demo};
ghost use Rattle.pooma_top.specs.declared.status.Status.TheVariants as status;
ghost use Rattle.pooma_top.specs.Causes.{cause_text};
ghost use Rattle.pooma_top.specs.Output.{EndsInFault, IsDoneWith, IsOutput, Output};
ghost use Rattle.pooma_top.specs.Tasks.{IsInRange, IsUpTo, words_of};

use pooma_check::{one_script, some_script};

/// The law that words and an input have exactly one output, so that the output of which the clauses of `top` and `top_one`
/// speak is there, and is the only one. `most` is the most workers that may be asked for, as in the other laws.
///
/// It does nothing; its contract is for proofs about what a run writes.
pub fn one_output()
    ensures some { (most : ℕ) (words : List (List ℕ)) (input : List ℕ) → (output : Output) × IsOutput most words input output }
    ensures only { (most : ℕ) (words : List (List ℕ)) (input : List ℕ) (a b : Output) → most ≤ 64 → IsOutput most words input a → IsOutput most words input b → a ≡ b }
{
    one_script();
    some_script();
}

/// The law that the output of `run` and of `demo` is the same for every number of workers.
///
/// It does nothing; its contract is for proofs about what a run writes.
pub fn workers_change_nothing()
    ensures runs { (most m n : ℕ) (input : List ℕ) (output : Output) → most ≤ 64 → IsUpTo most m → IsUpTo most n
        → IsOutput most (words_of (Read (command.Run m))) input output → IsOutput most (words_of (Read (command.Run n))) input output }
    ensures demos { (most m n : ℕ) (recipe : Recipe) (input : List ℕ) (output : Output) → most ≤ 64 → IsInRange recipe → IsUpTo most m → IsUpTo most n
        → IsOutput most (words_of (Demo recipe m)) input output → IsOutput most (words_of (Demo recipe n)) input output }
{}

/// The law that `demo` is `run` on what `make` writes of the same numbers.
///
/// It does nothing; its contract is for proofs about what a run writes.
pub fn demos_run_made_scripts()
    ensures { (most workers : ℕ) (recipe : Recipe) (any input : List ℕ) (made output : Output) → most ≤ 64 → IsInRange recipe → IsUpTo most workers
        → IsOutput most (words_of (Make recipe)) any made
        → (IsOutput most (words_of (Demo recipe workers)) input output ↔ IsOutput most (words_of (Read (command.Run workers))) made.bytes output) }
{}

/// The law of what the status of an output tells: a script that is refused, with the line and the cause; a program whose run
/// faults, with the fault of that run as the last line. The script is the input, or the one that is made for the words.
///
/// It does nothing; its contract is for proofs about what a run writes.
pub fn outputs_by_status()
    ensures refused { (most : ℕ) (words : List (List ℕ)) (input : List ℕ) (output : Output) → IsOutput most words input output → output.status ≡ status.Refused
        → (command : Command) × (bytes : List ℕ) × (line : ℕ) × (why : Cause)
        × IsDoneWith most words input command bytes × IsScript bytes (Refused line why) × (output.bytes ≡ refusal_text line (cause_text why)) }
    ensures faulted { (most : ℕ) (words : List (List ℕ)) (input : List ℕ) (output : Output) → IsOutput most words input output → output.status ≡ status.Faulted
        → (workers : ℕ) × (bytes : List ℕ) × (program : Programmed)
        × IsDoneWith most words input (command.Run workers) bytes × IsScript bytes (Runs program) × EndsInFault program output.bytes }
{}
