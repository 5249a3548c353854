ghost use Rattle.std.specs.Prelude.{◌≡◌, ◌≢◌, ◌↔◌, ◌⊎◌, ◌≤◌, ℕ, List, length, map, string_bytes, MatchResult, None, OnOk, OnErr, IfOk, IfErr};
ghost use Rattle.std.specs.Io.KnownBytes.{Appends, IsAtEnd};
ghost use Rattle.pooma_io.specs.Outside.{HasRisen, TakesExactly};
ghost use Rattle.pooma_model.specs.Order.{Programmed};
ghost use Rattle.pooma_script.specs.Scripts.{IsScript, Runs};
ghost use Rattle.pooma_top.specs.declared.command.Command.TheVariants as command;
ghost use Rattle.pooma_run.specs.Told.{HasAsked};
ghost use Rattle.pooma_top.specs.Output.{AppendsFront, AppendsLess, IsDefined, IsDoneBy, IsDoneWith, IsGiven, IsInput, IsOutput, IsOutputOf, Output, shown};
ghost use Rattle.pooma_top.specs.Prepared.{HasWorkers, IsReady, promised};
ghost use Rattle.pooma_top.specs.Tasks.{IsAllowed, IsCommand, Makes, MakesScript, Reads, ReadsScript, RunsScript, workers_of};

use crate::command::{Task, task_of};
use crate::engine::{by_picker, by_workers};
use crate::output::Answer;
use crate::prepared::{Prepared, prepare};
use crate::status::Status;
use pooma_check::one_script;
use pooma_io::{Failed, Sink, Source};
use pooma_run::Picker;
use pooma_worker::Gate;
use std::alloc::{AllocError, Global};
use std::sync::Wait;
use std::thread::Threads;

/// The most workers of a run.
const MOST_WORKERS: u32 = 64;

/// Does the command that the words after the program's name give, where `run` and `demo` are on one worker, and answers how it
/// ended.
///
/// It reads the whole script, or makes one, runs it or only looks at it, and writes its output. The picker says what is run
/// next. It waits for nobody and returns. The clauses on bytes hold where the sink tells its content and, unless the script is
/// made, the source too.
pub fn top_one<S: Source, K: Sink, P: Picker>(
    alloc: Global,
    words: &[String],
    source: &mut S,
    sink: &mut K,
    picker: &mut P,
) -> Status
    // Usage comes exactly where the words are of no command, and then nothing is read or written.
    ensures usage { (result ≡ Status.Usage) ↔ (IsCommand 1 (map string_bytes words.now) → ⊥) }
    ensures untouched { result ≡ Status.Usage → (source.new ≡ source.old) × (sink.new ≡ sink.old) }

    // A read fault comes only where the source's count of faults rose, and then nothing is written. For a made script the source
    // is left as it is.
    ensures read_fault { result ≡ Status.ReadFault → HasRisen (S.faults source.old) (S.faults source.new) }
    ensures unwritten { result ≡ Status.ReadFault → sink.new ≡ sink.old }
    ensures unread { MakesScript (map string_bytes words.now) → (source.new ≡ source.old) × (result ≢ Status.ReadFault) }

    // Where it is Done, Refused or Faulted it is the status of the output that is defined for the words and what was left
    // to read, and what the sink holds grew by exactly the bytes of that output.
    ensures defined { IsDefined result → (input : List ℕ) → IsInput (map string_bytes words.now) (S.left source.old) input → (bytes : List ℕ)
        × IsOutput 1 (map string_bytes words.now) input (record { bytes = bytes; status = result })
        × Appends (K.held sink.old) (K.held sink.new) bytes }

    // A write fault comes only where the sink's count of faults rose, and not all of the output is held then.
    ensures write_fault { result ≡ Status.WriteFault → HasRisen (K.faults sink.old) (K.faults sink.new) }
    ensures cut_short { result ≡ Status.WriteFault → (input : List ℕ) → IsInput (map string_bytes words.now) (S.left source.old) input → (output : Output)
        × IsOutput 1 (map string_bytes words.now) input output × AppendsLess (K.held sink.old) (K.held sink.new) output.bytes }

    // Want of memory may come at any time, and a front of the output may be held then.
    ensures out_of_memory { result ≡ Status.OutOfMemory → (input : List ℕ) (output : Output) → IsInput (map string_bytes words.now) (S.left source.old) input
        → IsOutput 1 (map string_bytes words.now) input output → AppendsFront (K.held sink.old) (K.held sink.new) output.bytes }

    // Where nothing fails it is the defined status, or want of memory.
    ensures complete { (HasRisen (S.faults source.old) (S.faults source.new) → ⊥) → (HasRisen (K.faults sink.old) (K.faults sink.new) → ⊥)
        → IsCommand 1 (map string_bytes words.now) → IsDefined result ⊎ (result ≡ Status.OutOfMemory) }

    // A script that is read is read to its end, or one byte past the limit, and no further.
    ensures read_to_end { ReadsScript (map string_bytes words.now) → (result ≡ Status.Done) ⊎ (result ≡ Status.Faulted) → IsAtEnd (S.left source.new) }
    ensures refused_read { ReadsScript (map string_bytes words.now) → result ≡ Status.Refused
        → IsAtEnd (S.left source.new) ⊎ TakesExactly 1048577 (S.left source.old) (S.left source.new) }

    // The counts of faults do not fall.
    ensures later { (S.faults source.old ≤ S.faults source.new) × (K.faults sink.old ≤ K.faults sink.new) }

    // Where a program is run to its end the picker is asked the questions of its windows. It is asked nothing where the words ask
    // for no run.
    ensures asked { (input bytes : List ℕ) (program : Programmed) → IsInput (map string_bytes words.now) (S.left source.old) input
        → IsDoneWith 1 (map string_bytes words.now) input (command.Run 1) bytes → IsScript bytes (Runs program)
        → IsDefined result ⊎ (result ≡ Status.WriteFault) → HasAsked program (P.asked picker.old) (P.asked picker.new) }
    ensures unasked { (RunsScript (map string_bytes words.now) → ⊥) → picker.new ≡ picker.old }
{
    let Some(task) = task_of(words, 1) else {
        return Status::Usage;
    };
    match answer_one(alloc, source, task, picker) {
        Ok(answer) => deliver(sink, answer),
        Err(status) => status,
    }
}

/// Does the command that the words after the program's name give, and answers how it ended: as `top_one`, but `run` and `demo`
/// may be by up to 64 workers. They call the gate before each work, and what is written is the same for every number of them.
///
/// With more than one worker it may wait for the works of the others, so it does not promise that it returns.
pub fn top<R: Threads + Wait + Sync, S: Source, K: Sink, G: Gate + Sync>(
    rt: &R,
    alloc: Global,
    words: &[String],
    source: &mut S,
    sink: &mut K,
    gate: &G,
) -> Status
    // Usage comes exactly where the words are of no command, and then nothing is read or written.
    ensures usage { (result ≡ Status.Usage) ↔ (IsCommand 64 (map string_bytes words.now) → ⊥) }
    ensures untouched { result ≡ Status.Usage → (source.new ≡ source.old) × (sink.new ≡ sink.old) }

    // A read fault comes only where the source's count of faults rose, and then nothing is written. For a made script the source
    // is left as it is.
    ensures read_fault { result ≡ Status.ReadFault → HasRisen (S.faults source.old) (S.faults source.new) }
    ensures unwritten { result ≡ Status.ReadFault → sink.new ≡ sink.old }
    ensures unread { MakesScript (map string_bytes words.now) → (source.new ≡ source.old) × (result ≢ Status.ReadFault) }

    // Where it is Done, Refused or Faulted it is the status of the output that is defined for the words and what was left
    // to read, and what the sink holds grew by exactly the bytes of that output.
    ensures defined { IsDefined result → (input : List ℕ) → IsInput (map string_bytes words.now) (S.left source.old) input → (bytes : List ℕ)
        × IsOutput 64 (map string_bytes words.now) input (record { bytes = bytes; status = result })
        × Appends (K.held sink.old) (K.held sink.new) bytes }

    // A write fault comes only where the sink's count of faults rose, and not all of the output is held then.
    ensures write_fault { result ≡ Status.WriteFault → HasRisen (K.faults sink.old) (K.faults sink.new) }
    ensures cut_short { result ≡ Status.WriteFault → (input : List ℕ) → IsInput (map string_bytes words.now) (S.left source.old) input → (output : Output)
        × IsOutput 64 (map string_bytes words.now) input output × AppendsLess (K.held sink.old) (K.held sink.new) output.bytes }

    // Want of memory may come at any time, and a front of the output may be held then.
    ensures out_of_memory { result ≡ Status.OutOfMemory → (input : List ℕ) (output : Output) → IsInput (map string_bytes words.now) (S.left source.old) input
        → IsOutput 64 (map string_bytes words.now) input output → AppendsFront (K.held sink.old) (K.held sink.new) output.bytes }

    // Where nothing fails it is the defined status, or want of memory.
    ensures complete { (HasRisen (S.faults source.old) (S.faults source.new) → ⊥) → (HasRisen (K.faults sink.old) (K.faults sink.new) → ⊥)
        → IsCommand 64 (map string_bytes words.now) → IsDefined result ⊎ (result ≡ Status.OutOfMemory) }

    // A script that is read is read to its end, or one byte past the limit, and no further.
    ensures read_to_end { ReadsScript (map string_bytes words.now) → (result ≡ Status.Done) ⊎ (result ≡ Status.Faulted) → IsAtEnd (S.left source.new) }
    ensures refused_read { ReadsScript (map string_bytes words.now) → result ≡ Status.Refused
        → IsAtEnd (S.left source.new) ⊎ TakesExactly 1048577 (S.left source.old) (S.left source.new) }

    // The counts of faults do not fall.
    ensures later { (S.faults source.old ≤ S.faults source.new) × (K.faults sink.old ≤ K.faults sink.new) }
{
    let Some(task) = task_of(words, MOST_WORKERS) else {
        return Status::Usage;
    };
    match answer_many(rt, alloc, source, task, gate) {
        Ok(answer) => deliver(sink, answer),
        Err(status) => status,
    }
}

/// The answer to a task, in which the picker says what is run next; or with which status it ended before there was one.
fn answer_one<S: Source, P: Picker>(
    alloc: Global,
    source: &mut S,
    task: Task,
    picker: &mut P,
) -> Result<Answer, Status>
    ensures answer { IfOk result (λ answer. (input : List ℕ) → IsGiven task (S.left source.old) input → IsOutputOf task input (shown answer)) }
    ensures defined { IfOk result (λ answer. IsDefined answer.status) }
    ensures read_to_end { Reads task → IfOk result (λ answer. (answer.status ≡ Status.Done) ⊎ (answer.status ≡ Status.Faulted) → IsAtEnd (S.left source.new)) }
    ensures refused_read { Reads task → OnOk result (IsAtEnd (S.left source.new) ⊎ TakesExactly 1048577 (S.left source.old) (S.left source.new)) }
    ensures ends { IfErr result (λ status. ((status ≡ Status.ReadFault) × HasRisen (S.faults source.old) (S.faults source.new)) ⊎ (status ≡ Status.OutOfMemory)) }
    ensures unread { Makes task → (source.new ≡ source.old) × IfErr result (λ status. status ≡ Status.OutOfMemory) }
    ensures later { S.faults source.old ≤ S.faults source.new }
    ensures asked { (input bytes : List ℕ) (workers : ℕ) (program : Programmed) → IsGiven task (S.left source.old) input → IsDoneBy task input (command.Run workers) bytes
        → IsScript bytes (Runs program) → OnOk result (HasAsked program (P.asked picker.old) (P.asked picker.new)) }
    ensures unasked { workers_of task ≡ None → picker.new ≡ picker.old }
{
    one_script();
    let prepared = prepare(alloc, source, task)?;
    in_memory(finish_one(alloc, prepared, picker))
}

/// The answer to a task that up to 64 workers run, or with which status it ended before there was one.
fn answer_many<R: Threads + Wait + Sync, S: Source, G: Gate + Sync>(
    rt: &R,
    alloc: Global,
    source: &mut S,
    task: Task,
    gate: &G,
) -> Result<Answer, Status>
    requires { IsAllowed 64 task }
    ensures answer { IfOk result (λ answer. (input : List ℕ) → IsGiven task (S.left source.old) input → IsOutputOf task input (shown answer)) }
    ensures defined { IfOk result (λ answer. IsDefined answer.status) }
    ensures read_to_end { Reads task → IfOk result (λ answer. (answer.status ≡ Status.Done) ⊎ (answer.status ≡ Status.Faulted) → IsAtEnd (S.left source.new)) }
    ensures refused_read { Reads task → OnOk result (IsAtEnd (S.left source.new) ⊎ TakesExactly 1048577 (S.left source.old) (S.left source.new)) }
    ensures ends { IfErr result (λ status. ((status ≡ Status.ReadFault) × HasRisen (S.faults source.old) (S.faults source.new)) ⊎ (status ≡ Status.OutOfMemory)) }
    ensures unread { Makes task → (source.new ≡ source.old) × IfErr result (λ status. status ≡ Status.OutOfMemory) }
    ensures later { S.faults source.old ≤ S.faults source.new }
{
    let prepared = prepare(alloc, source, task)?;
    in_memory(finish_many(rt, alloc, prepared, gate))
}

// The answer to what was prepared, in which the picker says what is run next. The only error is want of memory.
fn finish_one<P: Picker>(
    alloc: Global,
    prepared: Prepared,
    picker: &mut P,
) -> Result<Answer, AllocError>
    ensures answer { IfOk result (λ answer. shown answer ≡ promised prepared) }
    ensures asked { (program : Programmed) (workers : ℕ) → IsReady program workers prepared → OnOk result (HasAsked program (P.asked picker.old) (P.asked picker.new)) }
    ensures unasked { ((program : Programmed) (workers : ℕ) → IsReady program workers prepared → ⊥) → picker.new ≡ picker.old }
{
    match prepared {
        Prepared::Answered(answer) => Ok(answer),
        Prepared::Ready { program, .. } => by_picker(alloc, &program, picker),
    }
}

// The answer to what was prepared, in which as many workers as are asked for run it. The only error is want of memory.
fn finish_many<R: Threads + Wait + Sync, G: Gate + Sync>(
    rt: &R,
    alloc: Global,
    prepared: Prepared,
    gate: &G,
) -> Result<Answer, AllocError>
    requires { HasWorkers 64 prepared }
    ensures { IfOk result (λ answer. shown answer ≡ promised prepared) }
{
    match prepared {
        Prepared::Answered(answer) => Ok(answer),
        Prepared::Ready { program, workers } => by_workers(rt, alloc, &program, workers, gate),
    }
}

// An answer, or the status of want of memory.
fn in_memory(answer: Result<Answer, AllocError>) -> Result<Answer, Status>
    ensures { MatchResult answer (λ found. result ≡ Ok found) (λ _. result ≡ Err Status.OutOfMemory) }
{
    match answer {
        Ok(answer) => Ok(answer),
        Err(_) => Err(Status::OutOfMemory),
    }
}

/// Writes an answer, and says how that ended.
fn deliver<K: Sink>(sink: &mut K, answer: Answer) -> Status
    requires { IsDefined answer.status }
    ensures whole { IsDefined result → (result ≡ answer.status) × Appends (K.held sink.old) (K.held sink.new) answer.text.items }
    ensures cut_short { result ≡ Status.WriteFault → AppendsLess (K.held sink.old) (K.held sink.new) answer.text.items }
    ensures fault { result ≡ Status.WriteFault → HasRisen (K.faults sink.old) (K.faults sink.new) }
    ensures ends { IsDefined result ⊎ (result ≡ Status.WriteFault) }
    ensures later { K.faults sink.old ≤ K.faults sink.new }
{
    match write_all(sink, &answer.text) {
        Ok(()) => answer.status,
        Err(_) => Status::WriteFault,
    }
}

/// Writes a text as the whole rest of it, call after call, until nothing is left or a write fails.
fn write_all<K: Sink>(sink: &mut K, text: &[u8]) -> Result<(), Failed>
    ensures ok { OnOk result (Appends (K.held sink.old) (K.held sink.new) text.now) }
    ensures err { OnErr result (AppendsLess (K.held sink.old) (K.held sink.new) text.now) }
    ensures fault { OnErr result (HasRisen (K.faults sink.old) (K.faults sink.new)) }
    ensures later { K.faults sink.old ≤ K.faults sink.new }
{
    let mut rest = text;
    while !rest.is_empty() {
        let written = sink.write(rest)?;
        rest = &rest[written..];
    }
    Ok(())
}
