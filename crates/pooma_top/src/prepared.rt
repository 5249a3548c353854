//! What is left to do for a task once its script is there.
ghost use Rattle.std.specs.Prelude.{◌≡◌, ◌⊎◌, ◌+◌, ◌≤◌, ℕ, List, IfOk, IfErr, IfSome, MatchResult, OnOk};
ghost use Rattle.std.specs.Io.KnownBytes.{IsAtEnd};
ghost use Rattle.pooma_io.specs.Outside.{HasRisen, TakesExactly};
ghost use Rattle.pooma_script.specs.Scripts.{Runs};
ghost use Rattle.pooma_top.specs.declared.command.Task.{Task};
ghost use Rattle.pooma_top.specs.Output.{IsGiven, made_output, refused_output, script_of};
ghost use Rattle.pooma_top.specs.Prepared.{IsAnswered, IsFit, IsFor, IsForBytes, IsPrepared, promised};
ghost use Rattle.pooma_top.specs.Tasks.{Makes, Reads};

use crate::command::{Command, Recipe, Task};
use crate::output::{Answer, answer_refused};
use crate::status::Status;
use pooma_check::{Cause, CheckError, LimitName, Refusal, check};
use pooma_io::{ReadAllError, Source, read_all};
use pooma_maker::script;
use pooma_model::Program;
use std::alloc::{AllocError, Global};

/// The most bytes of a script.
const MOST_SCRIPT_BYTES: usize = 1_048_576;

/// What is left to do for a task once its script is there.
#[derive(Debug, Drop)]
pub enum Prepared {
    /// Nothing but to write this answer.
    Answered(Answer),
    /// To run this program by so many workers.
    Ready { program: Program, workers: u32 },
}

/// What is left to do for a task, after its script was read or made and looked at; or with which status that ended.
pub fn prepare<S: Source>(alloc: Global, source: &mut S, task: Task) -> Result<Prepared, Status>
    ensures prepared { IfOk result (λ prepared. (input : List ℕ) → IsGiven task (S.left source.old) input → IsPrepared task input prepared) }
    ensures fit { IfOk result (λ prepared. IsFit task prepared) }
    ensures read_to_end { Reads task → IfOk result (λ prepared. ((promised prepared).status ≡ Status.Done) ⊎ ((promised prepared).status ≡ Status.Faulted) → IsAtEnd (S.left source.new)) }
    ensures refused_read { Reads task → OnOk result (IsAtEnd (S.left source.new) ⊎ TakesExactly (MOST_SCRIPT_BYTES + 1) (S.left source.old) (S.left source.new)) }
    ensures ends { IfErr result (λ status. ((status ≡ Status.ReadFault) × HasRisen (S.faults source.old) (S.faults source.new)) ⊎ (status ≡ Status.OutOfMemory)) }
    ensures unread { Makes task → (source.new ≡ source.old) × IfErr result (λ status. status ≡ Status.OutOfMemory) }
    ensures later { S.faults source.old ≤ S.faults source.new }
{
    match task {
        Task::Read(command) => read_script(alloc, source, command),
        Task::Make(recipe) => in_memory(make_script(alloc, recipe)),
        Task::Demo { recipe, workers } => in_memory(make_to_run(alloc, recipe, workers)),
    }
}

// What was prepared, or the status of want of memory.
fn in_memory(prepared: Result<Prepared, AllocError>) -> Result<Prepared, Status>
    ensures { MatchResult prepared (λ found. result ≡ Ok found) (λ _. result ≡ Err Status.OutOfMemory) }
{
    match prepared {
        Ok(prepared) => Ok(prepared),
        Err(_) => Err(Status::OutOfMemory),
    }
}

/// Reads a script to its end and looks at it, or says with which status that ended.
fn read_script<S: Source>(
    alloc: Global,
    source: &mut S,
    command: Command,
) -> Result<Prepared, Status>
    ensures prepared { IfOk result (λ prepared. IfSome (S.left source.old) (λ input. IsForBytes command input prepared)) }
    ensures fit { IfOk result (λ prepared. IsFit (Task.Read command) prepared) }
    ensures read_to_end { IfOk result (λ prepared. ((promised prepared).status ≡ Status.Done) ⊎ ((promised prepared).status ≡ Status.Faulted) → IsAtEnd (S.left source.new)) }
    ensures refused_read { OnOk result (IsAtEnd (S.left source.new) ⊎ TakesExactly (MOST_SCRIPT_BYTES + 1) (S.left source.old) (S.left source.new)) }
    ensures ends { IfErr result (λ status. ((status ≡ Status.ReadFault) × HasRisen (S.faults source.old) (S.faults source.new)) ⊎ (status ≡ Status.OutOfMemory)) }
    ensures later { S.faults source.old ≤ S.faults source.new }
{
    let prepared = match read_all(alloc, source, MOST_SCRIPT_BYTES) {
        Ok(script) => checked(alloc, command, &script),
        Err(ReadAllError::TooLong) => refuse(alloc, too_long()),
        Err(ReadAllError::ReadFault) => return Err(Status::ReadFault),
        Err(ReadAllError::OutOfMemory) => return Err(Status::OutOfMemory),
    };
    in_memory(prepared)
}

// The made script as the answer itself. The only error is want of memory.
fn make_script(alloc: Global, recipe: Recipe) -> Result<Prepared, AllocError>
    ensures answered { IfOk result (λ prepared. IsAnswered (made_output recipe) prepared) }
    ensures fit { IfOk result (λ prepared. IsFit (Task.Make recipe) prepared) }
{
    Ok(Prepared::Answered(Answer {
        text: script(alloc, recipe.seed, recipe.lines)?,
        status: Status::Done,
    }))
}

// The made script, to be run by so many workers. The only error is want of memory.
fn make_to_run(alloc: Global, recipe: Recipe, workers: u32) -> Result<Prepared, AllocError>
    ensures prepared { IfOk result (λ prepared. IsForBytes (Command.Run workers) (script_of recipe) prepared) }
    ensures fit { IfOk result (λ prepared. IsFit (Task.Demo recipe workers) prepared) }
{
    let bytes = script(alloc, recipe.seed, recipe.lines)?;
    checked(alloc, Command::Run { workers }, &bytes)
}

/// What is left to do for a command with the script that the bytes are. The only error is want of memory.
fn checked(alloc: Global, command: Command, bytes: &[u8]) -> Result<Prepared, AllocError>
    ensures prepared { IfOk result (λ prepared. IsForBytes command bytes.now prepared) }
    ensures fit { IfOk result (λ prepared. IsFit (Task.Read command) prepared) }
{
    match check(alloc, bytes) {
        Ok(program) => accept(alloc, command, program),
        Err(CheckError::Refused(refused)) => refuse(alloc, refused),
        Err(CheckError::OutOfMemory) => Err(AllocError),
    }
}

// What is left to do with a program. The only error is want of memory.
fn accept(alloc: Global, command: Command, program: Program) -> Result<Prepared, AllocError>
    ensures prepared { IfOk result (λ prepared. IsFor (Runs program) command prepared) }
    ensures fit { IfOk result (λ prepared. IsFit (Task.Read command) prepared) }
{
    match command {
        Command::Run { workers } => Ok(Prepared::Ready { program, workers }),
        Command::Check => Ok(Prepared::Answered(Answer {
            text: Vec::from_slice(alloc, b"ok\n")?,
            status: Status::Done,
        })),
    }
}

// A refusal, as all that is left to write. The only error is want of memory.
fn refuse(alloc: Global, refused: Refusal) -> Result<Prepared, AllocError>
    ensures answered { IfOk result (λ prepared. IsAnswered (refused_output refused.line refused.cause) prepared) }
    ensures fit { (task : Task) → IfOk result (λ prepared. IsFit task prepared) }
{
    Ok(Prepared::Answered(answer_refused(alloc, refused)?))
}

/// The refusal of a script of too many bytes.
fn too_long() -> Refusal
    ensures line { result.line ≡ 0 }
    ensures cause { result.cause ≡ Cause.Limit LimitName.ScriptBytes }
{
    Refusal {
        line: 0,
        cause: Cause::Limit(LimitName::ScriptBytes),
    }
}
