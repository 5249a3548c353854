//! A run of a program, whoever completes its windows.
ghost use Rattle.std.specs.Prelude.{◌≡◌, ◌+◌, ◌++◌, ◌∷◌, ◌<◌, [], ℕ, true, false, List, None, Option, Some, IfErr, IfNone, IfOk, IfSome, OnErr, OnOk, OnSome, drop, length, slice_set};
ghost use Rattle.std.specs.Bool.{OnFalse, OnTrue};
ghost use Rattle.pooma_machine.specs.Told.{Window};
ghost use Rattle.pooma_model.specs.Assigning.{Sum};
ghost use Rattle.pooma_model.specs.Fit.{IsFit};
ghost use Rattle.pooma_model.specs.Order.{Programmed};
ghost use Rattle.pooma_model.specs.Texts.{fault_text};
ghost use Rattle.pooma_model.specs.Serial.{serial_of};
ghost use Rattle.pooma_split.specs.Statements.{fault_among};
ghost use Rattle.pooma_fill.specs.Marks.{Staled};
ghost use Rattle.pooma_run.specs.Plan.{IsOpening, fault_of_run};
ghost use Rattle.pooma_run.specs.Steps.{window_with};
ghost use Rattle.pooma_run.specs.Told.{HasTold, HasToldFirst, IsCutShort, TellsUpTo, ToldAs};
ghost use Rattle.pooma_run.specs.Underway.{ArePending, IsConcluding, IsOf, IsUnderway, WritesFault, completed, left};

use crate::ended::Ended;
use crate::faults::{first_fault, line_of, statements_of};
use crate::gather::gathered;
use crate::laws::laws_below;
use crate::lending::complete_pending;
use crate::shown::push_view;
use crate::works::{add_works, ends_window, open_store, zeros};
use pooma_fill::Stale;
use pooma_model::{Action, Program, Statement};
use pooma_num::FaultKind;
use pooma_piece::{Outcome, Piece};
use pooma_print::{FaultPlace, fault_text, scalar_text};
use pooma_store::Store;
use pooma_window::Completer;
use std::alloc::{AllocError, Global};
use std::marker::Model;
use std::sync::Arc;

// So many pending works end a window.
const ENOUGH: usize = 4096;

// What a run keeps between two statements.
#[derive(Drop)]
struct Running {
    stale: Stale,
    store: Store,
    scalars: Vec<i64>,
    // The works of the statements since the last window, in order.
    pending: Vec<Arc<Piece>>,
    bytes: Vec<u8>,
}

impl Model for Running {
    ghost use Rattle.std.specs.Prelude.{map};
    ghost use Rattle.std.specs.Arc.{arc_value};
    ghost use Rattle.pooma_expr.specs.contracts.tree.Expr.{the_row};
    ghost use Rattle.std.specs.Coded.{codes};
    ghost use Rattle.pooma_run.specs.Underway.{Kept};

    ghost Value = { Kept };

    ghost coded = { Prim.hlevel (codes, the_row.coded) };

    ghost view = { λ r. record { stale = r.stale; store = r.store; scalars = r.scalars.items; pending = map arc_value r.pending.items; bytes = r.bytes.items } };
}

/// Runs a program: goes through its executed statements, and has the works of each window completed. The only error is want of
/// memory.
pub(crate) fn run<C: Completer<Piece>>(
    alloc: Global,
    program: &Program,
    completer: &mut C,
) -> Result<Ended, AllocError>
    requires ready { C.ready completer.old }
    ensures serial { IfOk result (λ ended. ended ≡ serial_of program.now) }
    ensures stays { C.stays completer.old completer.new }
    ensures told { OnOk result (HasTold C.tells program.now (C.told completer.old) (C.told completer.new) completer.old completer.new) }
    ensures front { OnErr result (HasToldFirst C.tells C.stops program.now (C.told completer.old) (C.told completer.new) completer.old completer.new) }
{
    arrays_have_shapes(program);
    let mut running = Running::open(alloc, program)?;
    let mut walk = program.walk();
    let mut number = 0;
    'statements: while let Some(statement) = walk.next() {
        if running.perform(alloc, program, number, statement, completer)? {
            return Ok(Ended::new(running.bytes, true));
        }
        number += 1;
    }
    let faulted = running.end_window(alloc, program, completer)?.is_none();
    Ok(Ended::new(running.bytes, faulted))
}

// Called for what it promises: there are marks to begin with.
fn arrays_have_shapes(program: &Program)
    ensures { (stale : Staled) × IsOpening program.now stale }
{
    'arrays: for array in 0..program.arrays() {
        let _shape = program.shape(array);
    }
}

impl Running {
    // Before the first statement.
    fn open(alloc: Global, program: &Program) -> Result<Running, AllocError>
        ensures underway { IfOk result (λ running. IsUnderway program.now running 0) }
        ensures opening { IfOk result (λ running. IsOpening program.now running.stale) }
        ensures none { IfOk result (λ running. running.pending ≡ []) }
    {
        laws_below();
        let stale = Stale::new(alloc, program)?;
        let store = open_store(alloc, program)?;
        let scalars = zeros(alloc, program.scalars())?;
        // For what it promises: the arrays have shapes and layouts that fit.
        let _objects = store.objects();
        Ok(Running {
            stale,
            store,
            scalars,
            pending: Vec::new(alloc),
            bytes: Vec::new(alloc),
        })
    }

    // Does what the executed statement of this number asks for, and answers whether a fault ended the run.
    fn perform<C: Completer<Piece>>(
        &mut self,
        alloc: Global,
        program: &Program,
        number: u32,
        statement: &Statement,
        completer: &mut C,
    ) -> Result<bool, AllocError>
        requires ready { C.ready completer.old }
        requires underway { IsUnderway program.now self.old number }
        requires next { drop number program.now.order ≡ statement.now ∷ drop (number + 1) program.now.order }
        requires fit { IsFit program.now.declared statement.now.action }
        ensures underway { IfOk result (λ faulted. OnFalse faulted (IsUnderway program.now self.new (number + 1))) }
        ensures ended { IfOk result (λ faulted. OnTrue faulted (serial_of program.now ≡ record { bytes = self.new.bytes; faulted = true })) }
        ensures stays { C.stays completer.old completer.new }
        ensures told { IfOk result (λ faulted. OnFalse faulted ((known : Option (List Window)) (start : C) → TellsUpTo C.tells program.now self.old number known (C.told completer.old) start completer.old
            → TellsUpTo C.tells program.now self.new (number + 1) known (C.told completer.new) start completer.new)) }
        ensures told_all { IfOk result (λ faulted. OnTrue faulted ((known : Option (List Window)) (start : C) → TellsUpTo C.tells program.now self.old number known (C.told completer.old) start completer.old
            → HasTold C.tells program.now known (C.told completer.new) start completer.new)) }
        ensures front { OnErr result ((known : Option (List Window)) (start : C) → TellsUpTo C.tells program.now self.old number known (C.told completer.old) start completer.old
            → HasToldFirst C.tells C.stops program.now known (C.told completer.new) start completer.new) }
    {
        laws_below();
        let action = &statement.action;
        let begin = add_works(
            alloc,
            number,
            action,
            &self.stale,
            &self.store,
            &self.scalars,
            &mut self.pending,
        )?;
        self.stale.after(action);
        if !ends_window(action) && self.pending.len() < ENOUGH {
            return Ok(false);
        }
        match self.end_window(alloc, program, completer)? {
            Some(outcomes) => self.conclude(alloc, statement, &outcomes[begin..]),
            None => Ok(true),
        }
    }

    // Has the pending works completed, and answers their outcomes; none, where one of these is a fault, whose text is written.
    fn end_window<C: Completer<Piece>>(
        &mut self,
        alloc: Global,
        program: &Program,
        completer: &mut C,
    ) -> Result<Option<Vec<Outcome>>, AllocError>
        requires ready { C.ready completer.old }
        requires of { IsOf program.now self.old }
        requires pending { ArePending program.now.declared (length program.now.order) self.old.pending }
        ensures outcomes { IfOk result (λ found. IfSome found (λ outcomes. outcomes.items ≡ (left self.old).outcomes)) }
        ensures none { IfOk result (λ found. OnSome found (fault_among self.old.pending (left self.old) ≡ None)) }
        ensures completed { IfOk result (λ found. OnSome found (self.new ≡ completed self.old)) }
        ensures fault { IfOk result (λ found. IfNone found (WritesFault program.now self.old self.new.bytes)) }
        ensures stays { C.stays completer.old completer.new }
        ensures told { OnOk result (ToldAs C.tells (window_with self.old.pending) (C.told completer.old) (C.told completer.new) completer.old completer.new) }
        ensures err { OnErr result (IsCutShort C.tells C.stops self.old.pending (C.told completer.old) (C.told completer.new) completer.old completer.new) }
    {
        laws_below();
        let statements = statements_of(alloc, &self.pending)?;
        let outcomes = complete_pending(alloc, completer, &mut self.store, &mut self.pending)?;
        match first_fault(&statements, &outcomes) {
            None => Ok(Some(outcomes)),
            Some(fault) => {
                let line = line_of(program, fault.statement);
                let place = FaultPlace::Position(fault.position);
                fault_text(alloc, &mut self.bytes, line, &place, fault.kind)?;
                Ok(None)
            }
        }
    }

    // What is left to do of a statement whose window was completed, with the outcomes of its pieces. Answers whether it faulted.
    fn conclude(
        &mut self,
        alloc: Global,
        statement: &Statement,
        outcomes: &[Outcome],
    ) -> Result<bool, AllocError>
        requires { (program : Programmed) × (number : ℕ) × IsConcluding program self.old number statement.now outcomes.now }
        ensures underway { IfOk result (λ faulted. OnFalse faulted ((program : Programmed) (number : ℕ) → IsConcluding program self.old number statement.now outcomes.now
            → IsUnderway program self.new (number + 1))) }
        ensures ended { IfOk result (λ faulted. OnTrue faulted ((program : Programmed) (number : ℕ) → IsConcluding program self.old number statement.now outcomes.now
            → (serial_of program ≡ record { bytes = self.new.bytes; faulted = true }) × (fault_of_run program ≡ Some number))) }
        ensures some { IfOk result (λ faulted. OnTrue faulted (0 < length outcomes.now)) }
        ensures none { OnOk result (self.new.pending ≡ self.old.pending) }
        ensures stale { OnOk result (self.new.stale ≡ self.old.stale) }
    {
        laws_below();
        match &statement.action {
            Action::Reduce {
                scalar,
                reduction,
                positions: _,
                value: _,
            } => self.give(
                alloc,
                statement.line,
                *scalar,
                gathered(*reduction, outcomes),
            ),
            Action::PrintView { view } => {
                push_view(alloc, &mut self.bytes, &self.store, view)?;
                Ok(false)
            }
            Action::PrintScalar { scalar } => {
                scalar_text(alloc, &mut self.bytes, self.scalars[*scalar as usize])?;
                Ok(false)
            }
            Action::Assign {
                target: _,
                value: _,
                mask: _,
            } => Ok(false),
            Action::Block => Ok(false),
        }
    }

    // Gives the scalar its number, or writes the text of the fault of the sum. Answers whether it is a fault.
    fn give(
        &mut self,
        alloc: Global,
        line: u32,
        scalar: u32,
        number: Result<i64, FaultKind>,
    ) -> Result<bool, AllocError>
        requires { scalar < length self.old.scalars }
        ensures given { IfOk number (λ n. IfOk result (λ faulted. (faulted ≡ false) × (self.new ≡ record self.old { scalars = slice_set self.old.scalars scalar n }))) }
        ensures fault { IfErr number (λ kind. IfOk result (λ faulted. (faulted ≡ true)
            × (self.new ≡ record self.old { bytes = self.old.bytes ++ fault_text line (record { place = Sum; kind = kind }) }))) }
    {
        match number {
            Ok(number) => {
                self.scalars[scalar as usize] = number;
                Ok(false)
            }
            Err(kind) => {
                fault_text(alloc, &mut self.bytes, line, &FaultPlace::Sum, kind)?;
                Ok(true)
            }
        }
    }
}
