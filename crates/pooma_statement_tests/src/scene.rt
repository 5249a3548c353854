//! The arrays of a script, on whose patches its statements are done.
ghost use Rattle.std.specs.Prelude.{◌≡◌, false, IfOk, length};
ghost use Rattle.pooma_model.specs.Fit.{IsFit};

use crate::patches::perform;
use pooma_check::check;
use pooma_domain::Cell;
use pooma_fill::Stale;
use pooma_model::{Action, Program};
use pooma_piece::Piece;
use pooma_run::open_store;
use pooma_split::pieces;
use pooma_store::Store;
use pooma_view::View;
use std::alloc::{AllocError, Global};
use std::marker::Model;

// The arrays and the scalars of a program, with which of its fields are stale. The scalars are 0.
//
// Contracts see what the program declares.
#[derive(Drop)]
struct Scene {
    store: Store,
    stale: Stale,
    scalars: Vec<i64>,
}

impl Model for Scene {
    ghost use Rattle.std.specs.Prelude.{◌≡◌, false, length};
    ghost use Rattle.pooma_model.specs.Declarations.{Declared};
    ghost use Rattle.pooma_fill.specs.Marks.{HasArrays, declared_of};
    ghost use Rattle.pooma_split.specs.Splits.{declared_in};

    ghost Value = { Declared };

    ghost view = { λ s. declared_of s.stale };

    ghost invariant = { λ s. HasArrays s.store s.stale × (declared_in s.store (length s.scalars.items) ≡ declared_of s.stale) × (s.store.lent ≡ false) };
}

// The number of an array's cell, where it is there.
fn number(store: &Store, array: u32, c: Cell) -> Option<i64>
    requires { store.now.lent ≡ false }
{
    if array >= store.arrays() || !store.layout(array).total().contains(&c) {
        return None;
    }
    Some(store.get(array, &c))
}

impl Scene {
    // The arrays of the program, all of whose numbers are 0.
    fn of(alloc: Global, program: &Program) -> Result<Scene, AllocError>
        ensures { IfOk result (λ scene. scene ≡ program.now.declared) }
    {
        let store = open_store(alloc, program)?;
        let stale = Stale::new(alloc, program)?;
        let scalars = vec![in alloc; 0; program.scalars() as usize]?;
        Ok(Scene {
            store,
            stale,
            scalars,
        })
    }

    // The fills that the action needs.
    fn fills(&self, alloc: Global, action: &Action) -> Result<Vec<Piece>, AllocError>
        requires { IsFit self.now action.now }
    {
        self.stale.fills_before(alloc, 0, action, &self.store)
    }

    // The pieces of the action.
    fn pieces(&self, alloc: Global, action: &Action) -> Result<Vec<Piece>, AllocError>
        requires { IsFit self.now action.now }
    {
        pieces(alloc, 0, action, &self.store, &self.scalars)
    }

    // The fills that the action needs, and its pieces.
    fn asked(&self, alloc: Global, action: &Action) -> Option<(Vec<Piece>, Vec<Piece>)>
        requires { IsFit self.now action.now }
    {
        let fills = self.fills(alloc, action).ok()?;
        Some((fills, self.pieces(alloc, action).ok()?))
    }

    // Does pieces that set cells, one after another.
    fn perform(&mut self, alloc: Global, pieces: &[Piece]) -> Option<()>
        ensures { self.new ≡ self.old }
    {
        let mut patches = self.store.lend();
        let done = perform(alloc, &mut patches, pieces);
        self.store.settle(patches);
        done
    }

    // Does an action with the fills that it needs, and answers how many these are.
    fn execute(&mut self, alloc: Global, action: &Action) -> Option<usize>
        requires { IsFit self.old action.now }
        ensures { self.new ≡ self.old }
    {
        let fills = self.fills(alloc, action).ok()?;
        self.perform(alloc, &fills)?;
        let pieces = self.pieces(alloc, action).ok()?;
        self.perform(alloc, &pieces)?;
        self.stale.after(action);
        Some(fills.len())
    }

    // Appends the numbers that the view has.
    fn push_numbers(&self, view: &View, numbers: &mut Vec<i64>) -> Option<()> {
        if !view.has_positions() {
            return None;
        }
        let positions = view.positions();
        for k in 0..positions.count() {
            let c = view.cell(&positions.cell_at(k));
            numbers.push(number(&self.store, view.array(), c)?).ok()?;
        }
        Some(())
    }

    // Appends the numbers that the action prints, if it prints a view.
    fn push_printed(&self, action: &Action, numbers: &mut Vec<i64>) -> Option<()> {
        match action {
            Action::PrintView { view } => self.push_numbers(view, numbers),
            _ => Some(()),
        }
    }
}

/// Does the statements of a script, and answers how many fills each needed, and the numbers that are printed.
pub(crate) fn run(alloc: Global, script: &[u8]) -> Option<(Vec<usize>, Vec<i64>)> {
    let program = check(alloc, script).ok()?;
    run_program(alloc, &program)
}

fn run_program(alloc: Global, program: &Program) -> Option<(Vec<usize>, Vec<i64>)> {
    let mut scene = Scene::of(alloc, program).ok()?;
    let mut fills = Vec::new(alloc);
    let mut numbers = Vec::new(alloc);
    let mut walk = program.walk();
    while let Some(statement) = walk.next() {
        fills.push(scene.execute(alloc, &statement.action)?).ok()?;
        scene.push_printed(&statement.action, &mut numbers)?;
    }
    Some((fills, numbers))
}

/// The fills that the first statement of a script needs, and its pieces.
pub(crate) fn first(alloc: Global, script: &[u8]) -> Option<(Vec<Piece>, Vec<Piece>)> {
    let program = check(alloc, script).ok()?;
    let scene = Scene::of(alloc, &program).ok()?;
    let mut walk = program.walk();
    let statement = walk.next()?;
    scene.asked(alloc, &statement.action)
}
