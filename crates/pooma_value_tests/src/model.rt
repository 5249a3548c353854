//! Programs: the order in which a walk gives their statements, and what they declare.

ghost use Rattle.std.specs.Prelude.{◌≡◌, ◌<◌, [], ◌∷◌, OnOk};
ghost use Rattle.pooma_model.specs.Order.{with_statements};

use pooma_domain::{Axis, BoxN, Cell};
use pooma_field::{Faces, Shape, Updater};
use pooma_layout::Layout;
use pooma_model::{Action, Draft, Program, Statement};
use std::alloc::{AllocError, Global};

// Puts a statement at the end that is told by its line, and fits every program.
fn put(alloc: Global, draft: &mut Draft, line: u32) -> Result<(), AllocError>
    ensures { OnOk result (draft.new ≡ with_statements (record { line = line; action = Action.Block } ∷ []) draft.old) }
{
    draft.push(
        alloc,
        Statement {
            line,
            action: Action::Block,
        },
    )
}

// Whether a walk gives statements of these lines, and then none.
fn gives(program: Result<Program, AllocError>, lines: &[u32]) -> Result<bool, AllocError> {
    let program = program?;
    let mut walk = program.walk();
    for line in lines {
        match walk.next() {
            Some(statement) if statement.line == *line => {}
            _ => return Ok(false),
        }
    }
    Ok(walk.next().is_none())
}

fn repeats_in_a_repeat(alloc: Global) -> Result<Program, AllocError> {
    let mut draft = Draft::new(alloc);
    draft.repeat(alloc, 2)?;
    put(alloc, &mut draft, 1)?;
    draft.repeat(alloc, 3)?;
    put(alloc, &mut draft, 2)?;
    draft.end();
    put(alloc, &mut draft, 3)?;
    draft.end();
    put(alloc, &mut draft, 4)?;
    Ok(draft.finish())
}

#[test]
fn an_inner_repeat_is_done_whole_in_each_turn(rt: HostRuntime) {
    let lines = &[1, 2, 2, 2, 3, 1, 2, 2, 2, 3, 4];
    assert!(rt; gives(repeats_in_a_repeat(rt.alloc()), lines) == Ok(true));
}

// Four repeats of so many turns around nothing, and a statement behind them.
fn repeats_around_nothing(alloc: Global, turns: u32) -> Result<Program, AllocError>
    requires { 0 < turns }
{
    let mut draft = Draft::new(alloc);
    draft.repeat(alloc, turns)?;
    draft.repeat(alloc, turns)?;
    draft.repeat(alloc, turns)?;
    draft.repeat(alloc, turns)?;
    draft.end();
    draft.end();
    draft.end();
    draft.end();
    put(alloc, &mut draft, 9)?;
    Ok(draft.finish())
}

#[test]
fn repeats_around_nothing_end_at_once(rt: HostRuntime) {
    let program = repeats_around_nothing(rt.alloc(), 999_999_999);
    assert!(rt; gives(program, &[9]) == Ok(true));
}

// A row of ten numbers on two patches, with guards of one cell.
fn two_patches(alloc: Global) -> Result<Layout, AllocError> {
    let one = Cell::of1(1);
    let domain = BoxN::of1(Axis { first: 0, last: 9 });
    Layout::grid(alloc, domain, &Cell::of1(2), &one, &one)
}

// A program of a field on that row and a scalar that is printed. None where the field has no shape of at most 100 cells.
fn field_and_scalar(alloc: Global) -> Result<Option<Program>, AllocError> {
    let layout = two_patches(alloc)?;
    let faces = Faces::new(&[Updater::Periodic, Updater::Reflect]);
    let shape = match Shape::of(layout.physical(), layout.total(), Some(faces)) {
        Some(shape) if shape.total.count() <= 100 => shape,
        _ => return Ok(None),
    };
    let mut draft = Draft::new(alloc);
    draft.declare(alloc, shape, layout)?;
    let action = Action::PrintScalar {
        scalar: draft.scalar(),
    };
    draft.push(alloc, Statement { line: 7, action })?;
    Ok(Some(draft.finish()))
}

// The scalars, the arrays, and of the first of these the patches, the cells, and whether it has faces.
fn declared(alloc: Global) -> Result<Option<(u32, u32, usize, u64, bool)>, AllocError> {
    let Some(program) = field_and_scalar(alloc)? else {
        return Ok(None);
    };
    if program.arrays() == 0 {
        return Ok(None);
    }
    let shape = program.shape(0);
    let patches = program.layout(0).patches();
    let (cells, is_field) = (shape.total.count(), shape.faces.is_some());
    Ok(Some((
        program.scalars(),
        program.arrays(),
        patches,
        cells,
        is_field,
    )))
}

#[test]
fn a_program_has_what_was_declared(rt: HostRuntime) {
    assert!(rt; declared(rt.alloc()) == Ok(Some((1, 1, 2, 12, true))));
}
