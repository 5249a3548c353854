use pooma_domain::{Axis, BoxN, Cell};
use pooma_layout::Layout;
use std::alloc::{AllocError, Global};

// The numbers 0 to 9, in four blocks.
fn blocks(alloc: Global) -> Result<Layout, AllocError> {
    let none = Cell::of1(0);
    let domain = BoxN::of1(Axis { first: 0, last: 9 });
    Layout::grid(alloc, domain, &Cell::of1(4), &none, &none)
}

// A copy of the numbers 0 to 9 cut before 4 and 7.
fn cut(alloc: Global) -> Result<Layout, AllocError> {
    let none = Cell::of1(0);
    let domain = BoxN::of1(Axis { first: 0, last: 9 });
    let cuts = [[4, 7].to_vec(alloc)?];
    Layout::cuts(alloc, domain, &cuts, &none, &none)?.copied(alloc)
}

// Whether the box of one axis has these first and last numbers, and so many in all.
fn goes(b: &BoxN, first: i32, last: i32, count: u64) -> bool {
    b.count() == count && b.contains(&Cell::of1(first)) && b.contains(&Cell::of1(last))
}

// How many patches own numbers from a first to a last one, so many in all, as a table says. None where it has as many rows
// as there are patches, and all do.
fn other_parts(layout: &Layout, parts: &[(i32, i32, u64)]) -> Option<usize> {
    for p in 0..layout.patches() {
        let Some((first, last, count)) = parts.get(p) else {
            return Some(p);
        };
        if !goes(&layout.owned(p), *first, *last, *count) {
            return Some(p);
        }
    }
    if layout.patches() == parts.len() {
        None
    } else {
        Some(parts.len())
    }
}

// The first patch of a layout of one axis that owns other numbers than a table says, where its borders are these.
fn differs(
    layout: Result<Layout, AllocError>,
    parts: &[(i32, i32, u64)],
    borders: &[i32],
) -> Result<Option<usize>, AllocError> {
    let layout = layout?;
    if layout.physical().dims() != 1 || layout.borders(0) != borders {
        return Ok(Some(0));
    }
    Ok(other_parts(&layout, parts))
}

const BLOCKS: &[(i32, i32, u64)] = &[(0, 2, 3), (3, 5, 3), (6, 7, 2), (8, 9, 2)];

#[test]
fn blocks_that_do_not_divide_an_axis(rt: HostRuntime) {
    assert!(rt; differs(blocks(rt.alloc()), BLOCKS, &[3, 6, 8]) == Ok(None));
}

const PARTS: &[(i32, i32, u64)] = &[(0, 3, 4), (4, 6, 3), (7, 9, 3)];

#[test]
fn cuts_begin_their_parts(rt: HostRuntime) {
    assert!(rt; differs(cut(rt.alloc()), PARTS, &[4, 7]) == Ok(None));
}

// A square of four patches with guards of one cell inside and outside.
fn guarded(alloc: Global) -> Result<Layout, AllocError> {
    let axis = Axis { first: 0, last: 3 };
    let one = Cell::of2(1, 1);
    Layout::grid(alloc, BoxN::of2(axis, axis), &Cell::of2(2, 2), &one, &one)
}

// The patches, the cells of the domain, those with the outer guards, those of all patches with all guards, and these of a
// row in four blocks.
fn counts(alloc: Global) -> Result<[u64; 5], AllocError> {
    let layout = guarded(alloc)?;
    Ok([
        layout.patches() as u64,
        layout.physical().count(),
        layout.total().count(),
        layout.allocated_cells(),
        blocks(alloc)?.allocated_cells(),
    ])
}

#[test]
fn cells_of_a_layout_are_counted(rt: HostRuntime) {
    assert!(rt; counts(rt.alloc()) == Ok([4, 16, 36, 64, 10]));
}

// The patch that owns a cell, and whether the cell is in what it owns. None for another cell.
fn owner(layout: &Layout, c: &Cell) -> Option<(usize, bool)> {
    if !layout.total().contains(c) {
        return None;
    }
    let p = layout.owner(c);
    Some((p, layout.owned(p).contains(c)))
}

// The owners of a corner outside, of cells outside two sides, and of one inside.
fn owners(alloc: Global) -> Result<[Option<(usize, bool)>; 4], AllocError> {
    let layout = guarded(alloc)?;
    Ok([
        owner(&layout, &Cell::of2(-1, -1)),
        owner(&layout, &Cell::of2(4, 1)),
        owner(&layout, &Cell::of2(1, 4)),
        owner(&layout, &Cell::of2(2, 2)),
    ])
}

#[test]
fn cells_outside_belong_to_the_patches_beside_them(rt: HostRuntime) {
    let all = [
        Some((0, true)),
        Some((1, true)),
        Some((2, true)),
        Some((3, true)),
    ];
    assert!(rt; owners(rt.alloc()) == Ok(all));
}

// How many cells the second patch of the square has with its guards, whether its outer corners are among them, and how wide
// an inner guard is. None where there is none.
fn second(alloc: Global) -> Result<Option<(u64, [bool; 2], i32)>, AllocError> {
    let layout = guarded(alloc)?;
    if layout.patches() < 2 || layout.physical().dims() == 0 {
        return Ok(None);
    }
    let cells = layout.allocated(1);
    let corners = [
        cells.contains(&Cell::of2(1, -1)),
        cells.contains(&Cell::of2(4, 2)),
    ];
    Ok(Some((cells.count(), corners, layout.internal(0))))
}

#[test]
fn patches_have_guards_on_two_axes(rt: HostRuntime) {
    assert!(rt; second(rt.alloc()) == Ok(Some((16, [true, true], 1))));
}
