//! Fills: which ones a statement needs, what they ask for, and the numbers that they give to cells beside the physical domain.

use crate::row::{Row, are_rows};
use crate::scene::{first, run};
use pooma_machine::Mode::{Read, Write};
use std::alloc::Global;

// A script, how many fills each of its statements needs, and the numbers that it prints.
const RUNS: &[(&[u8], &[usize], &[i64])] = &[
    // A field is stale at the start, fresh once it was filled, and stale after a write to it.
    (
        b"layout L (0:7) blocks (2) external (1)\nfield U on L faces constant 0, constant 0\nprint U[-1:8]\nprint U[-1:8]\nU = index(0)\nprint U[-1:8]\n",
        &[2, 0, 0, 2],
        &[
            0, 0, 0, 0, 0, 0, 0, 0, 0, 0, 0, 0, 0, 0, 0, 0, 0, 0, 0, 0, 0, 0, 1, 2, 3, 4, 5, 6, 7,
            0,
        ],
    ),
    // What is read inside alone needs no fill, and a write to another array leaves a field fresh.
    (
        b"layout L (0:3) blocks (2) external (1)\nfield U on L faces periodic, periodic\nfield W on L faces reflect, reflect\nU = index(0) + 1\nprint U\nW = U[-1:2]\nprint U[-1:4]\nprint W[-1:4]\n",
        &[0, 0, 2, 0, 2],
        &[1, 2, 3, 4, 4, 1, 2, 3, 4, 1, 4, 4, 1, 2, 3, 3],
    ),
    (
        b"layout L (0:7) blocks (2) internal (1) external (1)\nfield U on L faces constant 0, constant 0\narray V on L\nU = index(0)\nrepeat 2\nV = (U[-1:6] + U[1:8]) / 2\nU = V\nend\nprint U\n",
        &[0, 2, 0, 2, 0, 0],
        &[0, 1, 2, 3, 4, 5, 4, 3],
    ),
    // The cells outside are filled from the old numbers.
    (
        b"layout L (0:3) blocks (2) internal (1) external (1)\nfield U on L faces reflect, reflect\nU = index(0) + 1\nU[0:3:3] = U[0:3:3] + U[-1:4:5]\nprint U[-1:4]\n",
        &[0, 2, 2],
        &[2, 2, 2, 3, 8, 8],
    ),
    // A corner goes by the greatest axis, from cells that the lower axis filled.
    (
        b"layout L (0:1,0:1) blocks (2,1) external (1,1)\nfield U on L faces constant 5, periodic, antireflect, antireflect\nU = 1 + index(0) + 2 * index(1)\nU[0,0] = -9223372036854775807 - 1\nprint U[-1:2,-1:2]\n",
        &[0, 0, 6],
        &[
            -5,
            i64::MAX,
            -2,
            i64::MAX,
            5,
            i64::MIN,
            2,
            i64::MIN,
            5,
            3,
            4,
            3,
            -5,
            -3,
            -4,
            -3,
        ],
    ),
    // Two cells on either side of a row, by each updater, on two patches and on four.
    (
        b"layout L (0:3) blocks (2) external (2)\nfield U on L faces constant 7, constant 8\nU = (index(0) + 1) * (index(0) + 1)\nprint U[-2:5]\n",
        &[0, 2],
        &[7, 7, 1, 4, 9, 16, 8, 8],
    ),
    (
        b"layout L (0:3) blocks (4) external (2)\nfield U on L faces periodic, periodic\nU = (index(0) + 1) * (index(0) + 1)\nprint U[-2:5]\n",
        &[0, 4],
        &[9, 16, 1, 4, 9, 16, 1, 4],
    ),
    (
        b"layout L (0:3) blocks (4) external (2)\nfield U on L faces reflect, reflect\nU = (index(0) + 1) * (index(0) + 1)\nprint U[-2:5]\n",
        &[0, 4],
        &[4, 1, 1, 4, 9, 16, 16, 9],
    ),
    (
        b"layout L (0:3) blocks (2) external (2)\nfield U on L faces antireflect, antireflect\nU = (index(0) + 1) * (index(0) + 1)\nprint U[-2:5]\n",
        &[0, 2],
        &[-4, -1, 1, 4, 9, 16, -16, -9],
    ),
    (
        b"layout L (0:3) blocks (4) external (2)\nfield U on L faces extrapolate, extrapolate\nU = (index(0) + 1) * (index(0) + 1)\nprint U[-2:5]\n",
        &[0, 2],
        &[-5, -2, 1, 4, 9, 16, 23, 30],
    ),
    (
        b"layout L (0:2) blocks (1) external (2)\nfield U on L faces extrapolate, extrapolate\nU = index(0) * index(0)\nprint U[-2:4]\n",
        &[0, 2],
        &[-2, -1, 0, 1, 4, 7, 10],
    ),
    // Squares with faces of all kinds.
    (
        b"layout L (0:1,0:1) blocks (2,2) external (1,1)\nfield U on L faces constant 5, periodic, extrapolate, reflect\nU = 1 + index(0) + 10 * index(1)\nprint U[-1:2,-1:2]\n",
        &[0, 8],
        &[5, -9, -8, -9, 5, 1, 2, 1, 5, 11, 12, 11, 5, 11, 12, 11],
    ),
    (
        b"layout L (0:2,0:2) blocks (1,1) external (1,1)\nfield U on L faces antireflect, antireflect, antireflect, antireflect\nU = 1 + index(0) * index(0) + 10 * index(1)\nprint U[-1:3,-1:3]\n",
        &[0, 4],
        &[
            1, -1, -2, -5, 5, -1, 1, 2, 5, -5, -11, 11, 12, 15, -15, -21, 21, 22, 25, -25, 21, -21,
            -22, -25, 25,
        ],
    ),
    (
        b"layout L (0:2,0:2) blocks (1,1) external (1,1)\nfield U on L faces extrapolate, extrapolate, extrapolate, extrapolate\nU = 1 + index(0) * index(0) + 10 * index(1)\nprint U[-1:3,-1:3]\n",
        &[0, 4],
        &[
            -10, -9, -8, -5, -2, 0, 1, 2, 5, 8, 10, 11, 12, 15, 18, 20, 21, 22, 25, 28, 30, 31, 32,
            35, 38,
        ],
    ),
    // Cubes: the lower face of the second axis, and all cells where the faces are of all kinds.
    (
        b"layout L (0:1,0:1,0:1) blocks (2,1,2) external (1,1,1)\nfield U on L faces periodic, periodic, periodic, periodic, periodic, periodic\nU = 1 + index(0) + 10 * index(1) + 100 * index(2)\nprint U[-1:2,-1,-1:2]\n",
        &[0, 16],
        &[
            112, 111, 112, 111, 12, 11, 12, 11, 112, 111, 112, 111, 12, 11, 12, 11,
        ],
    ),
    (
        b"layout L (0:1,0:1,0:1) blocks (1,2,1) external (1,1,1)\nfield U on L faces extrapolate, extrapolate, extrapolate, extrapolate, extrapolate, extrapolate\nU = 1 + index(0) + 10 * index(1) + 100 * index(2)\nprint U[-1:2,-1,-1:2]\n",
        &[0, 10],
        &[
            -110, -109, -108, -107, -10, -9, -8, -7, 90, 91, 92, 93, 190, 191, 192, 193,
        ],
    ),
    (
        b"layout L (0:1,0:1,0:1) blocks (2,1,2) external (1,1,1)\nfield U on L faces constant 5, periodic, reflect, antireflect, extrapolate, periodic\nU = 1 + index(0) + 10 * index(1) + 100 * index(2)\nprint U[-1:2,-1:2,-1:2]\n",
        &[0, 16],
        &[
            5, -99, -98, -99, 5, -99, -98, -99, 5, -89, -88, -89, -5, 89, 88, 89, 5, 1, 2, 1, 5, 1,
            2, 1, 5, 11, 12, 11, -5, -11, -12, -11, 5, 101, 102, 101, 5, 101, 102, 101, 5, 111,
            112, 111, -5, -111, -112, -111, 5, 1, 2, 1, 5, 1, 2, 1, 5, 11, 12, 11, -5, -11, -12,
            -11,
        ],
    ),
];

// Whether a script comes to these.
fn comes_to(alloc: Global, script: &[u8], fills: &[usize], numbers: &[i64]) -> bool {
    match run(alloc, script) {
        Some((counts, printed)) => counts.as_slice() == fills && printed.as_slice() == numbers,
        None => false,
    }
}

// The first script that comes to something else.
fn first_run_otherwise(alloc: Global) -> Option<usize> {
    for (k, (script, fills, numbers)) in RUNS.iter().enumerate() {
        if !comes_to(alloc, script, fills, numbers) {
            return Some(k);
        }
    }
    None
}

#[test]
fn cells_beside_a_field_are_filled_before_they_are_read(rt: HostRuntime) {
    assert_eq!(rt; first_run_otherwise(rt.alloc()), None);
}

// A script of one statement, and its fills.
const FILLS: &[(&[u8], &[Row])] = &[
    (
        b"layout L (0:7) blocks (2) internal (1) external (1)\nfield U on L faces constant 0, constant 0\narray V on L\nprint U[-1:8]\n",
        &[
            ([-1, 0, 0], [-1, 0, 0], &[(0, Write)]),
            ([8, 0, 0], [8, 0, 0], &[(1, Write)]),
        ],
    ),
    // One of the cells outside is enough; of another array none is.
    (
        b"layout L (0:3) blocks (2) external (2)\nfield U on L faces periodic, periodic\nfield W on L faces periodic, periodic\nprint W[4]\n",
        &[
            ([-2, 0, 0], [-1, 0, 0], &[(2, Write), (3, Read)]),
            ([4, 0, 0], [5, 0, 0], &[(2, Read), (3, Write)]),
        ],
    ),
    (
        b"layout L (0:3) blocks (2) external (1)\nfield U on L faces reflect, reflect\nprint U\n",
        &[],
    ),
    // Two cells on either side of a row of four patches.
    (
        b"layout L (0:3) blocks (4) external (2)\nfield U on L faces periodic, periodic\nprint U[-1]\n",
        &[
            ([-2, 0, 0], [-2, 0, 0], &[(0, Write), (2, Read)]),
            ([-1, 0, 0], [-1, 0, 0], &[(0, Write), (3, Read)]),
            ([4, 0, 0], [4, 0, 0], &[(0, Read), (3, Write)]),
            ([5, 0, 0], [5, 0, 0], &[(1, Read), (3, Write)]),
        ],
    ),
    (
        b"layout L (0:3) blocks (4) external (2)\nfield U on L faces reflect, antireflect\nprint U[-1]\n",
        &[
            ([-1, 0, 0], [-1, 0, 0], &[(0, Write)]),
            ([-2, 0, 0], [-2, 0, 0], &[(0, Write), (1, Read)]),
            ([5, 0, 0], [5, 0, 0], &[(2, Read), (3, Write)]),
            ([4, 0, 0], [4, 0, 0], &[(3, Write)]),
        ],
    ),
    (
        b"layout L (0:3) blocks (4) external (2)\nfield U on L faces extrapolate, constant 1\nprint U[-1]\n",
        &[
            ([-2, 0, 0], [-1, 0, 0], &[(0, Write), (1, Read)]),
            ([4, 0, 0], [5, 0, 0], &[(3, Write)]),
        ],
    ),
    (
        b"layout L (0:3) blocks (4) external (2)\nfield U on L faces constant 1, extrapolate\nprint U[5]\n",
        &[
            ([-2, 0, 0], [-1, 0, 0], &[(0, Write)]),
            ([4, 0, 0], [5, 0, 0], &[(2, Read), (3, Write)]),
        ],
    ),
    // A row of one cell has no other inside.
    (
        b"layout L (0:0) blocks (1) external (1)\nfield U on L faces extrapolate, extrapolate\nprint U[1]\n",
        &[
            ([-1, 0, 0], [-1, 0, 0], &[(0, Write)]),
            ([1, 0, 0], [1, 0, 0], &[(0, Write)]),
        ],
    ),
    // A square of two patches beside each other.
    (
        b"layout L (0:1,0:1) blocks (2,1) external (1,1)\nfield U on L faces constant 5, periodic, antireflect, antireflect\nprint U[-1:2,-1:2]\n",
        &[
            ([-1, 0, 0], [-1, 1, 0], &[(0, Write)]),
            ([2, 0, 0], [2, 1, 0], &[(0, Read), (1, Write)]),
            ([-1, -1, 0], [0, -1, 0], &[(0, Write)]),
            ([1, -1, 0], [2, -1, 0], &[(1, Write)]),
            ([-1, 2, 0], [0, 2, 0], &[(0, Write)]),
            ([1, 2, 0], [2, 2, 0], &[(1, Write)]),
        ],
    ),
    // A square of two patches by four, whose second axis has one cell a patch.
    (
        b"layout L (0:3,0:3) blocks (2,4) external (1,2)\nfield U on L faces reflect, extrapolate, extrapolate, reflect\nprint U[-1,0]\n",
        &[
            ([-1, 0, 0], [-1, 0, 0], &[(0, Write)]),
            ([-1, 1, 0], [-1, 1, 0], &[(2, Write)]),
            ([-1, 2, 0], [-1, 2, 0], &[(4, Write)]),
            ([-1, 3, 0], [-1, 3, 0], &[(6, Write)]),
            ([4, 0, 0], [4, 0, 0], &[(1, Write)]),
            ([4, 1, 0], [4, 1, 0], &[(3, Write)]),
            ([4, 2, 0], [4, 2, 0], &[(5, Write)]),
            ([4, 3, 0], [4, 3, 0], &[(7, Write)]),
            ([-1, -2, 0], [1, -1, 0], &[(0, Write), (2, Read)]),
            ([2, -2, 0], [4, -1, 0], &[(1, Write), (3, Read)]),
            ([-1, 5, 0], [1, 5, 0], &[(4, Read), (6, Write)]),
            ([-1, 4, 0], [1, 4, 0], &[(6, Write)]),
            ([2, 5, 0], [4, 5, 0], &[(5, Read), (7, Write)]),
            ([2, 4, 0], [4, 4, 0], &[(7, Write)]),
        ],
    ),
    // A cube of two patches, one behind the other on the last axis.
    (
        b"layout L (0:1,0:1,0:1) blocks (1,1,2) external (1,1,1)\nfield U on L faces constant 5, periodic, reflect, antireflect, extrapolate, periodic\nprint U[0,0,-1]\n",
        &[
            ([-1, 0, 0], [-1, 1, 0], &[(0, Write)]),
            ([-1, 0, 1], [-1, 1, 1], &[(1, Write)]),
            ([2, 0, 0], [2, 1, 0], &[(0, Write)]),
            ([2, 0, 1], [2, 1, 1], &[(1, Write)]),
            ([-1, -1, 0], [2, -1, 0], &[(0, Write)]),
            ([-1, -1, 1], [2, -1, 1], &[(1, Write)]),
            ([-1, 2, 0], [2, 2, 0], &[(0, Write)]),
            ([-1, 2, 1], [2, 2, 1], &[(1, Write)]),
            ([-1, -1, -1], [2, 2, -1], &[(0, Write), (1, Read)]),
            ([-1, -1, 2], [2, 2, 2], &[(0, Read), (1, Write)]),
        ],
    ),
    // A cube of four patches, two by one by two.
    (
        b"layout L (0:1,0:1,0:1) blocks (2,1,2) external (2,1,2)\nfield U on L faces extrapolate, reflect, reflect, extrapolate, antireflect, reflect\nprint U[0,2,0]\n",
        &[
            ([-2, 0, 0], [-1, 1, 0], &[(0, Write), (1, Read)]),
            ([-2, 0, 1], [-1, 1, 1], &[(2, Write), (3, Read)]),
            ([3, 0, 0], [3, 1, 0], &[(0, Read), (1, Write)]),
            ([2, 0, 0], [2, 1, 0], &[(1, Write)]),
            ([3, 0, 1], [3, 1, 1], &[(2, Read), (3, Write)]),
            ([2, 0, 1], [2, 1, 1], &[(3, Write)]),
            ([-2, -1, 0], [0, -1, 0], &[(0, Write)]),
            ([1, -1, 0], [3, -1, 0], &[(1, Write)]),
            ([-2, -1, 1], [0, -1, 1], &[(2, Write)]),
            ([1, -1, 1], [3, -1, 1], &[(3, Write)]),
            ([-2, 2, 0], [0, 2, 0], &[(0, Write)]),
            ([1, 2, 0], [3, 2, 0], &[(1, Write)]),
            ([-2, 2, 1], [0, 2, 1], &[(2, Write)]),
            ([1, 2, 1], [3, 2, 1], &[(3, Write)]),
            ([-2, -1, -1], [0, 2, -1], &[(0, Write)]),
            ([-2, -1, -2], [0, 2, -2], &[(0, Write), (2, Read)]),
            ([1, -1, -1], [3, 2, -1], &[(1, Write)]),
            ([1, -1, -2], [3, 2, -2], &[(1, Write), (3, Read)]),
            ([-2, -1, 3], [0, 2, 3], &[(0, Read), (2, Write)]),
            ([-2, -1, 2], [0, 2, 2], &[(2, Write)]),
            ([1, -1, 3], [3, 2, 3], &[(1, Read), (3, Write)]),
            ([1, -1, 2], [3, 2, 2], &[(3, Write)]),
        ],
    ),
];

// Whether the statement of a script needs these fills.
fn has_fills(alloc: Global, script: &[u8], rows: &[Row]) -> bool {
    match first(alloc, script) {
        Some((fills, _)) => are_rows(&fills, rows),
        None => false,
    }
}

// The first script whose statement needs other fills.
fn first_filled_otherwise(alloc: Global) -> Option<usize> {
    for (k, (script, rows)) in FILLS.iter().enumerate() {
        if !has_fills(alloc, script, rows) {
            return Some(k);
        }
    }
    None
}

#[test]
fn fills_of_a_statement(rt: HostRuntime) {
    assert_eq!(rt; first_filled_otherwise(rt.alloc()), None);
}
