//! The pieces of statements, and what they ask for.

use crate::row::{Row, are_rows};
use crate::scene::first;
use pooma_machine::Mode::{Read, Write};
use std::alloc::Global;

// A script of one statement, and its pieces.
const PIECES: &[(&[u8], &[Row])] = &[
    (
        b"layout L (0:3) blocks (2) internal (1)\narray A on L\narray B on L\nB[0:2] = A[1:3]\n",
        &[
            ([0, 0, 0], [0, 0, 0], &[(0, Read), (2, Write)]),
            ([1, 0, 0], [1, 0, 0], &[(1, Read), (2, Write)]),
            ([2, 0, 0], [2, 0, 0], &[(1, Read), (3, Write)]),
        ],
    ),
    // A line turned around, whose blocks have 3, 3, 2 and 2 cells.
    (
        b"layout L (0:9) blocks (4)\narray A on L\narray B on L\nB = A[9:0:-1]\n",
        &[
            ([0, 0, 0], [1, 0, 0], &[(3, Read), (4, Write)]),
            ([2, 0, 0], [2, 0, 0], &[(2, Read), (4, Write)]),
            ([3, 0, 0], [3, 0, 0], &[(2, Read), (5, Write)]),
            ([4, 0, 0], [5, 0, 0], &[(1, Read), (5, Write)]),
            ([6, 0, 0], [6, 0, 0], &[(1, Read), (6, Write)]),
            ([7, 0, 0], [7, 0, 0], &[(0, Read), (6, Write)]),
            ([8, 0, 0], [9, 0, 0], &[(0, Read), (7, Write)]),
        ],
    ),
    // An object that is read and written is asked for once.
    (
        b"layout L (0:7) blocks (2)\narray A on L\nA[0:6:2] = A[1:7:2]\n",
        &[
            ([0, 0, 0], [1, 0, 0], &[(0, Write)]),
            ([2, 0, 0], [3, 0, 0], &[(1, Write)]),
        ],
    ),
    // Two views of one patch, and none of any.
    (
        b"layout L (0:3) blocks (2) external (1)\nfield U on L faces periodic, periodic\narray B on L\nB[0:1] = U[-1:0] + U[1:2]\n",
        &[
            ([0, 0, 0], [0, 0, 0], &[(0, Read), (2, Write)]),
            ([1, 0, 0], [1, 0, 0], &[(0, Read), (1, Read), (2, Write)]),
        ],
    ),
    (
        b"layout L (0:3) blocks (2)\narray A on L\nA = 7\n",
        &[
            ([0, 0, 0], [1, 0, 0], &[(0, Write)]),
            ([2, 0, 0], [3, 0, 0], &[(1, Write)]),
        ],
    ),
    // A reduction writes nothing; one without views has one piece that asks for nothing.
    (
        b"layout L (0:3) blocks (2)\narray A on L\narray B on L\nscalar s = sum(A[0:2] * B[1:3])\n",
        &[
            ([0, 0, 0], [0, 0, 0], &[(0, Read), (2, Read)]),
            ([1, 0, 0], [1, 0, 0], &[(0, Read), (3, Read)]),
            ([2, 0, 0], [2, 0, 0], &[(1, Read), (3, Read)]),
        ],
    ),
    (b"scalar s = 2 + 3\n", &[([0, 0, 0], [0, 0, 0], &[])]),
    // Parts of a square go by the first axis first; a row of it is a line.
    (
        b"layout L (0:3,0:3) blocks (2,2)\narray A on L\nA = 1\n",
        &[
            ([0, 0, 0], [1, 1, 0], &[(0, Write)]),
            ([2, 0, 0], [3, 1, 0], &[(1, Write)]),
            ([0, 2, 0], [1, 3, 0], &[(2, Write)]),
            ([2, 2, 0], [3, 3, 0], &[(3, Write)]),
        ],
    ),
    (
        b"layout L (0:3,0:3) blocks (2,2)\narray A on L\nbrick B (0:3)\nB = A[2,0:3]\n",
        &[
            ([0, 0, 0], [1, 0, 0], &[(1, Read), (4, Write)]),
            ([2, 0, 0], [3, 0, 0], &[(3, Read), (4, Write)]),
        ],
    ),
    (
        b"layout L (0:1,0:1,0:3) blocks (1,2,2)\narray A on L\nA[0,0:1,1:2] = 4\n",
        &[
            ([0, 0, 0], [0, 0, 0], &[(0, Write)]),
            ([1, 0, 0], [1, 0, 0], &[(1, Write)]),
            ([0, 1, 0], [0, 1, 0], &[(2, Write)]),
            ([1, 1, 0], [1, 1, 0], &[(3, Write)]),
        ],
    ),
    // A print has none.
    (b"brick A (0:3)\nprint A\n", &[]),
];

// Whether the statement of a script has these pieces.
fn has_pieces(alloc: Global, script: &[u8], rows: &[Row]) -> bool {
    match first(alloc, script) {
        Some((_, pieces)) => are_rows(&pieces, rows),
        None => false,
    }
}

// The first script whose statement has other pieces.
fn first_otherwise(alloc: Global) -> Option<usize> {
    for (k, (script, rows)) in PIECES.iter().enumerate() {
        if !has_pieces(alloc, script, rows) {
            return Some(k);
        }
    }
    None
}

#[test]
fn pieces_of_a_statement(rt: HostRuntime) {
    assert_eq!(rt; first_otherwise(rt.alloc()), None);
}
