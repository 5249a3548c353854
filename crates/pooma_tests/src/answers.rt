//! Scripts and words with the answers that the language gives them.
use crate::run::{first_wrong, run};
use pooma_top::Status;
use std::alloc::{AllocError, Global};

/// Scripts that run to their end, with what they print.
pub const PRINTED: &[(&[u8], &[u8])] = &[
    (b"brick A (0:3)\nA = 7\nprint A\n", b"7 7 7 7\n"),
    (b"brick A (-1:1)\nA = -5\nprint A # x\n", b"-5 -5 -5\n"),
    (b"brick A (0:1)\nprint A\n", b"0 0\n"),
    (
        b"layout L (0:7) blocks (2)\narray A on L\nA = index(0)\nA[0:6:2] = A[1:7:2]\nprint A\n",
        b"1 1 3 3 5 5 7 7\n",
    ),
    (b"scalar a = where(0, 1 / 0, 5)\nprint a\n", b"5\n"),
    (
        b"layout L (0:2) blocks (3)\narray A on L\nA[0] = 9223372036854775807\nA[1] = 9223372036854775807\nA[2] = -9223372036854775807\nscalar s = sum(A)\nprint s\n",
        b"9223372036854775807\n",
    ),
    (
        b"layout L (0:7) blocks (2) internal (1) external (1)\nfield U on L faces constant 0, constant 0\narray V on L\nU = index(0)\nrepeat 2\nV = (U[-1:6] + U[1:8]) / 2\nU = V\nend\nprint U\n",
        b"0 1 2 3 4 5 4 3\n",
    ),
    (
        b"layout L (0:1,0:1) blocks (2,1) external (1,1)\nfield U on L faces constant 5, periodic, antireflect, antireflect\nU = 1 + index(0) + 2 * index(1)\nU[0,0] = -9223372036854775807 - 1\nprint U[-1:2,-1:2]\n",
        b"-5 9223372036854775807 -2 9223372036854775807\n5 -9223372036854775808 2 -9223372036854775808\n5 3 4 3\n-5 -3 -4 -3\n",
    ),
    (
        b"brick A (0:7,0:7)\nA = index(0) + 10 * index(1)\nA[3,0:7] = A[0:7,3]\nprint A[3,0:7]\n",
        b"30 31 32 33 34 35 36 37\n",
    ),
    (
        b"layout L (0:9) blocks (4)\narray A on L\narray B on L\nA = index(0) * index(0)\nB = A[9:0:-1]\nprint B\n",
        b"81 64 49 36 25 16 9 4 1 0\n",
    ),
    (
        b"layout L (0:3,0:3) blocks (2,2) internal (1,1) external (1,1)\nfield U on L faces constant 0, constant 0, constant 0, constant 0\narray V on L\nstencil lap lower (1,1) upper (1,1) = @(-1,0) + @(1,0) + @(0,-1) + @(0,1) - 4 * @(0,0)\nU[1,1] = 1\nV = lap(U[-1:4,-1:4])\nprint V\n",
        b"0 1 0 0\n1 -4 1 0\n0 1 0 0\n0 0 0 0\n",
    ),
    (
        b"layout L (0:3) blocks (2) internal (1) external (1)\nfield U on L faces reflect, reflect\nU = index(0) + 1\nU[0:3:3] = U[0:3:3] + U[-1:4:5]\nprint U[-1:4]\n",
        b"2 2 2 3 8 8\n",
    ),
    (
        b"layout L (0:2) blocks (1) external (2)\nfield U on L faces extrapolate, extrapolate\nU = index(0) * index(0)\nprint U[-2:4]\n",
        b"-2 -1 0 1 4 7 10\n",
    ),
    (
        b"brick A (0:1,0:1,0:1)\nA = index(0) + 10 * index(1) + 100 * index(2)\nprint A\n",
        b"0 1\n10 11\n100 101\n110 111\n",
    ),
    (
        b"brick A (0:5)\nA = index(0) - 2\nscalar c = count(A > 0)\nprint c\nscalar m = min(A)\nprint m\nscalar b = bitor(A)\nprint b\nprint A[5:0:-2]\n",
        b"3\n-2\n-1\n3 1 -1\n",
    ),
    (
        b"brick A (0:0)\nbrick B (0:1)\nB=9223372036854775807\nA=-9223372036854775807\nprint A\nprint B\n",
        b"-9223372036854775807\n9223372036854775807 9223372036854775807\n",
    ),
    (
        b"brick A (-1000000:-1000000)\nA = 007\nprint A\nA = 0\nprint A\n",
        b"7\n0\n",
    ),
    (
        b"brick A (0:3)\nA = 1\nA += index(0)\nprint A\nA *= A\nprint A\nA -= 3\nprint A\n",
        b"1 2 3 4\n1 4 9 16\n-2 1 6 13\n",
    ),
    (
        b"brick A (0:9)\nA = index(0)\nscalar s = sum(A)\nscalar l = min(A)\nscalar m = max(A)\nscalar n = all(A)\nscalar y = any(A)\nscalar c = count(A)\nscalar b = bitand(A + 8)\nscalar r = bitor(A)\nprint s\nprint l\nprint m\nprint n\nprint y\nprint c\nprint b\nprint r\n",
        b"45\n0\n9\n0\n1\n9\n0\n15\n",
    ),
    (
        b"scalar s = 3\nscalar s = s * s - 7 % 4\nprint s\nscalar t = min(s, 2) | max(s, 9) & -8\nprint t\nscalar u = abs(-s) < s + 1\nprint u\n",
        b"6\n10\n1\n",
    ),
    (
        b"scalar a = (2 <= 2) + (2 >= 3) * 10 + (2 == 2) * 100 + (2 != 2) * 1000 + (2 > 1) * 10000\nprint a\nscalar b = -7 / 2\nprint b\nscalar c = -7 % 2\nprint c\n",
        b"10101\n-3\n-1\n",
    ),
    (
        b"layout L (0:9) cuts ((4,7)) internal (1)\narray A on L\nA = index(0)\nblock\nscalar s = sum(A[2:8:3])\nprint s\nprint A[8:2:-3]\n",
        b"15\n8 5 2\n",
    ),
    (
        b"layout L (0:3,0:1) cuts ((2),()) external (1,0)\narray A on L\nA[-1:4,0:1] = index(0) + 10 * index(1)\nprint A[-1:4,0:1]\nprint A\nprint A[4,0:1]\n",
        b"0 1 2 3 4 5\n10 11 12 13 14 15\n1 2 3 4\n11 12 13 14\n5 15\n",
    ),
    (
        b"brick A (0:2)\nrepeat 2\nA += 1\nrepeat 3\nA = A * 2\nend\nend\nprint A\n",
        b"72 72 72\n",
    ),
    (b"repeat 2\nend\nrepeat 1\nrepeat 2\nblock\nend\nend\n", b""),
    (b"", b""),
    (b"brick A (0:3)\r\nA = 7\r\nprint A\r\n", b"7 7 7 7\n"),
    (b"brick A (0:1)\nprint A", b"0 0\n"),
    (b"\n  \t# all blank\n\n", b""),
    (b"# only \x00\x01\xff bytes\n", b""),
];

/// Scripts of which a statement faults, with what they print and the fault.
pub const FAULTED: &[(&[u8], &[u8])] = &[
    (
        b"layout L (0:5) blocks (2)\narray A on L\narray B on L\nA = 9223372036854775807\nA[2] = 0\nB = A + 1\nprint B\n",
        b"fault line 6 at (0): overflow\n",
    ),
    (
        b"scalar a = (-9223372036854775807 - 1) / -1\n",
        b"fault line 1 at (): overflow\n",
    ),
    (b"scalar a = 5 % 0\n", b"fault line 1 at (): zero divisor\n"),
    (
        b"layout L (0:2) blocks (3)\narray A on L\nA[0] = 9223372036854775807\nA[1] = 1\nA[2] = 0\nscalar s = sum(A)\nprint s\n",
        b"fault line 6 at sum: overflow\n",
    ),
    (
        b"layout L (0:7) blocks (4)\narray A on L\nA = index(0)\nprint A\nA = A / (A - 2)\nA = 9223372036854775807 + A\nprint A\n",
        b"0 1 2 3 4 5 6 7\nfault line 5 at (2): zero divisor\n",
    ),
    (
        b"brick A (0:4,0:2)\nA = index(0) - 2 * index(1)\nprint A\nA = 100 / A\n",
        b"0 1 2 3 4\n-2 -1 0 1 2\n-4 -3 -2 -1 0\nfault line 4 at (0,0): zero divisor\n",
    ),
    (
        b"brick A (0:1)\nrepeat 3\nA += 1\nprint A\nA = A / (A - 3) * 0 + A\nend\n",
        b"1 1\n2 2\n3 3\nfault line 5 at (0): zero divisor\n",
    ),
    (
        b"scalar a = abs(-9223372036854775807 - 1)\n",
        b"fault line 1 at (): overflow\n",
    ),
    (
        b"scalar a = -(-9223372036854775807 - 1)\n",
        b"fault line 1 at (): overflow\n",
    ),
    (
        b"brick A (0:3)\nA = where(index(0) == 2, 1 / 0, 9223372036854775807 + A)\nscalar m = max(A * 9223372036854775807 * 2)\n",
        b"fault line 2 at (2): zero divisor\n",
    ),
    (
        b"brick A (0:1,0:1,0:1)\nA[1,1,1] = 1\nA = 1 / (A - 1)\n",
        b"fault line 3 at (1,1,1): zero divisor\n",
    ),
    (
        b"scalar a = 9223372036854775807 * 2 + 1 / 0\n",
        b"fault line 1 at (): overflow\n",
    ),
    (
        b"scalar a = 1 / 0 + 9223372036854775807 * 2\n",
        b"fault line 1 at (): zero divisor\n",
    ),
];

#[test]
fn scripts_print_what_the_language_says(rt: HostRuntime) {
    let wrong = first_wrong(rt.alloc(), &["run", "1"], PRINTED, Status::Done);
    assert!(rt; wrong == Ok(None), "{wrong:?}");
}

#[test]
fn faults_are_the_last_line(rt: HostRuntime) {
    let wrong = first_wrong(rt.alloc(), &["run", "1"], FAULTED, Status::Faulted);
    assert!(rt; wrong == Ok(None), "{wrong:?}");
}

// What `check` answers to a script that is none it refuses is that it is one, also where a statement of it faults or goes on for long.
const ACCEPTED: &[(&[u8], &[u8])] = &[
    (b"", b"ok\n"),
    (b"brick A (0:3)\nA = 7\nprint A\n", b"ok\n"),
    (b"scalar a = 5 % 0\nprint a\n", b"ok\n"),
    (b"brick A (0:0)\nrepeat 1048576\nA = 1\nend\n", b"ok\n"),
    (b"brick A (0:2047,0:2047)\nprint A\n", b"ok\n"),
];

#[test]
fn check_runs_nothing(rt: HostRuntime) {
    let wrong = first_wrong(rt.alloc(), &["check"], ACCEPTED, Status::Done);
    assert!(rt; wrong == Ok(None), "{wrong:?}");
}

// Words that are of no command.
const OTHERS: &[&[&str]] = &[
    &["run", "0"],
    &["run", "2"],
    &["run", "65"],
    &["run", "01"],
    &["run", "+1"],
    &["run"],
    &[],
    &["make", "1", "0"],
    &["make", "1", "9001"],
    &["make", "2147483648", "1"],
    &["make", "4294967297", "1"],
    &["make", "01", "1"],
    &["make", "1", "01"],
    &["make", "+1", "1"],
    &["make", "-1", "1"],
    &["make", "0x1", "1"],
    &["make", "", "1"],
    &["make", "1 ", "1"],
    &["make", "1"],
    &["make"],
    &["make", "1", "1", "1"],
    &["Make", "1", "1"],
    &["demo", "1", "2"],
    &["demo", "1", "2", "0"],
    &["demo", "1", "2", "2"],
    &["demo", "1", "2", "65"],
    &["demo", "1", "2", "01"],
    &["demo", "1", "0", "1"],
    &["demo", "1", "9001", "1"],
    &["demo", "1", "2", "1", "1"],
    &["demo"],
    &["check", "check"],
    &["check", "1"],
    &["checks"],
    &["Check"],
    &["run", "1", ""],
    &["run", "1 "],
    &["Run", "1"],
    &["", "run", "1"],
    &["run1"],
];

// The place of the first list of words that is not answered by usage, with nothing written.
fn first_command(alloc: Global) -> Result<Option<usize>, AllocError> {
    for (place, words) in OTHERS.iter().enumerate() {
        let ended = run(alloc, words, b"brick A (0:3)\nprint A\n")?;
        if ended.status != Status::Usage || !ended.text.is_empty() {
            return Ok(Some(place));
        }
    }
    Ok(None)
}

#[test]
fn other_words_are_usage(rt: HostRuntime) {
    let wrong = first_command(rt.alloc());
    assert!(rt; wrong == Ok(None), "{wrong:?}");
}

#[test]
fn statuses_have_their_numbers(rt: HostRuntime) {
    let rows = [
        (Status::Done, 0),
        (Status::Usage, 1),
        (Status::Refused, 2),
        (Status::Faulted, 3),
        (Status::ReadFault, 4),
        (Status::WriteFault, 5),
        (Status::OutOfMemory, 6),
    ];
    for (status, number) in rows {
        assert_eq!(rt; status.number(), number);
    }
}
