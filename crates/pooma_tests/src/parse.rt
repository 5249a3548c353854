//! Lines with the forms that the language gives them, and lines that it refuses.
use crate::shown::shown;
use pooma_parse::{LineError, parse_line};
use std::alloc::{AllocError, Global};

fn repeated(
    alloc: Global,
    head: &[u8],
    open: &[u8],
    inside: &[u8],
    close: &[u8],
    turns: usize,
) -> Result<Vec<u8>, AllocError> {
    let mut line = Vec::from_slice(alloc, head)?;
    for _ in 0..turns {
        line.extend_from_slice(open)?;
    }
    line.extend_from_slice(inside)?;
    for _ in 0..turns {
        line.extend_from_slice(close)?;
    }
    Ok(line)
}

/// Lines with their forms, `blank` or `syntax`.
const FORMS: &[(&[u8], &[u8])] = &[
    (b"", b"blank"),
    (b" \t\r # A = 1", b"blank"),
    (
        b"layout L (0:3) blocks (2)",
        b"layout L 0:3 blocks 2 in out",
    ),
    (b"layout L (-1:3,00:+1) blocks (2)", b"syntax"),
    (
        b"layout L (-1:3,00:1) blocks (2,1) internal (1,0) external (8,8)",
        b"layout L -1:3 0:1 blocks 2 1 in 1 0 out 8 8",
    ),
    (
        b"layout L (0:3) blocks (2) external (1)",
        b"layout L 0:3 blocks 2 in out 1",
    ),
    (
        b"layout L (0:3) blocks (2) external (1) internal (1)",
        b"syntax",
    ),
    (
        b"layout L (0:9) cuts ((4,7))",
        b"layout L 0:9 cuts ( 4 7 ) in out",
    ),
    (
        b"layout L (0:9,0:9) cuts ((),(-3)) internal (1)",
        b"layout L 0:9 0:9 cuts ( ) ( -3 ) in 1 out",
    ),
    (b"layout L (0:9) cuts ()", b"syntax"),
    (b"layout L (0:9) blocks ()", b"syntax"),
    (b"layout L (0:9) blocks (-1)", b"syntax"),
    (b"brick A (0:3)", b"brick A 0:3"),
    (b"brick A ()", b"syntax"),
    (b"array A on L", b"array A on L"),
    (
        b"field U on L faces periodic, reflect",
        b"field U on L faces periodic reflect",
    ),
    (
        b"field U on L faces constant -5, constant 5, antireflect, extrapolate",
        b"field U on L faces -5 5 antireflect extrapolate",
    ),
    (b"field U on L faces", b"syntax"),
    (
        b"stencil S lower (1) upper (0) = @(0) - @(-1)",
        b"stencil S lower 1 upper 0 = (- @( 0 ) @( -1 ))",
    ),
    (b"stencil S lower (1) upper (0) = A", b"syntax"),
    (b"stencil S lower (1) upper (0) = index(0)", b"syntax"),
    (
        b"stencil S lower (1) upper (0) = where(@(0),1,abs(@(1,2)))",
        b"stencil S lower 1 upper 0 = (where @( 0 ) 1 (abs @( 1 2 )))",
    ),
    (b"A = @(0)", b"syntax"),
    (b"A = 1", b"A = 1"),
    (b"A += 1", b"A += 1"),
    (b"A -= B", b"A -= B"),
    (b"A *= B", b"A *= B"),
    (b"A /= B", b"syntax"),
    (b"A[1,0:3,9:1:-2] = B[-1]", b"A[ 1 0:3:1 9:1:-2 ] = B[ -1 ]"),
    (b"A[] = 1", b"syntax"),
    (b"A[1][2] = 1", b"syntax"),
    (b"A[1:2:3:4] = 1", b"syntax"),
    (b"A = 1 - 2 - 3", b"A = (- (- 1 2) 3)"),
    (b"A = 1 / 2 * 3 % 4", b"A = (% (* (/ 1 2) 3) 4)"),
    (
        b"A = 1 + 2 * 3 < 4 & 5 | 6 & 7",
        b"A = (| (& (< (+ 1 (* 2 3)) 4) 5) (& 6 7))",
    ),
    (b"A = 1 | 2 & 3 | 4", b"A = (| (| 1 (& 2 3)) 4)"),
    (b"A = 1 < 2 < 3", b"syntax"),
    (b"A = 1 < (2 < 3)", b"A = (< 1 (< 2 3))"),
    (
        b"A = (1 <= 2) | (3 >= 4) | (5 == 6) | (7 != 8) | (9 > 0)",
        b"A = (| (| (| (| (<= 1 2) (>= 3 4)) (== 5 6)) (!= 7 8)) (> 9 0))",
    ),
    (b"A = -1 * 2", b"A = (* (neg 1) 2)"),
    (b"A = - - B", b"A = (neg (neg B))"),
    (b"A = 2 * -B", b"A = (* 2 (neg B))"),
    (b"A = ((1))", b"A = 1"),
    (b"A = (1 + 2) * 3", b"A = (* (+ 1 2) 3)"),
    (
        b"A = min(1,2) + max(B,C[0])",
        b"A = (+ (min 1 2) (max B C[ 0 ]))",
    ),
    (b"A = where(B,1,index(2))", b"A = (where B 1 index 2)"),
    (b"A = index(-1)", b"syntax"),
    (b"A = S(B[0:3])", b"A = S( B[ 0:3:1 ])"),
    (b"A = S(1)", b"syntax"),
    (b"A = S(B)(C)", b"syntax"),
    (b"A = 1 2", b"syntax"),
    (b"scalar s = 1 + t", b"scalar s = (+ 1 t)"),
    (b"scalar s = sum(A)", b"scalar s = sum of A"),
    (b"scalar s = sum(A) + 1", b"syntax"),
    (b"scalar s = bitor(A & 1)", b"scalar s = bitor of (& A 1)"),
    (b"A = min(1)", b"syntax"),
    (b"A = min(1,2,3)", b"syntax"),
    (b"A = 1 + max(2)", b"syntax"),
    (b"stencil S lower (1) upper (0) = min(@(0))", b"syntax"),
    (b"scalar s = min(A)", b"scalar s = min of A"),
    (b"scalar s = max(A,1)", b"scalar s = (max A 1)"),
    (b"scalar s = min(A,1,2)", b"syntax"),
    (b"scalar s = min(A) + 1", b"syntax"),
    (b"scalar s = 1 + max(A)", b"syntax"),
    (b"scalar s = min(A,1) + 1", b"scalar s = (+ (min A 1) 1)"),
    (b"scalar s = max(min(A))", b"syntax"),
    (b"scalar s = max(min(A,1))", b"scalar s = max of (min A 1)"),
    (b"print A", b"print A"),
    (b"print A[0,1]", b"print A[ 0 1 ]"),
    (b"print A + 1", b"syntax"),
    (b"block", b"block"),
    (b"repeat 10", b"repeat 10"),
    (b"end", b"end"),
];

// Whether the line has this form.
fn has_form(alloc: Global, line: &[u8], form: &[u8]) -> Result<bool, AllocError> {
    Ok(shown(alloc, line)?.as_slice() == form)
}

// How lines group, by the grammar's own words.
#[test]
fn lines_have_their_forms(rt: HostRuntime) {
    for (line, form) in FORMS {
        assert_eq!(rt; (form, has_form(rt.alloc(), line, form)), (form, Ok(true)));
    }
}

/// The words that are no names.
const RESERVED: &[&[u8]] = &[
    b"layout",
    b"blocks",
    b"cuts",
    b"internal",
    b"external",
    b"brick",
    b"array",
    b"on",
    b"field",
    b"faces",
    b"constant",
    b"periodic",
    b"reflect",
    b"antireflect",
    b"extrapolate",
    b"stencil",
    b"lower",
    b"upper",
    b"scalar",
    b"print",
    b"block",
    b"repeat",
    b"end",
    b"index",
    b"where",
    b"min",
    b"max",
    b"abs",
    b"sum",
    b"all",
    b"any",
    b"count",
    b"bitand",
    b"bitor",
    b"script",
    b"when",
    b"dynamic",
    b"create",
    b"destroy",
    b"backfill",
    b"shiftup",
];

/// What stands before a name and behind it.
const PLACES: &[(&[u8], &[u8])] = &[
    (b"layout ", b" (0:3) blocks (2)"),
    (b"brick ", b" (0:3)"),
    (b"array ", b" on L"),
    (b"array A on ", b""),
    (b"field ", b" on L faces periodic"),
    (b"field U on ", b" faces periodic"),
    (b"stencil ", b" lower (1) upper (1) = 1"),
    (b"", b" = 1"),
    (b"", b"[0] = 1"),
    (b"A = ", b""),
    (b"A = S(", b")"),
    (b"A = ", b"(B[0])"),
    (b"scalar ", b" = 1"),
    (b"print ", b""),
];

// Whether the word is a name between these.
fn is_name(alloc: Global, before: &[u8], word: &[u8], behind: &[u8]) -> Result<bool, AllocError> {
    let mut line = Vec::from_slice(alloc, before)?;
    line.extend_from_slice(word)?;
    line.extend_from_slice(behind)?;
    Ok(parse_line(alloc, &line).is_ok())
}

#[test]
fn reserved_words_are_no_names(rt: HostRuntime) {
    for word in RESERVED {
        for (before, behind) in PLACES {
            let is_abs = *word == b"abs".as_slice() && *behind == b"(B[0])".as_slice();
            assert_eq!(rt;
                (word, is_name(rt.alloc(), before, word, behind)),
                (word, Ok(is_abs))
            );
        }
    }
}

/// How a line begins, what is opened, what stands inside, what closes it, and how often it may be opened.
const NESTED: &[(&[u8], &[u8], &[u8], &[u8], u8)] = &[
    (b"A = ", b"(", b"1", b")", 64),
    (b"A = ", b"-", b"1", b"", 64),
    (b"A = ", b"-(", b"1", b")", 32),
    (b"A = ", b"abs(", b"1", b")", 64),
    (b"A = ", b"min(1,", b"2", b")", 64),
    (b"A = ", b"max(", b"2", b",1)", 64),
    (b"A = ", b"where(1,2,", b"3", b")", 64),
    (b"A = ", b"(", b"B[-1]", b")", 64),
    (b"A = ", b"(", b"index(0)", b")", 63),
    (b"A = ", b"(", b"S(B)", b")", 63),
    (
        b"stencil S lower (1) upper (1) = ",
        b"(",
        b"@(-1)",
        b")",
        63,
    ),
    (b"scalar s = sum(1 + ", b"(", b"1", b")", 64),
    (b"scalar s = max(2 + ", b"(", b"1", b")", 64),
];

// Why a line is none that is nested so deep, if it is none.
fn refusal(
    alloc: Global,
    head: &[u8],
    open: &[u8],
    inside: &[u8],
    close: &[u8],
    turns: usize,
) -> Result<Option<LineError>, AllocError> {
    let mut line = repeated(alloc, head, open, inside, close, turns)?;
    if head.starts_with(b"scalar") {
        line.push(b')')?;
    }
    Ok(parse_line(alloc, &line).err())
}

// What is nested 64 deep is a line, and what is nested 65 deep is none.
#[test]
fn nesting_has_its_limit(rt: HostRuntime) {
    for (head, open, inside, close, most) in NESTED {
        let most = usize::from(*most);
        let at_most = refusal(rt.alloc(), head, open, inside, close, most);
        let past = refusal(rt.alloc(), head, open, inside, close, most + 1);
        assert_eq!(rt;
            (open, at_most, past),
            (open, Ok(None), Ok(Some(LineError::Syntax)))
        );
    }
}

// The deepest tree: 4,096 tokens with as many operators as they can hold, which group to the left.
#[test]
fn the_deepest_tree_is_made_and_dropped(rt: HostRuntime) {
    let deepest = refusal(rt.alloc(), b"A=-1", b"+1", b"", b"", 2046);
    let longer = refusal(rt.alloc(), b"A=- -1", b"+1", b"", b"", 2046);
    assert!(rt; deepest == Ok(None) && longer == Ok(Some(LineError::Syntax)));
}

/// Lines with numbers, and whether they are lines.
const NUMBERS: &[(&[u8], bool)] = &[
    (b"repeat 999999999", true),
    (b"repeat 0000999999999", true),
    (b"repeat 1000000000", false),
    (b"repeat 99999999999999999999", false),
    (b"brick A (-999999999:999999999)", true),
    (b"brick A (-1000000000:0)", false),
    (b"A = index(1000000000)", false),
    (b"A[1000000000] = 1", false),
    (b"A = 9223372036854775807", true),
    (b"A = -9223372036854775808", false),
    (b"field U on L faces constant -9223372036854775807", true),
    (b"field U on L faces constant 9223372036854775808", false),
];

#[test]
fn numbers_have_their_limits(rt: HostRuntime) {
    for (line, is_line) in NUMBERS {
        assert_eq!(rt;
            (line, parse_line(rt.alloc(), line).is_ok()),
            (line, *is_line)
        );
    }
}

#[test]
fn single_bytes_are_no_lines(rt: HostRuntime) {
    for byte in 0..=255u8 {
        let is_blank = matches!(byte, b' ' | b'\t' | b'\r' | b'#');
        assert_eq!(rt;
            (byte, parse_line(rt.alloc(), &[byte]).is_ok()),
            (byte, is_blank)
        );
    }
}

/// The words of lines, and of each word whether the line without it, with it twice, and with `%` for it is one (`+` or `.`).
const WORDS: &[(&[&[u8]], &[u8])] = &[
    (
        &[
            b"layout", b"L", b"(", b"0", b":", b"3", b")", b"blocks", b"(", b"2", b")",
        ],
        b"... ... ... ... ... ... ... ... ... ... ...",
    ),
    (
        &[
            b"layout", b"L", b"(", b"-", b"9", b":", b"3", b")", b"cuts", b"(", b"(", b"4", b",",
            b"7", b")", b")",
        ],
        b"... ... ... +.. ... ... ... ... ... ... ... ... ... ... ... ...",
    ),
    (
        &[
            b"brick", b"A", b"(", b"0", b":", b"3", b",", b"1", b":", b"2", b")",
        ],
        b"... ... ... ... ... ... ... ... ... ... ...",
    ),
    (&[b"array", b"A", b"on", b"L"], b"... ... ... ..."),
    (
        &[
            b"field",
            b"U",
            b"on",
            b"L",
            b"faces",
            b"constant",
            b"-",
            b"1",
            b",",
            b"periodic",
        ],
        b"... ... ... ... ... ... +.. ... ... ...",
    ),
    (
        &[
            b"stencil", b"S", b"lower", b"(", b"1", b")", b"upper", b"(", b"0", b")", b"=", b"@",
            b"(", b"0", b")",
        ],
        b"... ... ... ... ... ... ... ... ... ... ... +.. ... ... ...",
    ),
    (
        &[b"A", b"=", b"-", b"1", b"+", b"2"],
        b"... ... ++. ... ..+ ...",
    ),
    (
        &[b"A", b"[", b"0", b":", b"3", b":", b"2", b"]", b"=", b"B"],
        b"... ... ... ... ... ... ... ... ... ...",
    ),
    (
        &[b"A", b"=", b"min", b"(", b"1", b",", b"(", b"2", b")", b")"],
        b"... ... ... ... ... ... ... ... ... ...",
    ),
    (
        &[
            b"A", b"=", b"where", b"(", b"B", b",", b"1", b",", b"index", b"(", b"0", b")", b")",
        ],
        b"... ... ... ... ... ... ... ... +.. ... ... ... ...",
    ),
    (
        &[b"scalar", b"s", b"=", b"max", b"(", b"A", b")"],
        b"... ... ... +.. ... ... ...",
    ),
    (&[b"print", b"A", b"[", b"0", b"]"], b"... ... ... ... ..."),
    (&[b"repeat", b"2"], b"... ..."),
    (&[b"block"], b"+.."),
];

// Puts a word at the end of a line, and a blank behind it.
fn put_word(line: &mut Vec<u8>, word: &[u8]) -> Result<(), AllocError> {
    line.extend_from_slice(word)?;
    line.push(b' ')?;
    Ok(())
}

// The line of these words, of which one gives way to others.
fn changed(
    alloc: Global,
    words: &[&[u8]],
    at: usize,
    others: &[&[u8]],
) -> Result<Vec<u8>, AllocError> {
    let mut line = Vec::new(alloc);
    for (place, word) in words.iter().enumerate() {
        if place != at {
            put_word(&mut line, word)?;
            continue;
        }
        for other in others {
            put_word(&mut line, other)?;
        }
    }
    Ok(line)
}

// Whether it is a line still: `+` or `.`.
fn mark(alloc: Global, words: &[&[u8]], at: usize, others: &[&[u8]]) -> Result<u8, AllocError> {
    let line = changed(alloc, words, at, others)?;
    Ok(if parse_line(alloc, &line).is_ok() {
        b'+'
    } else {
        b'.'
    })
}

// The marks of each word of a line.
fn marks(alloc: Global, words: &[&[u8]]) -> Result<Vec<u8>, AllocError> {
    let mut marks = Vec::new(alloc);
    for (at, word) in words.iter().enumerate() {
        if at > 0 {
            marks.push(b' ')?;
        }
        marks.push(mark(alloc, words, at, &[])?)?;
        marks.push(mark(alloc, words, at, &[*word, *word])?)?;
        marks.push(mark(alloc, words, at, &[b"%"])?)?;
    }
    Ok(marks)
}

// Whether the words have these marks.
fn have_marks(alloc: Global, words: &[&[u8]], expected: &[u8]) -> Result<bool, AllocError> {
    Ok(marks(alloc, words)?.as_slice() == expected)
}

#[test]
fn a_word_less_or_more_is_mostly_no_line(rt: HostRuntime) {
    for (words, expected) in WORDS {
        assert_eq!(rt;
            (words, have_marks(rt.alloc(), words, expected)),
            (words, Ok(true))
        );
    }
}
