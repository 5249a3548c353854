//! Scripts that are refused, each at its line and for its cause, and scripts at the limits that are not.
use crate::run::{push_lines, run};
use pooma_text::decimal;
use pooma_top::Status;
use std::alloc::{AllocError, Global};

/// Scripts that are refused, by their cause. Each row is the number of the line at which the script is refused, and its lines, with a
/// semicolon between them.
const REFUSED: &[(&str, &str)] = &[
    (
        "name",
        "1 A = 7
2 brick A (0:3);A = B
2 brick A (0:3);brick A (0:3)
2 brick A (0:3);layout A (0:3) blocks (1)
3 brick A (0:3);;print B
2 brick A (0:3);array B on A
3 stencil S lower (0) upper (0) = @(0);brick A (0:3);A = S
2 scalar s = 1;s = 2
2 scalar s = 1;print s[0]
2 brick A (0:3);scalar A = 1
1 scalar s = t
2 brick A (0:3);A = T(A)
2 layout L (0:3) blocks (1);print L
3 brick A (0:9);brick B (0:9);A[0:2] = C[0:3]
2 brick A (0:9);A[3:2] = Q",
    ),
    (
        "syntax",
        "2 brick A (0:3);print A A
1 brick A (0:3))
1 brick A (0:3
1 brick A 0:3)
1 brick A (--1:3)
1 brick A (0,3)
1 brick 1 (0:3)
1 brick B(00:+0)
1 brick A (0:99999999999999999999)
2 brick A (0:3);A = 9223372036854775808
2 brick A (0:3);A = +1
2 brick A (0:3);A == 1
2 brick A (0:3);A = 1 2
2 brick A (0:3);A =
3 brick A (0:3);print A;!
2 brick A (0:3);A = index(0) < 1 < 2
2 brick A (0:3);A = max(A)
1 end
2 repeat 2;brick A (0:3);end
2 repeat 2;layout L (0:3) blocks (1);end
1 script 2
1 dynamic D capacity 9",
    ),
    (
        "dimension",
        "1 brick A (0:1,0:1,0:1,0:1)
1 layout L (0:3,0:3) blocks (2)
1 layout L (0:3) cuts ((1),(2))
1 layout L (0:3) blocks (2) internal (1,1)
1 layout L (0:3) blocks (2) external (1,1)
2 layout L (0:3) blocks (2);field U on L faces periodic
2 layout L (0:3,0:3) blocks (2,1);field U on L faces periodic, periodic
1 stencil S lower (1,1) upper (1) = @(0,0)
1 stencil S lower (1) upper (1) = @(0,0)
1 stencil S lower (1,1,1,1) upper (1,1,1,1) = 1
2 brick A (0:3);print A[0,0]
2 brick A (0:3,0:3);print A[0]
2 brick A (0:3);A = index(1)
1 scalar s = index(0)
2 brick A (0:3);scalar s = A
3 brick A (0:3);brick B (0:3,0:3);A = B
3 brick A (0:3);brick B (0:3,0:3);A = B[0:3,0] + B
4 stencil S lower (1,1) upper (1,1) = @(0,0);brick A (0:3);brick B (0:3);B[1:2] = S(A)
2 brick A (0:3);scalar s = sum(A + index(1))
2 brick A (0:9);A[3:2] = A[0,0]
2 brick A (0:9);A[3:2] = A[11]",
    ),
    (
        "empty",
        "1 brick A (3:0)
1 layout L (0:3) blocks (0)
1 layout L (0:3) blocks (5)
1 layout L (0:9) cuts ((4,4))
1 layout L (0:9) cuts ((7,4))
2 brick A (0:3);print A[3:2]
2 brick A (0:3);print A[0:3:0]
2 brick A (0:3);print A[0:3:-1]
1 repeat 0;block;end
3 stencil S lower (2) upper (2) = @(0);brick A (0:3);A = S(A)",
    ),
    (
        "outside",
        "1 layout L (0:9) cuts ((0,4))
1 layout L (0:9) cuts ((4,10))
1 stencil S lower (1) upper (1) = @(2)
1 stencil S lower (1) upper (1) = @(-2)
2 brick A (0:3);print A[4]
2 brick A (0:3);print A[-1:2]
2 brick A (0:3);A[0:4] = 1
3 brick A (0:3);print A[0:5:10];print A[0:9:3]
3 layout L (0:3) blocks (1) external (1);field U on L faces periodic, periodic;U[-1] = 3
4 layout L (0:3) blocks (1) external (1);array A on L;A[-1:4] = 3;A[5] = 3
2 brick A (0:9);A[0:12] = A[0:1]",
    ),
    (
        "unequal",
        "3 brick A (0:9);brick B (0:9);A[0:2] = B[0:3]
2 brick A (0:9);A[0:2] = A[5:7] + A[0:3]
4 stencil S lower (1) upper (1) = @(0);brick A (0:9);brick B (0:9);B = S(A)
2 brick A (0:9);scalar s = sum(A[0:2] + A[0:3])
2 brick A (0:9);A[1:9] = A[0:7]",
    ),
    (
        "overlap",
        "2 brick A (0:7);A[1:7] = A[0:6]
2 brick A (0:7);A = A[7:0:-1]
2 brick A (0:7);A[0:2] += A[2:4]
2 brick A (0:3,0:3);A[2,0:3] = A[0:3,3]
3 stencil S lower (1) upper (1) = @(-1) + @(1);brick A (0:9);A[1:8] = S(A)",
    ),
    (
        "open repeat",
        "4 brick A (0:0);repeat 2;A = 1
5 repeat 2;repeat 3;block;end",
    ),
];

// Whether the script of a row is refused at its line for this cause.
fn is_refused(alloc: Global, cause: &str, row: &str) -> Result<bool, AllocError> {
    let Some((line, lines)) = row.split_once(' ') else {
        return Ok(false);
    };
    let mut script = Vec::new(alloc);
    push_lines(&mut script, lines)?;
    script.push(b'\n')?;
    let text = format!(in alloc; "refused line {line}: {cause}\n")?;
    let ended = run(alloc, &["run", "1"], &script)?;
    Ok(ended.status == Status::Refused && ended.text.as_slice() == text.as_bytes())
}

// The place of the first row that is not refused for this cause.
fn first_otherwise(alloc: Global, cause: &str, rows: &str) -> Result<Option<usize>, AllocError> {
    for (place, row) in rows.split('\n').enumerate() {
        if !is_refused(alloc, cause, row)? {
            return Ok(Some(place));
        }
    }
    Ok(None)
}

#[test]
fn lines_are_refused_for_their_causes(rt: HostRuntime) {
    for (cause, rows) in REFUSED {
        let place = first_otherwise(rt.alloc(), cause, rows);
        assert!(rt; place == Ok(None), "{cause} {place:?}");
    }
}

// What `check` answers to a script, which is a front, so many times a part, a middle, and so many times an end. A row has these six
// in this order; its last ones may be left out, and are nothing then. Semicolons are the ends of the script's lines. The last two
// rows have lines of 4,096 and of 4,097 tokens.
const LIMITS: &str = "refused line 10001: limit (lines)||10001|;
ok||10000|;
ok|brick A (0:1);|9998|;|print A;
refused line 10001: limit (lines)|brick A (0:1);|9999|;|print A;
ok|brick |32|a| (0:1);
refused line 1: limit (name)|brick |33|a| (0:1);
refused line 1: limit (name)|scalar |33|a| = 1;
ok|brick A (0:1000000);
ok|brick A (1000000:1000000);
refused line 1: limit (coordinate)|brick A (0:1000001);
refused line 1: limit (coordinate)|brick A (-1000001:-1000001);
ok|brick A (0:2047,0:2047);
refused line 1: limit (array cells)|brick A (0:2047,0:2048);
ok|brick A (0:2047,0:2047);brick B (0:2047,0:2047);brick C (0:2047,0:2047);brick D (0:2047,0:2047);
refused line 5: limit (allocated cells)|brick A (0:2047,0:2047);brick B (0:2047,0:2047);brick C (0:2047,0:2047);brick D (0:2047,0:2047);brick E (0:0);
ok|layout L (0:9) blocks (1) internal (8) external (8);
refused line 1: limit (guards)|layout L (0:9) blocks (1) internal (9);
refused line 1: limit (guards)|layout L (0:9) blocks (1) external (9);
refused line 1: limit (guards)|layout L (0:1) blocks (1) external (3);
ok|layout L (0:15,0:15) blocks (16,16);
refused line 1: limit (patches)|layout L (0:19,0:19) blocks (17,16);
ok|stencil S lower (8) upper (8) = @(0);
refused line 1: limit (extents)|stencil S lower (9) upper (8) = @(0);
ok|scalar a = 1|255|+1|;
refused line 1: limit (depth)|scalar a = 1|256|+1|;
refused line 1: limit (depth)|stencil S lower (0) upper (0) = 1|256|+1|;
ok|scalar a = |64|(|1|)
refused line 1: syntax|scalar a = |65|(|1|)
ok|brick A (0:1);scalar a = sum(A|63|+A|);
refused line 2: limit (views)|brick A (0:1);scalar a = sum(A|64|+A|);
ok||4|repeat 2;|block;|end;
refused line 5: limit (repeats)||5|repeat 2;|block;|end;
ok|repeat 1048576;block;end;
refused line 2: limit (statements)|repeat 1048577;block;end;
refused line 4: limit (statements)|repeat 1048576;block;end;block;
refused line 5: limit (statements)||4|repeat 999999999;|block;|end;
ok||4|repeat 999999999;||end;
refused line 3: limit (printed values)|brick A (0:2047,0:2047);print A;print A[0,0];
ok|brick A (0:2047,0:2047);print A;
refused line 3: limit (statements)|scalar s = 1;repeat 1048577;print s;end;
ok|brick A (0:0);A = |19|1|;
refused line 2: syntax|brick A (0:0);A = |20|1|;
ok|brick A (0:0);A = |200|0|7;
ok|#|1048575|x
refused line 0: limit (script bytes)|#|1048576|x
ok|scalar a = |204|1+1+1+1+1+1+1+1+1+1&|1+1+1+1+1+1+1;
refused line 1: syntax|scalar a = -|204|1+1+1+1+1+1+1+1+1+1&|1+1+1+1+1+1+1;";

// The text of a column, or nothing where the row has none.
fn column<'a>(columns: &[&'a str], place: usize) -> &'a str {
    match columns.get(place) {
        Some(text) => text,
        None => "",
    }
}

// The script of a row.
fn repeated(alloc: Global, columns: &[&str], count: usize) -> Result<Vec<u8>, AllocError> {
    let mut script = Vec::new(alloc);
    push_lines(&mut script, column(columns, 1))?;
    for _ in 0..count {
        push_lines(&mut script, column(columns, 3))?;
    }
    push_lines(&mut script, column(columns, 4))?;
    for _ in 0..count {
        push_lines(&mut script, column(columns, 5))?;
    }
    Ok(script)
}

// Whether the script of a row is answered so.
fn is_limit(alloc: Global, row: &str) -> Result<bool, AllocError> {
    let columns: Vec<&str> = row.split('|').collect(alloc)?;
    let count = match columns.get(2) {
        Some(digits) => digits.parse::<usize>(),
        None => Ok(0),
    };
    let Ok(count) = count else {
        return Ok(false);
    };
    let text = format!(in alloc; "{}\n", column(&columns, 0))?;
    is_answered(alloc, &repeated(alloc, &columns, count)?, text.as_bytes())
}

// The place of the first row that is not answered so.
fn first_wrong_limit(alloc: Global) -> Result<Option<usize>, AllocError> {
    for (place, row) in LIMITS.split('\n').enumerate() {
        if !is_limit(alloc, row)? {
            return Ok(Some(place));
        }
    }
    Ok(None)
}

#[test]
fn limits_hold_to_the_last(rt: HostRuntime) {
    let wrong = first_wrong_limit(rt.alloc());
    assert!(rt; wrong == Ok(None), "{wrong:?}");
}

// So many bricks, each of its own name.
fn bricks(alloc: Global, count: u32) -> Result<Vec<u8>, AllocError> {
    let mut text = Vec::new(alloc);
    for number in 0..count {
        text.extend_from_slice(b"brick A")?;
        decimal(alloc, &mut text, i64::from(number))?;
        text.extend_from_slice(b" (0:0)\n")?;
    }
    Ok(text)
}

// A layout of 16 x 16 patches, and a statement that adds up its views, each moved by one more than the one before on both axes, up to
// this one. Each moved view has 12 borders more on an axis, and the first one 11.
fn moved(alloc: Global, last: u32) -> Result<Vec<u8>, AllocError> {
    let mut text = Vec::from_slice(
        alloc,
        b"layout L (0:399,0:399) blocks (16,16)\narray A on L\nbrick B (0:299,0:299)\nB = 0",
    )?;
    for k in 0..=last {
        text.extend_from_slice(b" + A[")?;
        push_range(alloc, &mut text, k)?;
        text.push(b',')?;
        push_range(alloc, &mut text, k)?;
        text.push(b']')?;
    }
    text.push(b'\n')?;
    Ok(text)
}

fn push_range(alloc: Global, text: &mut Vec<u8>, first: u32) -> Result<(), AllocError> {
    decimal(alloc, text, i64::from(first))?;
    text.push(b':')?;
    decimal(alloc, text, 299 + i64::from(first))
}

// What `check` answers to these scripts.
fn answers_at_limits(alloc: Global) -> Result<[bool; 4], AllocError> {
    Ok([
        is_answered(alloc, &bricks(alloc, 256)?, b"ok\n")?,
        is_answered(
            alloc,
            &bricks(alloc, 257)?,
            b"refused line 257: limit (arrays)\n",
        )?,
        is_answered(alloc, &moved(alloc, 20)?, b"ok\n")?,
        is_answered(
            alloc,
            &moved(alloc, 21)?,
            b"refused line 4: limit (parts)\n",
        )?,
    ])
}

// Whether `check` answers a script by this text.
fn is_answered(alloc: Global, script: &[u8], text: &[u8]) -> Result<bool, AllocError> {
    Ok(run(alloc, &["check"], script)?.text.as_slice() == text)
}

#[test]
fn arrays_and_parts_hold_to_the_last(rt: HostRuntime) {
    assert!(rt; answers_at_limits(rt.alloc()) == Ok([true; 4]));
}

// The first byte that, on a line of its own, is not answered as it is to be: a line end, the blanks and the comment's mark make
// blank lines, and every other byte makes none.
fn first_wrong_byte(alloc: Global) -> Result<Option<u8>, AllocError> {
    for byte in 0..=255u8 {
        let ended = run(alloc, &["run", "1"], &[byte, b'\n'])?;
        let blank = matches!(byte, b'\n' | b' ' | b'\t' | b'\r' | b'#');
        let text: &[u8] = if blank {
            b""
        } else {
            b"refused line 1: syntax\n"
        };
        if ended.text.as_slice() != text {
            return Ok(Some(byte));
        }
    }
    Ok(None)
}

#[test]
fn each_byte_on_a_line_of_its_own(rt: HostRuntime) {
    let wrong = first_wrong_byte(rt.alloc());
    assert!(rt; wrong == Ok(None), "{wrong:?}");
}

const RESERVED: &str =
    "layout blocks cuts internal external brick array on field faces constant periodic reflect \
    antireflect extrapolate stencil lower upper scalar print block repeat end index where min max abs sum all any \
    count bitand bitor script when dynamic create destroy backfill shiftup";

// A front, a word and a back.
fn with_word(alloc: Global, word: &str, back: &[u8]) -> Result<Vec<u8>, AllocError> {
    let mut text = Vec::from_slice(alloc, b"brick ")?;
    text.extend_from_slice(word.as_bytes())?;
    text.extend_from_slice(back)?;
    Ok(text)
}

// Whether the word is no name, and is one with a letter more.
fn is_reserved(alloc: Global, word: &str) -> Result<bool, AllocError> {
    let refused = run(alloc, &["check"], &with_word(alloc, word, b" (0:1)\n")?)?;
    let longer = run(alloc, &["check"], &with_word(alloc, word, b"x (0:1)\n")?)?;
    Ok(refused.status == Status::Refused && longer.status == Status::Done)
}

// How many words are reserved, where each is.
fn count_reserved(alloc: Global) -> Result<Option<usize>, AllocError> {
    let mut count = 0usize;
    for word in RESERVED.split(' ') {
        if !is_reserved(alloc, word)? {
            return Ok(None);
        }
        count = count.saturating_add(1);
    }
    Ok(Some(count))
}

#[test]
fn reserved_words_are_no_names(rt: HostRuntime) {
    assert!(rt; count_reserved(rt.alloc()) == Ok(Some(41)));
}
