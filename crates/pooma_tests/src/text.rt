use pooma_text::{Span, Token, TokenError, TokenKind, decimal, lines, number, tokens};
use std::alloc::{AllocError, Global};

// Whether the lines of the text begin and end at these places.
fn are_lines(alloc: Global, text: &[u8], places: &[(usize, usize)]) -> Result<bool, AllocError> {
    let spans = lines(alloc, text)?;
    for (span, place) in spans.iter().zip(places) {
        if (span.start, span.end) != *place {
            return Ok(false);
        }
    }
    Ok(spans.len() == places.len())
}

const LINES: &[(&[u8], &[(usize, usize)])] = &[
    (b"", &[]),
    (b"\n", &[(0, 0)]),
    (b"a", &[(0, 1)]),
    (b"a\n", &[(0, 1)]),
    (b"\n\nab\r\n", &[(0, 0), (1, 1), (2, 5)]),
    (b"print x\n# end", &[(0, 7), (8, 13)]),
];

#[test]
fn lines_of_texts_with_and_without_a_last_line_end(rt: HostRuntime) {
    for (text, places) in LINES {
        assert_eq!(rt;
            (text, are_lines(rt.alloc(), text, places)),
            (text, Ok(true))
        );
    }
}

// Whether the tokens of the line are of these kinds, and begin and end at these places.
fn are_tokens(
    alloc: Global,
    line: &[u8],
    places: &[(TokenKind, usize, usize)],
) -> Result<bool, TokenError> {
    let found = tokens(alloc, line)?;
    for (token, place) in found.iter().zip(places) {
        if (token.kind, token.span.start, token.span.end) != *place {
            return Ok(false);
        }
    }
    Ok(found.len() == places.len())
}

const TOKENS: &[(TokenKind, usize, usize)] = &[
    (TokenKind::Word, 0, 1),
    (TokenKind::Sign, 1, 2),
    (TokenKind::Number, 2, 3),
    (TokenKind::Sign, 3, 4),
    (TokenKind::Sign, 5, 6),
    (TokenKind::Sign, 7, 8),
    (TokenKind::Number, 8, 9),
];

#[test]
fn tokens_of_an_assignment(rt: HostRuntime) {
    assert!(rt; are_tokens(rt.alloc(), b"A[1] = -2 # x", TOKENS) == Ok(true));
}

// How many tokens a line of one byte has, and the first of them.
fn tokens_of(alloc: Global, byte: u8) -> Result<(usize, Option<Token>), TokenError> {
    let found = tokens(alloc, &[byte])?;
    Ok((found.len(), found.first().copied()))
}

// What the language says of these.
fn said_of(byte: u8) -> Result<(usize, Option<Token>), TokenError> {
    let kind = match byte {
        b' ' | b'\t' | b'\r' | b'#' => return Ok((0, None)),
        b'A'..=b'Z' | b'a'..=b'z' => TokenKind::Word,
        b'0'..=b'9' => TokenKind::Number,
        b'('
        | b')'
        | b'['
        | b']'
        | b','
        | b':'
        | b'='
        | b'+'
        | b'-'
        | b'*'
        | b'/'
        | b'%'
        | b'<'
        | b'>'
        | b'&'
        | b'|'
        | b'@' => TokenKind::Sign,
        _ => return Err(TokenError::BadByte { place: 0 }),
    };
    let span = Span { start: 0, end: 1 };
    Ok((1, Some(Token { kind, span })))
}

#[test]
fn lines_of_one_byte(rt: HostRuntime) {
    for byte in 0..=255u8 {
        assert_eq!(rt; (byte, tokens_of(rt.alloc(), byte)), (byte, said_of(byte)));
    }
}

#[test]
fn numbers_up_to_the_greatest(rt: HostRuntime) {
    let numbers = [
        number(b"0"),
        number(b"007"),
        number(b"9223372036854775807"),
        number(b"9223372036854775808"),
        number(b"0009223372036854775807"),
        number(&[b'9'; 200]),
        number(&[b'0'; 200]),
    ];
    assert!(rt;
        numbers
            == [
                Some(0),
                Some(7),
                Some(i64::MAX),
                None,
                Some(i64::MAX),
                None,
                Some(0)
            ]
    );
}

// Whether the decimals of three numbers are appended, one after another.
fn are_appended(alloc: Global) -> Result<bool, AllocError> {
    let mut out = Vec::new(alloc);
    for value in [i64::MIN, 0, i64::MAX] {
        decimal(alloc, &mut out, value)?;
        out.push(b' ')?;
    }
    Ok(out.as_slice() == b"-9223372036854775808 0 9223372036854775807 ".as_slice())
}

#[test]
fn decimals_are_appended(rt: HostRuntime) {
    assert!(rt; are_appended(rt.alloc()) == Ok(true));
}
