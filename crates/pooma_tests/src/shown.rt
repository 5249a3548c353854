//! A line's form as a text that shows how it groups: an operator stands before its operands.
use pooma_parse::{
    LineError, RawAssign, RawCutting, RawExpr, RawLine, RawOp, RawSub, RawView, Updater4,
    parse_line,
};
use pooma_text::{Span, decimal};
use std::alloc::{AllocError, Global};

/// A text that is made bit by bit. Where memory is short it lacks something, and says so at its end.
struct Text {
    alloc: Global,
    bytes: Vec<u8>,
    is_short: bool,
}

/// The form of a line as a text, `blank` or `syntax`.
pub fn shown(alloc: Global, line: &[u8]) -> Result<Vec<u8>, AllocError> {
    let mut out = Text {
        alloc,
        bytes: Vec::new(alloc),
        is_short: false,
    };
    put_line(&mut out, line);
    let Text {
        alloc: _,
        bytes,
        is_short,
    } = out;
    if is_short { Err(AllocError) } else { Ok(bytes) }
}

fn put_line(out: &mut Text, line: &[u8]) {
    match parse_line(out.alloc, line) {
        Ok(Some(form)) => put_form(out, line, &form),
        Ok(None) => put(out, b"blank"),
        Err(LineError::Syntax) => put(out, b"syntax"),
        Err(LineError::OutOfMemory) => out.is_short = true,
    }
}

fn put(out: &mut Text, text: &[u8]) {
    if out.bytes.extend_from_slice(text).is_err() {
        out.is_short = true;
    }
}

fn put_name(out: &mut Text, line: &[u8], name: Span) {
    match line.get(name.start..name.end) {
        Some(bytes) => put(out, bytes),
        None => put(out, b"?"),
    }
}

fn put_number(out: &mut Text, value: i64) {
    if decimal(out.alloc, &mut out.bytes, value).is_err() {
        out.is_short = true;
    }
}

fn put_numbers(out: &mut Text, values: &[i32]) {
    for value in values {
        put(out, b" ");
        put_number(out, i64::from(*value));
    }
}

fn put_ranges(out: &mut Text, ranges: &[(i32, i32)]) {
    for (first, last) in ranges {
        put(out, b" ");
        put_number(out, i64::from(*first));
        put(out, b":");
        put_number(out, i64::from(*last));
    }
}

fn put_sub(out: &mut Text, sub: RawSub) {
    put(out, b" ");
    match sub {
        RawSub::At(n) => put_number(out, i64::from(n)),
        RawSub::Range(first, last, stride) => {
            put_number(out, i64::from(first));
            put(out, b":");
            put_number(out, i64::from(last));
            put(out, b":");
            put_number(out, i64::from(stride))
        }
    }
}

fn put_view(out: &mut Text, line: &[u8], view: &RawView) {
    put_name(out, line, view.name);
    let Some(subs) = &view.subs else {
        return;
    };
    put(out, b"[");
    for sub in subs.as_slice() {
        put_sub(out, *sub);
    }
    put(out, b" ]")
}

fn op_text(op: RawOp) -> &'static [u8] {
    match op {
        RawOp::Add => b"+",
        RawOp::Sub => b"-",
        RawOp::Mul => b"*",
        RawOp::Div => b"/",
        RawOp::Rem => b"%",
        RawOp::Min => b"min",
        RawOp::Max => b"max",
        RawOp::Less => b"<",
        RawOp::LessEq => b"<=",
        RawOp::Greater => b">",
        RawOp::GreaterEq => b">=",
        RawOp::Equal => b"==",
        RawOp::Unequal => b"!=",
        RawOp::BitAnd => b"&",
        RawOp::BitOr => b"|",
    }
}

fn put_expr(out: &mut Text, line: &[u8], expr: &RawExpr) {
    match expr {
        RawExpr::Number(n) => put_number(out, *n),
        RawExpr::Index(axis) => {
            put(out, b"index ");
            put_number(out, i64::from(*axis))
        }
        RawExpr::View(view) => put_view(out, line, view),
        RawExpr::Apply { stencil, view } => {
            put_name(out, line, *stencil);
            put(out, b"( ");
            put_view(out, line, view);
            put(out, b")")
        }
        RawExpr::At(offset) => {
            put(out, b"@(");
            put_numbers(out, offset.as_slice());
            put(out, b" )")
        }
        RawExpr::Neg(operand) => {
            put(out, b"(neg ");
            put_expr(out, line, operand.get());
            put(out, b")")
        }
        RawExpr::Abs(operand) => {
            put(out, b"(abs ");
            put_expr(out, line, operand.get());
            put(out, b")")
        }
        RawExpr::Bin(op, left, right) => {
            put(out, b"(");
            put(out, op_text(*op));
            put(out, b" ");
            put_expr(out, line, left.get());
            put(out, b" ");
            put_expr(out, line, right.get());
            put(out, b")")
        }
        RawExpr::Where(condition, then_value, else_value) => {
            put(out, b"(where ");
            put_expr(out, line, condition.get());
            put(out, b" ");
            put_expr(out, line, then_value.get());
            put(out, b" ");
            put_expr(out, line, else_value.get());
            put(out, b")")
        }
    }
}

fn put_updater(out: &mut Text, updater: Updater4) {
    put(out, b" ");
    match updater {
        Updater4::Constant(n) => put_number(out, n),
        Updater4::Periodic => put(out, b"periodic"),
        Updater4::Reflect => put(out, b"reflect"),
        Updater4::Antireflect => put(out, b"antireflect"),
        Updater4::Extrapolate => put(out, b"extrapolate"),
    }
}

fn put_cutting(out: &mut Text, cutting: &RawCutting) {
    match cutting {
        RawCutting::Blocks(blocks) => {
            put(out, b" blocks");
            put_numbers(out, blocks.as_slice())
        }
        RawCutting::Cuts(cuts) => {
            put(out, b" cuts");
            for list in cuts.as_slice() {
                put(out, b" (");
                put_numbers(out, list.as_slice());
                put(out, b" )");
            }
        }
    }
}

fn put_form(out: &mut Text, line: &[u8], form: &RawLine) {
    match form {
        RawLine::Layout {
            name,
            domain,
            cutting,
            internal,
            external,
        } => {
            put(out, b"layout ");
            put_name(out, line, *name);
            put_ranges(out, domain.as_slice());
            put_cutting(out, cutting);
            put(out, b" in");
            put_numbers(out, internal.as_slice());
            put(out, b" out");
            put_numbers(out, external.as_slice())
        }
        RawLine::Brick { name, domain } => {
            put(out, b"brick ");
            put_name(out, line, *name);
            put_ranges(out, domain.as_slice())
        }
        RawLine::Array { name, layout } => {
            put(out, b"array ");
            put_name(out, line, *name);
            put(out, b" on ");
            put_name(out, line, *layout)
        }
        RawLine::Field {
            name,
            layout,
            faces,
        } => {
            put(out, b"field ");
            put_name(out, line, *name);
            put(out, b" on ");
            put_name(out, line, *layout);
            put(out, b" faces");
            for face in faces.as_slice() {
                put_updater(out, *face);
            }
        }
        _ => put_statement(out, line, form),
    }
}

fn put_statement(out: &mut Text, line: &[u8], form: &RawLine) {
    match form {
        RawLine::Stencil {
            name,
            lower,
            upper,
            body,
        } => {
            put(out, b"stencil ");
            put_name(out, line, *name);
            put(out, b" lower");
            put_numbers(out, lower.as_slice());
            put(out, b" upper");
            put_numbers(out, upper.as_slice());
            put(out, b" = ");
            put_expr(out, line, body)
        }
        RawLine::Assign { target, op, value } => {
            put_view(out, line, target);
            put(out, assign_text(*op));
            put_expr(out, line, value)
        }
        RawLine::Scalar { name, value } => {
            put(out, b"scalar ");
            put_name(out, line, *name);
            put(out, b" = ");
            put_expr(out, line, value)
        }
        RawLine::Reduce { name, word, value } => {
            put(out, b"scalar ");
            put_name(out, line, *name);
            put(out, b" = ");
            put_name(out, line, *word);
            put(out, b" of ");
            put_expr(out, line, value)
        }
        RawLine::PrintView { view } => {
            put(out, b"print ");
            put_view(out, line, view)
        }
        RawLine::PrintName { name } => {
            put(out, b"print ");
            put_name(out, line, *name)
        }
        RawLine::Block => put(out, b"block"),
        RawLine::Repeat { turns } => {
            put(out, b"repeat ");
            put_number(out, i64::from(*turns))
        }
        _ => put(out, b"end"),
    }
}

fn assign_text(op: RawAssign) -> &'static [u8] {
    match op {
        RawAssign::Plain => b" = ",
        RawAssign::Add => b" += ",
        RawAssign::Sub => b" -= ",
        RawAssign::Mul => b" *= ",
    }
}
