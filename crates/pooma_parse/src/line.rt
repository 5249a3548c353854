//! The forms of a line, one function a form. A form is a whole line, so each ends with the line's end.
ghost use Rattle.std.specs.Prelude.{◌↔◌, [], IsTrue, IsErrOf};
ghost use Rattle.pooma_parse.specs.Reader as reader;
ghost use Rattle.pooma_parse.specs.Reader.{Reads};

use crate::cursor::Cursor;
use crate::error::LineError;
use crate::expression::{Place, expression, group};
use crate::form::{RawAssign, RawLine, RawView};
use crate::lists::{Range, Small, Updater, cutting, in_parens, layers, listed};
use crate::view::view;
use pooma_text::Span;
use std::alloc::Global;

/// How many parentheses and minuses may stand one in another.
const MOST_NESTING: u32 = 64;

/// The form that the tokens of a line spell.
///
/// No two forms have the same tokens, so the order in which they are tried says nothing.
#[tactic(auto, unfolding(crate::specs::Reader::read_line))]
pub fn form(alloc: Global, line: &Cursor<'_>) -> Result<RawLine, LineError>
    ensures { Reads reader.read_line line.now result [] }
{
    match declaration(alloc, line) {
        Err(LineError::Syntax) => statement(alloc, line),
        answer => answer,
    }
}

/// Whether a line may still be of another form.
fn is_other_form(answer: &Result<RawLine, LineError>) -> bool
    ensures { IsTrue result ↔ IsErrOf answer.now LineError.Syntax }
{
    matches!(answer, Err(LineError::Syntax))
}

/// The form of a declaration, where the line is one.
#[tactic(auto, unfolding(crate::specs::Reader::read_declaration))]
fn declaration(alloc: Global, line: &Cursor<'_>) -> Result<RawLine, LineError>
    ensures { Reads reader.read_declaration line.now result [] }
{
    let answer = layout(alloc, line);
    if !is_other_form(&answer) {
        return answer;
    }
    let answer = brick(alloc, line);
    if !is_other_form(&answer) {
        return answer;
    }
    let answer = array(line);
    if !is_other_form(&answer) {
        return answer;
    }
    let answer = field(alloc, line);
    if !is_other_form(&answer) {
        return answer;
    }
    stencil(alloc, line)
}

/// The form of a statement, a repeat or its end, where the line is one.
#[tactic(auto, unfolding(crate::specs::Reader::read_statement))]
fn statement(alloc: Global, line: &Cursor<'_>) -> Result<RawLine, LineError>
    ensures { Reads reader.read_statement line.now result [] }
{
    let answer = scalar(alloc, line);
    if !is_other_form(&answer) {
        return answer;
    }
    let answer = reduction(alloc, line);
    if !is_other_form(&answer) {
        return answer;
    }
    let answer = print(alloc, line);
    if !is_other_form(&answer) {
        return answer;
    }
    let answer = block(line);
    if !is_other_form(&answer) {
        return answer;
    }
    let answer = repeat(line);
    if !is_other_form(&answer) {
        return answer;
    }
    let answer = repeat_end(line);
    if !is_other_form(&answer) {
        return answer;
    }
    assignment(alloc, line)
}

/// `layout` NAME BOX, how it is cut, and its guards.
#[tactic(auto, unfolding(crate::specs::Reader::read_layout))]
fn layout(alloc: Global, line: &Cursor<'_>) -> Result<RawLine, LineError>
    ensures { Reads reader.read_layout line.now result [] }
{
    let mut cursor = line.fork();
    cursor.expect_word(b"layout")?;
    let name = cursor.name()?;
    let domain = in_parens::<Range>(alloc, &mut cursor)?;
    let cutting = cutting(alloc, &mut cursor)?;
    let internal = layers(alloc, &mut cursor, b"internal")?;
    let external = layers(alloc, &mut cursor, b"external")?;
    cursor.end()?;
    Ok(RawLine::Layout {
        name,
        domain,
        cutting,
        internal,
        external,
    })
}

/// `brick` NAME BOX
#[tactic(auto, unfolding(crate::specs::Reader::read_brick))]
fn brick(alloc: Global, line: &Cursor<'_>) -> Result<RawLine, LineError>
    ensures { Reads reader.read_brick line.now result [] }
{
    let mut cursor = line.fork();
    cursor.expect_word(b"brick")?;
    let name = cursor.name()?;
    let domain = in_parens::<Range>(alloc, &mut cursor)?;
    cursor.end()?;
    Ok(RawLine::Brick { name, domain })
}

/// `array` NAME `on` NAME
#[tactic(auto, unfolding(crate::specs::Reader::read_array))]
fn array(line: &Cursor<'_>) -> Result<RawLine, LineError>
    ensures { Reads reader.read_array line.now result [] }
{
    let mut cursor = line.fork();
    cursor.expect_word(b"array")?;
    let name = cursor.name()?;
    cursor.expect_word(b"on")?;
    let layout = cursor.name()?;
    cursor.end()?;
    Ok(RawLine::Array { name, layout })
}

/// `field` NAME `on` NAME `faces` UPDATER { `,` UPDATER }
#[tactic(auto, unfolding(crate::specs::Reader::read_field))]
fn field(alloc: Global, line: &Cursor<'_>) -> Result<RawLine, LineError>
    ensures { Reads reader.read_field line.now result [] }
{
    let mut cursor = line.fork();
    cursor.expect_word(b"field")?;
    let name = cursor.name()?;
    cursor.expect_word(b"on")?;
    let layout = cursor.name()?;
    cursor.expect_word(b"faces")?;
    let faces = listed::<Updater>(alloc, &mut cursor)?;
    cursor.end()?;
    Ok(RawLine::Field {
        name,
        layout,
        faces,
    })
}

/// `stencil` NAME `lower` SMALLS `upper` SMALLS `=` BODY
#[tactic(auto, unfolding(crate::specs::Reader::read_stencil))]
fn stencil(alloc: Global, line: &Cursor<'_>) -> Result<RawLine, LineError>
    ensures { Reads reader.read_stencil line.now result [] }
{
    let mut cursor = line.fork();
    cursor.expect_word(b"stencil")?;
    let name = cursor.name()?;
    cursor.expect_word(b"lower")?;
    let lower = in_parens::<Small>(alloc, &mut cursor)?;
    cursor.expect_word(b"upper")?;
    let upper = in_parens::<Small>(alloc, &mut cursor)?;
    cursor.expect_sign(b"=")?;
    let body = expression(alloc, &mut cursor, Place::InBody, MOST_NESTING)?;
    cursor.end()?;
    Ok(RawLine::Stencil {
        name,
        lower,
        upper,
        body,
    })
}

/// `=`, `+=`, `-=`, `*=`
#[tactic(auto, unfolding(crate::specs::Reader::read_assign_sign))]
fn assign_sign(cursor: &mut Cursor<'_>) -> Result<RawAssign, LineError>
    ensures { Reads reader.read_assign_sign cursor.old result cursor.new }
{
    if cursor.eat_sign(b"=") {
        return Ok(RawAssign::Plain);
    }
    if cursor.eat_sign(b"+=") {
        return Ok(RawAssign::Add);
    }
    if cursor.eat_sign(b"-=") {
        return Ok(RawAssign::Sub);
    }
    if cursor.eat_sign(b"*=") {
        return Ok(RawAssign::Mul);
    }
    Err(LineError::Syntax)
}

/// VIEW, the sign of an assignment, EXPR
#[tactic(auto, unfolding(crate::specs::Reader::read_assignment))]
fn assignment(alloc: Global, line: &Cursor<'_>) -> Result<RawLine, LineError>
    ensures { Reads reader.read_assignment line.now result [] }
{
    let mut cursor = line.fork();
    let target = view(alloc, &mut cursor)?;
    let op = assign_sign(&mut cursor)?;
    let value = expression(alloc, &mut cursor, Place::InLine, MOST_NESTING)?;
    cursor.end()?;
    Ok(RawLine::Assign { target, op, value })
}

/// `scalar` NAME `=`
#[tactic(auto, unfolding(crate::specs::Reader::read_scalar_head))]
fn scalar_head(cursor: &mut Cursor<'_>) -> Result<Span, LineError>
    ensures { Reads reader.read_scalar_head cursor.old result cursor.new }
{
    cursor.expect_word(b"scalar")?;
    let name = cursor.name()?;
    cursor.expect_sign(b"=")?;
    Ok(name)
}

/// `scalar` NAME `=` EXPR
#[tactic(auto, unfolding(crate::specs::Reader::read_scalar))]
fn scalar(alloc: Global, line: &Cursor<'_>) -> Result<RawLine, LineError>
    ensures { Reads reader.read_scalar line.now result [] }
{
    let mut cursor = line.fork();
    let name = scalar_head(&mut cursor)?;
    let value = expression(alloc, &mut cursor, Place::InLine, MOST_NESTING)?;
    cursor.end()?;
    Ok(RawLine::Scalar { name, value })
}

/// `scalar` NAME `=` RED `(` EXPR `)`
#[tactic(auto, unfolding(crate::specs::Reader::read_reduction))]
fn reduction(alloc: Global, line: &Cursor<'_>) -> Result<RawLine, LineError>
    ensures { Reads reader.read_reduction line.now result [] }
{
    let mut cursor = line.fork();
    let name = scalar_head(&mut cursor)?;
    let word = cursor.reduction()?;
    let value = group(alloc, &mut cursor, Place::InLine, MOST_NESTING)?;
    cursor.end()?;
    Ok(RawLine::Reduce { name, word, value })
}

/// `print` VIEW
#[tactic(auto, unfolding(crate::specs::Reader::read_print))]
fn print(alloc: Global, line: &Cursor<'_>) -> Result<RawLine, LineError>
    ensures { Reads reader.read_print line.now result [] }
{
    let mut cursor = line.fork();
    cursor.expect_word(b"print")?;
    let view = view(alloc, &mut cursor)?;
    cursor.end()?;
    let RawView { name, subs } = view;
    match subs {
        None => Ok(RawLine::PrintName { name }),
        Some(subs) => Ok(RawLine::PrintView {
            view: RawView {
                name,
                subs: Some(subs),
            },
        }),
    }
}

/// `block`
#[tactic(auto, unfolding(crate::specs::Reader::read_block))]
fn block(line: &Cursor<'_>) -> Result<RawLine, LineError>
    ensures { Reads reader.read_block line.now result [] }
{
    let mut cursor = line.fork();
    cursor.expect_word(b"block")?;
    cursor.end()?;
    Ok(RawLine::Block)
}

/// `repeat` SMALL
#[tactic(auto, unfolding(crate::specs::Reader::read_repeat))]
fn repeat(line: &Cursor<'_>) -> Result<RawLine, LineError>
    ensures { Reads reader.read_repeat line.now result [] }
{
    let mut cursor = line.fork();
    cursor.expect_word(b"repeat")?;
    let turns = cursor.small()?;
    cursor.end()?;
    Ok(RawLine::Repeat { turns })
}

/// `end`
#[tactic(auto, unfolding(crate::specs::Reader::read_repeat_end))]
fn repeat_end(line: &Cursor<'_>) -> Result<RawLine, LineError>
    ensures { Reads reader.read_repeat_end line.now result [] }
{
    let mut cursor = line.fork();
    cursor.expect_word(b"end")?;
    cursor.end()?;
    Ok(RawLine::End)
}
