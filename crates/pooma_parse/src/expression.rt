//! Expressions, one function a production. The operators of a level are a loop, so what recurs is what is nested alone.
ghost use Rattle.std.specs.Prelude.{◌≡◌};
ghost use Rattle.pooma_parse.specs.Reader as reader;
ghost use Rattle.pooma_parse.specs.Reader.{Makes, Reads, level_of, read_level, read_operand};
ghost use Rattle.pooma_parse.specs.Expressions.{ADD, COMPARE, MUL};
ghost use Rattle.pooma_parse.specs.declared.form.RawExpr.TheVariants as tree;

use crate::cursor::{Cursor, MOST_NUM};
use crate::error::LineError;
use crate::form::{RawExpr, RawOp, RawView};
use crate::lists::{Int, in_parens};
use crate::view::{brackets, view};
use sqlite_items::Boxed;
use std::alloc::Global;

/// Where an expression stands.
#[derive(Clone, Copy, Debug, PartialEq, Eq)]
pub enum Place {
    /// In a line of its own.
    InLine,
    /// In the body of a stencil.
    InBody,
}

/// A level whose operators may stand one behind another.
#[derive(Clone, Copy, Debug, PartialEq, Eq)]
pub enum Chained {
    /// `|` between ANDs; the outermost.
    Expr,
    /// `&` between COMPAREs.
    And,
    /// `+` and `-` between MULs.
    Add,
    /// `*`, `/` and `%` between UNARYs.
    Mul,
}

/// The operator of a level that comes next.
#[tactic(auto, unfolding(crate::specs::Reader::operator_at))]
fn operator(cursor: &Cursor<'_>, level: Chained) -> Option<RawOp>
    ensures { result ≡ reader.operator_at (level_of level) cursor.now }
{
    match level {
        Chained::Expr => cursor.begins_sign(b"|").then_some(RawOp::BitOr),
        Chained::And => cursor.begins_sign(b"&").then_some(RawOp::BitAnd),
        Chained::Add => sum_operator(cursor),
        Chained::Mul => product_operator(cursor),
    }
}

/// `+` or `-`, where one of them comes next.
#[tactic(auto, unfolding(crate::specs::Reader::operator_at))]
fn sum_operator(cursor: &Cursor<'_>) -> Option<RawOp>
    ensures { result ≡ reader.operator_at ADD cursor.now }
{
    if cursor.begins_sign(b"+") {
        Some(RawOp::Add)
    } else if cursor.begins_sign(b"-") {
        Some(RawOp::Sub)
    } else {
        None
    }
}

/// `*`, `/` or `%`, where one of them comes next.
#[tactic(auto, unfolding(crate::specs::Reader::operator_at))]
fn product_operator(cursor: &Cursor<'_>) -> Option<RawOp>
    ensures { result ≡ reader.operator_at MUL cursor.now }
{
    if cursor.begins_sign(b"*") {
        Some(RawOp::Mul)
    } else if cursor.begins_sign(b"/") {
        Some(RawOp::Div)
    } else if cursor.begins_sign(b"%") {
        Some(RawOp::Rem)
    } else {
        None
    }
}

/// One of the six comparisons, where one comes next.
#[tactic(auto, unfolding(crate::specs::Reader::operator_at))]
fn comparison(cursor: &Cursor<'_>) -> Option<RawOp>
    ensures { result ≡ reader.operator_at COMPARE cursor.now }
{
    if cursor.begins_sign(b"<") {
        Some(RawOp::Less)
    } else if cursor.begins_sign(b"<=") {
        Some(RawOp::LessEq)
    } else if cursor.begins_sign(b">") {
        Some(RawOp::Greater)
    } else if cursor.begins_sign(b">=") {
        Some(RawOp::GreaterEq)
    } else if cursor.begins_sign(b"==") {
        Some(RawOp::Equal)
    } else if cursor.begins_sign(b"!=") {
        Some(RawOp::Unequal)
    } else {
        None
    }
}

/// The tree of an operator with its two operands.
fn joined(alloc: Global, op: RawOp, left: RawExpr, right: RawExpr) -> Result<RawExpr, LineError>
    ensures { Makes (tree.Bin op left right) result }
{
    let left = Boxed::new(alloc, left)?;
    let right = Boxed::new(alloc, right)?;
    Ok(RawExpr::Bin(op, left, right))
}

/// The tree of a minus before an operand.
fn negated(alloc: Global, operand: RawExpr) -> Result<RawExpr, LineError>
    ensures { Makes (tree.Neg operand) result }
{
    Ok(RawExpr::Neg(Boxed::new(alloc, operand)?))
}

/// The tree of an `abs`.
fn absolute(alloc: Global, operand: RawExpr) -> Result<RawExpr, LineError>
    ensures { Makes (tree.Abs operand) result }
{
    Ok(RawExpr::Abs(Boxed::new(alloc, operand)?))
}

/// `index(` SMALL `)` in a line, and `@(` INT { `,` INT } `)` in a body.
#[tactic(auto, unfolding(crate::specs::Reader::read_own, crate::specs::Reader::read_parens))]
fn own(alloc: Global, cursor: &mut Cursor<'_>, place: Place) -> Result<RawExpr, LineError>
    ensures { Reads (reader.read_own place) cursor.old result cursor.new }
{
    match place {
        Place::InLine => {
            cursor.expect_word(b"index")?;
            cursor.expect_sign(b"(")?;
            let axis = cursor.small()?;
            cursor.expect_sign(b")")?;
            Ok(RawExpr::Index(axis))
        }
        Place::InBody => {
            cursor.expect_sign(b"@")?;
            let offset = in_parens::<Int>(alloc, cursor)?;
            Ok(RawExpr::At(offset))
        }
    }
}

/// Whether a name comes next, which only a line may have in its expressions.
fn begins_named(cursor: &Cursor<'_>, place: Place) -> bool
    ensures { result ≡ reader.begins_named place cursor.now }
{
    match place {
        Place::InLine => cursor.begins_name(),
        Place::InBody => false,
    }
}

/// VIEW, or NAME `(` VIEW `)` where a parenthesis may be opened.
#[tactic(auto, unfolding(crate::specs::Reader::read_named, crate::specs::Reader::read_parens))]
fn named(alloc: Global, cursor: &mut Cursor<'_>, deep: bool) -> Result<RawExpr, LineError>
    ensures { Reads (reader.read_named deep) cursor.old result cursor.new }
{
    let name = cursor.name()?;
    if !cursor.begins_sign(b"(") {
        let subs = brackets(alloc, cursor)?;
        return Ok(RawExpr::View(RawView { name, subs }));
    }
    if !deep {
        return Err(LineError::Syntax);
    }
    cursor.expect_sign(b"(")?;
    let view = view(alloc, cursor)?;
    cursor.expect_sign(b")")?;
    Ok(RawExpr::Apply {
        stencil: name,
        view,
    })
}

/// EXPR, AND, ADD and MUL: operands, with one of the level's operators between each two.
#[cycle(expression)]
#[tactic(auto, using(crate::proofs::Turns::operand_read), unfolding(crate::specs::Reader::read_repeated, crate::specs::Reader::read_operands))]
fn chain(
    alloc: Global,
    cursor: &mut Cursor<'_>,
    level: Chained,
    place: Place,
    depth: u32,
) -> Result<RawExpr, LineError>
    ensures { Reads (read_level level (reader.unary_within place depth)) cursor.old result cursor.new }
{
    let mut whole = operand(alloc, cursor, level, place, depth)?;
    for _turn in 0..cursor.len() {
        let Some(op) = operator(cursor, level) else {
            return Ok(whole);
        };
        cursor.step();
        let next = operand(alloc, cursor, level, place, depth)?;
        whole = joined(alloc, op, whole, next)?;
    }
    Ok(whole)
}

/// What stands between the operators of a level.
#[cycle(expression)]
fn operand(
    alloc: Global,
    cursor: &mut Cursor<'_>,
    level: Chained,
    place: Place,
    depth: u32,
) -> Result<RawExpr, LineError>
    ensures { Reads (read_operand level (reader.unary_within place depth)) cursor.old result cursor.new }
{
    match level {
        Chained::Expr => chain(alloc, cursor, Chained::And, place, depth),
        Chained::And => compared(alloc, cursor, place, depth),
        Chained::Add => chain(alloc, cursor, Chained::Mul, place, depth),
        Chained::Mul => unary(alloc, cursor, place, depth),
    }
}

/// COMPARE: ADD, or two with a comparison between them.
#[cycle(expression)]
#[tactic(auto, unfolding(crate::specs::Reader::read_compared))]
fn compared(
    alloc: Global,
    cursor: &mut Cursor<'_>,
    place: Place,
    depth: u32,
) -> Result<RawExpr, LineError>
    ensures { Reads (reader.read_compare (reader.unary_within place depth)) cursor.old result cursor.new }
{
    let left = chain(alloc, cursor, Chained::Add, place, depth)?;
    let Some(op) = comparison(cursor) else {
        return Ok(left);
    };
    cursor.step();
    let right = chain(alloc, cursor, Chained::Add, place, depth)?;
    joined(alloc, op, left, right)
}

/// UNARY: `-` UNARY, or PRIMARY.
#[cycle(expression)]
#[tactic(auto, using(crate::proofs::Depths::unary_plain, crate::proofs::Depths::unary_shut, crate::proofs::Depths::unary_minus))]
fn unary(
    alloc: Global,
    cursor: &mut Cursor<'_>,
    place: Place,
    depth: u32,
) -> Result<RawExpr, LineError>
    ensures { Reads (reader.unary_within place depth) cursor.old result cursor.new }
{
    if !cursor.eat_sign(b"-") {
        return primary(alloc, cursor, place, depth);
    }
    if depth == 0 {
        return Err(LineError::Syntax);
    }
    let operand = unary(alloc, cursor, place, depth - 1)?;
    negated(alloc, operand)
}

/// PRIMARY.
#[cycle(expression)]
#[tactic(auto, using(crate::proofs::Depths::primary_number, crate::proofs::Depths::primary_named, crate::proofs::Depths::primary_shut, crate::proofs::Depths::primary_nested))]
fn primary(
    alloc: Global,
    cursor: &mut Cursor<'_>,
    place: Place,
    depth: u32,
) -> Result<RawExpr, LineError>
    ensures { Reads (reader.primary_within place depth) cursor.old result cursor.new }
{
    if cursor.begins_number() {
        return Ok(RawExpr::Number(cursor.number(MOST_NUM)?));
    }
    if begins_named(cursor, place) {
        return named(alloc, cursor, depth > 0);
    }
    if depth == 0 {
        return Err(LineError::Syntax);
    }
    nested(alloc, cursor, place, depth - 1)
}

/// The cases of PRIMARY with parentheses, but for NAME `(` VIEW `)`. The depth is that of what is in them.
#[cycle(expression)]
#[tactic(auto, unfolding(crate::specs::Reader::read_nested))]
fn nested(
    alloc: Global,
    cursor: &mut Cursor<'_>,
    place: Place,
    depth: u32,
) -> Result<RawExpr, LineError>
    ensures { Reads (reader.read_nested place (reader.expr_within place depth)) cursor.old result cursor.new }
{
    if cursor.begins_sign(b"(") {
        return group(alloc, cursor, place, depth);
    }
    if cursor.eat_word(b"abs") {
        let only = group(alloc, cursor, place, depth)?;
        return absolute(alloc, only);
    }
    if cursor.eat_word(b"min") {
        return both(alloc, cursor, RawOp::Min, place, depth);
    }
    if cursor.eat_word(b"max") {
        return both(alloc, cursor, RawOp::Max, place, depth);
    }
    if cursor.eat_word(b"where") {
        return choice(alloc, cursor, place, depth);
    }
    own(alloc, cursor, place)
}

/// `(` EXPR `)`
#[cycle(expression)]
#[tactic(auto, unfolding(crate::specs::Reader::read_parens))]
pub fn group(
    alloc: Global,
    cursor: &mut Cursor<'_>,
    place: Place,
    depth: u32,
) -> Result<RawExpr, LineError>
    ensures { Reads (reader.read_parens (reader.expr_within place depth)) cursor.old result cursor.new }
{
    cursor.expect_sign(b"(")?;
    let only = chain(alloc, cursor, Chained::Expr, place, depth)?;
    cursor.expect_sign(b")")?;
    Ok(only)
}

/// EXPR with this sign behind it, in a box.
#[cycle(expression)]
#[tactic(auto, unfolding(crate::specs::Reader::read_closed))]
fn closed(
    alloc: Global,
    cursor: &mut Cursor<'_>,
    sign: &[u8],
    place: Place,
    depth: u32,
) -> Result<Boxed<RawExpr>, LineError>
    ensures { Reads (reader.read_closed (reader.expr_within place depth) sign.now) cursor.old result cursor.new }
{
    let only = chain(alloc, cursor, Chained::Expr, place, depth)?;
    cursor.expect_sign(sign)?;
    Ok(Boxed::new(alloc, only)?)
}

/// `(` EXPR `,` EXPR `)`, joined by an operator.
#[cycle(expression)]
#[tactic(auto, unfolding(crate::specs::Reader::read_both))]
fn both(
    alloc: Global,
    cursor: &mut Cursor<'_>,
    op: RawOp,
    place: Place,
    depth: u32,
) -> Result<RawExpr, LineError>
    ensures { Reads (reader.read_both op (reader.expr_within place depth)) cursor.old result cursor.new }
{
    cursor.expect_sign(b"(")?;
    let left = closed(alloc, cursor, b",", place, depth)?;
    let right = closed(alloc, cursor, b")", place, depth)?;
    Ok(RawExpr::Bin(op, left, right))
}

/// `(` EXPR `,` EXPR `,` EXPR `)` behind a `where`.
#[cycle(expression)]
#[tactic(auto, unfolding(crate::specs::Reader::read_choice))]
fn choice(
    alloc: Global,
    cursor: &mut Cursor<'_>,
    place: Place,
    depth: u32,
) -> Result<RawExpr, LineError>
    ensures { Reads (reader.read_choice (reader.expr_within place depth)) cursor.old result cursor.new }
{
    cursor.expect_sign(b"(")?;
    let condition = closed(alloc, cursor, b",", place, depth)?;
    let then_value = closed(alloc, cursor, b",", place, depth)?;
    let else_value = closed(alloc, cursor, b")", place, depth)?;
    Ok(RawExpr::Where(condition, then_value, else_value))
}

/// EXPR, or BODY: an expression in which so many parentheses and minuses may stand one in another.
pub fn expression(
    alloc: Global,
    cursor: &mut Cursor<'_>,
    place: Place,
    depth: u32,
) -> Result<RawExpr, LineError>
    ensures { Reads (reader.expr_within place depth) cursor.old result cursor.new }
{
    chain(alloc, cursor, Chained::Expr, place, depth)
}
