//! Codes of one operation.
ghost use Rattle.std.specs.Prelude.{◌≡◌, ◌≢◌, ℕ, ℤ, List, [], length, IfSome};
ghost use Rattle.pooma_expr.specs.Code.{emitted};
ghost use Rattle.pooma_expr.specs.Reads.{AgreeWith};
ghost use Rattle.pooma_expr.specs.Single.{is_by_rows, is_read, operand_of, operand_number, last_of, single_of};
ghost use Rattle.pooma_expr.specs.Trees.{views_of};
ghost use Rattle.pooma_expr.specs.Values.{Contents, result_of, value};

use crate::code::Code;
use crate::operation::Operation;
use crate::tree::Op;

/// What an operation of a code takes.
#[derive(Clone, Copy, Debug, PartialEq, Eq)]
pub enum Operand {
    /// The number of this read, by the views' places in `Code::reads`.
    Read(usize),
    /// This number.
    Literal(i64),
}

/// A code of one operation on two operands, at least one of which is a read.
#[derive(Clone, Copy, Debug, PartialEq, Eq)]
pub struct Single {
    /// A sum, a difference, the lesser or the greater one, or a comparison.
    pub op: Op,
    /// The first operand.
    pub left: Operand,
    /// The second operand.
    pub right: Operand,
}

impl Code {
    /// The one operation that the code is: a sum, a difference, a minimum, a maximum or a comparison of two operands that are
    /// reads or literals, at least one of them a read. None where it is not. A bound scalar is a literal. It takes no memory.
    pub fn single(&self) -> Option<Single>
        ensures found { result ≡ single_of (emitted self.now 0).operations }
        ensures value { IfSome result (λ s. (has : Contents) (p : List ℤ) (number : ℕ → List ℤ → ℤ) → AgreeWith has (views_of self.now) p number
            → value [] has self.now p ≡ result_of s.op (operand_number (λ read. number read p) s.left) (operand_number (λ read. number read p) s.right)) }
    {
        single_in(self.operations())
    }
}

fn single_in(operations: &[Operation]) -> Option<Single>
    ensures { result ≡ single_of operations.now }
{
    if operations.len() != 3 {
        return None;
    }
    last_of(
        operand_of(operations[0]),
        operand_of(operations[1]),
        operations[2],
    )
}

fn operand_of(operation: Operation) -> Option<Operand>
    ensures { result ≡ operand_of operation }
{
    match operation {
        Operation::Push(x) => Some(Operand::Literal(x)),
        Operation::PushRead(read) => Some(Operand::Read(read)),
        _ => None,
    }
}

fn last_of(left: Option<Operand>, right: Option<Operand>, last: Operation) -> Option<Single>
    ensures { result ≡ last_of left right last }
{
    let Operation::Apply(op) = last else {
        return None;
    };
    let Some(left) = left else {
        return None;
    };
    let Some(right) = right else {
        return None;
    };
    if !is_by_rows(op) {
        return None;
    }
    if is_read(left) | is_read(right) {
        Some(Single { op, left, right })
    } else {
        None
    }
}

fn is_by_rows(op: Op) -> bool
    ensures { result ≡ is_by_rows op }
{
    match op {
        Op::Mul | Op::Div | Op::Rem | Op::BitAnd | Op::BitOr => false,
        Op::Add | Op::Sub | Op::Min | Op::Max => true,
        Op::Less | Op::LessEq | Op::Greater | Op::GreaterEq | Op::Equal | Op::Unequal => true,
    }
}

fn is_read(operand: Operand) -> bool
    ensures { result ≡ is_read operand }
{
    match operand {
        Operand::Read(_) => true,
        Operand::Literal(_) => false,
    }
}
