ghost use Rattle.std.specs.Prelude.{◌≡◌, ◌+◌, ◌*◌, ◌≤◌, ◌<◌, ℕ, IfOk, length, slice_index};
ghost use Rattle.pooma_expr.specs.Trees.{axes_needed, views_of};

use pooma_domain::{Cell, Strided};
use pooma_expr::{Code, Expr, Op, Reads, eval_at};
use pooma_num::{FaultKind, add, div, mul};
use pooma_view::{Slot, View};
use sqlite_items::Boxed;
use std::alloc::{AllocError, Global};
use std::time::{Clock, Duration, Instant};
use std::{fmt, io};

/// At how many positions each expression is evaluated.
const POSITIONS: u32 = 1_000_000;

// How many thousands that is: so many nanoseconds are as many picoseconds a position.
const THOUSANDS: u128 = 1000;

// How far apart the rows of a plane are, of which the five-point mean reads three.
const WIDTH: usize = 1000;

// A plane with a row and a number more on either side than there are positions.
const PLANE: usize = 1_002_002;

// How often each is timed; the least time counts.
const TURNS: usize = 7;

// What the codes read, at the most.
const MOST_READS: usize = 5;

// Two planes of numbers in one vector. Each read has them from a place of its own on.
#[derive(Clone, Copy)]
struct Planes<'a> {
    numbers: &'a [i64],
    starts: [usize; MOST_READS],
}

impl Reads for Planes<'_> {
    ghost use Rattle.pooma_bench.specs.Planes.{number_of, CanRead};

    ghost number = { λ planes read p. number_of planes.numbers.now planes.starts read p };

    ghost can_ask = { λ planes read p. CanRead planes.numbers.now planes.starts read p };

    fn value(&self, read: usize, p: &Cell) -> i64 {
        self.numbers[self.starts[read] + p.at(0) as usize]
    }
}

// What came of an expression over all positions.
#[derive(Clone, Copy, Debug, PartialEq, Eq)]
struct Tally {
    // The sum of the values, of which 64 bits are kept.
    sum: i64,
    faults: u32,
}

impl Tally {
    const NONE: Tally = Tally { sum: 0, faults: 0 };

    fn note(self, value: Result<i64, FaultKind>) -> Tally {
        match value {
            Ok(x) => Tally {
                sum: self.sum.wrapping_add(x),
                faults: self.faults,
            },
            Err(_) => Tally {
                sum: self.sum,
                faults: self.faults.saturating_add(1),
            },
        }
    }
}

// The code at each position.
fn by_code(code: &Code, planes: &Planes) -> Tally
    requires axes { axes_needed code.now ≤ 1 }
    requires reads { length (views_of code.now) ≤ MOST_READS }
    requires within { (read : ℕ) → read < MOST_READS → slice_index planes.now.starts read + POSITIONS ≤ length planes.now.numbers.now }
{
    let mut tally = Tally::NONE;
    for k in 0..POSITIONS {
        tally = tally.note(eval_at(code, planes, &Cell::of1(k as i32)));
    }
    tally
}

// The numbers of a plane from this place on, one for each position.
fn row<'a>(planes: &Planes<'a>, read: usize) -> &'a [i64]
    requires read { read < MOST_READS }
    requires within { slice_index planes.now.starts read + POSITIONS ≤ length planes.now.numbers.now }
    ensures { length result.now ≡ POSITIONS }
{
    let start = planes.starts[read];
    &planes.numbers[start..start + POSITIONS as usize]
}

// `A + B * 3`, as code written by hand has it.
fn sum_by_hand(a: &[i64], b: &[i64]) -> Tally {
    let mut tally = Tally::NONE;
    for (x, y) in a.iter().zip(b) {
        tally = tally.note(mul(*y, 3).and_then(|z| add(*x, z)));
    }
    tally
}

// The mean of five numbers.
fn mean(x: [i64; MOST_READS]) -> Result<i64, FaultKind> {
    div(add(add(add(add(x[0], x[1])?, x[2])?, x[3])?, x[4])?, 5)
}

// The five-point mean.
fn mean_by_hand(planes: &Planes) -> Tally
    requires within { (read : ℕ) → read < MOST_READS → slice_index planes.now.starts read + POSITIONS ≤ length planes.now.numbers.now }
{
    let rows = [
        row(planes, 0),
        row(planes, 1),
        row(planes, 2),
        row(planes, 3),
        row(planes, 4),
    ];
    let mut tally = Tally::NONE;
    for k in 0..POSITIONS as usize {
        tally = tally.note(mean([rows[0][k], rows[1][k], rows[2][k], rows[3][k], rows[4][k]]));
    }
    tally
}

// `where(A < B, A, B + 1)`.
fn choice_by_hand(a: &[i64], b: &[i64]) -> Tally {
    let mut tally = Tally::NONE;
    for (x, y) in a.iter().zip(b) {
        tally = tally.note(if x < y { Ok(*x) } else { add(*y, 1) });
    }
    tally
}

// The read of so many cells of an array, of which each position names one.
fn read(array: u32) -> Expr {
    let along = Strided {
        first: 0,
        stride: 1,
        count: POSITIONS,
    };
    Expr::Read(View::new(array, &[Slot::Along(along)]))
}

fn bin(alloc: Global, op: Op, a: Expr, b: Expr) -> Result<Expr, AllocError> {
    Ok(Expr::Bin(op, Boxed::new(alloc, a)?, Boxed::new(alloc, b)?))
}

// `A + B * 3`
fn sum(alloc: Global) -> Result<Expr, AllocError> {
    let product = bin(alloc, Op::Mul, read(1), Expr::Literal(3))?;
    bin(alloc, Op::Add, read(0), product)
}

// The five-point mean.
fn five_point_mean(alloc: Global) -> Result<Expr, AllocError> {
    let two = bin(alloc, Op::Add, read(0), read(0))?;
    let three = bin(alloc, Op::Add, two, read(0))?;
    let four = bin(alloc, Op::Add, three, read(0))?;
    let five = bin(alloc, Op::Add, four, read(0))?;
    bin(alloc, Op::Div, five, Expr::Literal(5))
}

// `where(A < B, A, B + 1)`
fn choice(alloc: Global) -> Result<Expr, AllocError> {
    let test = bin(alloc, Op::Less, read(0), read(1))?;
    let next = bin(alloc, Op::Add, read(1), Expr::Literal(1))?;
    let test = Boxed::new(alloc, test)?;
    Ok(Expr::Where(test, Boxed::new(alloc, read(0))?, Boxed::new(alloc, next)?))
}

// The code of an expression that asks for no more than a measurement has.
fn compiled(alloc: Global, expr: &Expr) -> io::Result<Code>
    ensures axes { IfOk result (λ code. axes_needed code ≤ 1) }
    ensures reads { IfOk result (λ code. length (views_of code) ≤ MOST_READS) }
{
    let may_be = expr.is_within_depth(256)
        && expr.reads_left(MOST_READS).is_some()
        && expr.scalars_needed() == 0
        && expr.axes_needed() <= 1;
    if !may_be {
        return Err(io::Error::from(io::ErrorKind::InvalidInput));
    }
    Ok(Code::of(alloc, expr, &[])?)
}

// The same of an expression that is done with then.
fn code_of(alloc: Global, expr: Expr) -> io::Result<Code>
    ensures axes { IfOk result (λ code. axes_needed code ≤ 1) }
    ensures reads { IfOk result (λ code. length (views_of code) ≤ MOST_READS) }
{
    let code = compiled(alloc, &expr);
    drop(expr);
    code
}

// Two planes of small numbers.
fn numbers(alloc: Global) -> Result<Vec<i64>, AllocError>
    ensures { IfOk result (λ v. length v.items ≡ 2 * PLANE) }
{
    let mut numbers = Vec::with_capacity(alloc, 2 * PLANE)?;
    for k in 0..2 * PLANE {
        numbers.push((k * 7919 % 1009) as i64 - 500)?;
    }
    Ok(numbers)
}

/// How long an expression took at all positions, and what came of it.
#[derive(Clone, Copy, Debug)]
struct Evaluation {
    /// By its code.
    code: Duration,
    /// By a loop that was written by hand.
    by_hand: Duration,
    /// The sum of its values, of which 64 bits are kept.
    sum: i64,
    /// Whether both came to the same.
    is_same: bool,
}

impl fmt::Display for Evaluation {
    fn fmt<W: fmt::Write>(&self, f: &mut fmt::Formatter<W>) -> fmt::Result {
        let code = self.code.as_nanos();
        let by_hand = self.by_hand.as_nanos().max(1);
        write!(
            f,
            "{} picoseconds a position by code, {} by hand, ratio {}",
            code / THOUSANDS,
            by_hand / THOUSANDS,
            code / by_hand
        )
    }
}

impl Evaluation {
    // The least time of each of the two.
    fn or_less(self, other: Evaluation) -> Evaluation {
        Evaluation {
            code: self.code.min(other.code),
            by_hand: self.by_hand.min(other.by_hand),
            sum: self.sum,
            is_same: self.is_same && other.is_same && self.sum == other.sum,
        }
    }

    // What was done from one moment to the next, and from there to the last.
    fn new(moments: [Instant; 3], tallies: [Tally; 2]) -> Evaluation {
        Evaluation {
            code: moments[1].duration_since(moments[0]),
            by_hand: moments[2].duration_since(moments[1]),
            sum: tallies[0].sum,
            is_same: tallies[0] == tallies[1],
        }
    }
}

// How long an expression took at all positions, by its code and by hand.
fn timed<R: Clock, F: Fn() -> Tally>(
    rt: &R,
    code: &Code,
    planes: &Planes,
    by_hand: F,
) -> io::Result<Evaluation>
    requires axes { axes_needed code.now ≤ 1 }
    requires reads { length (views_of code.now) ≤ MOST_READS }
    requires within { (read : ℕ) → read < MOST_READS → slice_index planes.now.starts read + POSITIONS ≤ length planes.now.numbers.now }
    requires callable { F.IsAlwaysCallable by_hand }
{
    let begun = Instant::now(rt)?;
    let tally = by_code(code, planes);
    let evaluated = Instant::now(rt)?;
    let other = by_hand();
    let done = Instant::now(rt)?;
    Ok(Evaluation::new([begun, evaluated, done], [tally, other]))
}

// The expression `A + B * 3` of two rows.
fn sums<R: Clock + AllocGlobal>(rt: &R, planes: &Planes) -> io::Result<Evaluation>
    requires within { (read : ℕ) → read < MOST_READS → slice_index planes.now.starts read + POSITIONS ≤ length planes.now.numbers.now }
{
    let code = code_of(rt.alloc(), sum(rt.alloc())?)?;
    let (a, b) = (row(planes, 0), row(planes, 1));
    timed(rt, &code, planes, || sum_by_hand(a, b))
}

// The five-point mean.
fn means<R: Clock + AllocGlobal>(rt: &R, planes: &Planes) -> io::Result<Evaluation>
    requires within { (read : ℕ) → read < MOST_READS → slice_index planes.now.starts read + POSITIONS ≤ length planes.now.numbers.now }
{
    let code = code_of(rt.alloc(), five_point_mean(rt.alloc())?)?;
    timed(rt, &code, planes, || mean_by_hand(planes))
}

// The expression `where(A < B, A, B + 1)` of two rows.
fn choices<R: Clock + AllocGlobal>(rt: &R, planes: &Planes) -> io::Result<Evaluation>
    requires within { (read : ℕ) → read < MOST_READS → slice_index planes.now.starts read + POSITIONS ≤ length planes.now.numbers.now }
{
    let code = code_of(rt.alloc(), choice(rt.alloc())?)?;
    let (a, b) = (row(planes, 0), row(planes, 1));
    timed(rt, &code, planes, || choice_by_hand(a, b))
}

// `A + B * 3`, a five-point mean and `where(A < B, A, B + 1)`, in this order, once.
fn evaluate_all<R: Clock + AllocGlobal>(rt: &R, numbers: &[i64]) -> io::Result<[Evaluation; 3]>
    requires { length numbers.now ≡ 2 * PLANE }
{
    let side_by_side = Planes {
        numbers,
        starts: [0, PLANE, 0, PLANE, 0],
    };
    let around = Planes {
        numbers,
        starts: [1, WIDTH, WIDTH + 1, WIDTH + 2, 2 * WIDTH + 1],
    };
    Ok([
        sums(rt, &side_by_side)?,
        means(rt, &around)?,
        choices(rt, &side_by_side)?,
    ])
}

// Writes what came of an expression, and how long it took.
fn write_evaluation<R: Print + Eprint>(
    rt: &R,
    name: &str,
    evaluation: Evaluation,
) -> io::Result<()> {
    let by_hand = if evaluation.is_same {
        "the same"
    } else {
        "something else"
    };
    println!(rt;
        "eval: {name} over {POSITIONS} positions, sum {}, by hand {by_hand}",
        evaluation.sum
    )?;
    eprintln!(rt; "{name}: {evaluation}")
}

/// Evaluates three expressions over many positions, and writes what came of them and how long it took.
pub fn report<R: Clock + AllocGlobal + Print + Eprint>(rt: &R) -> io::Result<()> {
    let numbers = numbers(rt.alloc())?;
    let mut evaluations = evaluate_all(rt, &numbers)?;
    for _ in 1..TURNS {
        let [a, b, c] = evaluate_all(rt, &numbers)?;
        let [x, y, z] = evaluations;
        evaluations = [x.or_less(a), y.or_less(b), z.or_less(c)];
    }
    let [sum, mean, choice] = evaluations;
    write_evaluation(rt, "A + B * 3", sum)?;
    write_evaluation(rt, "five-point mean", mean)?;
    write_evaluation(rt, "where(A < B, A, B + 1)", choice)
}
