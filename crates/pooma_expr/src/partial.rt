//! Reductions of which a part is done.
ghost use Rattle.std.specs.Prelude.{◌≡◌, ◌+◌, ◌^◌, ◌<◌, ◌≤◌, ℤ, List, [], ◌∷◌, ◌++◌, count_by, fold, length};
ghost use Rattle.pooma_expr.specs.Reductions.{AllFit, StandsFor, is_set, join_all, join_of, result_over};

use crate::reduction::Reduction;
use pooma_lanes::sum_row;
use pooma_num::{FaultKind, Total};
use std::marker::Model;

/// Stands for a list of at most 2^23 numbers of a reduction. What is kept of the list doesn't grow with it.
///
/// The calls speak of every list that a partial stands for: `start` of none, `push` and `merge` of those that went in, in
/// their order. Two are not compared: the same numbers, merged in another order, may be kept in another way.
#[derive(Clone, Copy, Debug)]
pub struct Partial {
    reduction: Reduction,
    total: Total,
    set: u32,
    joined: i64,
}

impl Model for Partial {
    ghost use Rattle.std.specs.Prelude.{◌≤◌};
    ghost use Rattle.pooma_expr.specs.Reductions.{Kept};

    ghost Value = { Kept };

    ghost view = { λ p. record { reduction = p.reduction; total = p.total; set = p.set; joined = p.joined } };

    // Each number that is not 0 is one of those that are counted.
    ghost invariant = { λ p. p.set ≤ p.total.count };

    ghost inverse = { λ k. record { reduction = k.reduction; total = k.total; set = k.set; joined = k.joined } };
}

impl Partial {
    /// The partial of no numbers.
    pub fn start(r: Reduction) -> Partial
        ensures reduction { result.reduction ≡ r }
        ensures numbers { StandsFor [] result }
    {
        Partial {
            reduction: r,
            total: Total::new(),
            set: 0,
            joined: 0,
        }
    }

    /// How many numbers it stands for.
    pub fn count(&self) -> u32
        ensures count { result ≡ self.now.total.count }
        ensures limit { result ≤ 2 ^ 23 }
    {
        self.total.count()
    }

    // The partial of one number.
    fn of_one(r: Reduction, v: i64) -> Partial
        ensures reduction { result.reduction ≡ r }
        ensures count { result.total.count ≡ 1 }
        ensures numbers { StandsFor (v ∷ []) result }
    {
        let mut total = Total::new();
        total.push(v);
        Partial {
            reduction: r,
            total,
            set: u32::from(v != 0),
            joined: v,
        }
    }

    /// Puts one number more at the end.
    pub fn push(&mut self, v: i64)
        requires { self.old.total.count < 2 ^ 23 }
        ensures reduction { self.new.reduction ≡ self.old.reduction }
        ensures count { self.new.total.count ≡ self.old.total.count + 1 }
        ensures numbers { (xs : List ℤ) → StandsFor xs self.old → StandsFor (xs ++ v ∷ []) self.new }
    {
        let one = Partial::of_one(self.reduction, v);
        self.merge(one);
    }

    // The partial of a row of numbers, whose sum is taken at once.
    fn of_row(r: Reduction, values: &[i64]) -> Partial
        requires { length values.now ≤ 2 ^ 23 }
        ensures reduction { result.reduction ≡ r }
        ensures count { result.total.count ≡ length values.now }
        ensures numbers { StandsFor values.now result }
    {
        let mut total = Total::new();
        total.add_row(sum_row(values), values.len() as u32);
        Partial {
            reduction: r,
            total,
            set: count_set(values),
            joined: join_row(r, values),
        }
    }

    /// Puts the numbers of a row at the end, as if each were pushed in turn. It takes no memory.
    pub fn push_row(&mut self, values: &[i64])
        requires { self.old.total.count + length values.now ≤ 2 ^ 23 }
        ensures reduction { self.new.reduction ≡ self.old.reduction }
        ensures count { self.new.total.count ≡ self.old.total.count + length values.now }
        ensures numbers { (xs : List ℤ) → StandsFor xs self.old → StandsFor (xs ++ values.now) self.new }
    {
        let row = Partial::of_row(self.reduction, values);
        self.merge(row);
    }

    /// Puts the numbers of another partial of the reduction at the end.
    pub fn merge(&mut self, other: Partial)
        requires reduction { self.old.reduction ≡ other.reduction }
        requires count { self.old.total.count + other.total.count ≤ 2 ^ 23 }
        ensures reduction { self.new.reduction ≡ self.old.reduction }
        ensures count { self.new.total.count ≡ self.old.total.count + other.total.count }
        ensures numbers { (xs ys : List ℤ) → StandsFor xs self.old → StandsFor ys other → StandsFor (xs ++ ys) self.new }
    {
        let (count, more) = (self.total.count(), other.total.count());
        self.joined = join_parts(self.reduction, self.joined, count, other.joined, more);
        self.set += other.set;
        self.total.merge(other.total);
    }

    /// The result of the reduction over all numbers. `Overflow` exactly where it is their sum, and doesn't fit 64 bits.
    pub fn finish(self) -> Result<i64, FaultKind>
        requires { 1 ≤ self.total.count }
        ensures { (xs : List ℤ) → StandsFor xs self → result ≡ result_over self.reduction xs }
    {
        match self.reduction {
            Reduction::Sum => self.total.finish(),
            Reduction::Min | Reduction::Max | Reduction::BitAnd | Reduction::BitOr => Ok(
                self.joined,
            ),
            Reduction::All => Ok(i64::from(self.set == self.total.count())),
            Reduction::Any => Ok(i64::from(self.set > 0)),
            Reduction::Count => Ok(i64::from(self.set)),
        }
    }
}

// What is joined of two numbers; the first, where the reduction doesn't join them.
fn join(reduction: Reduction, x: i64, y: i64) -> i64
    ensures { result ≡ join_of reduction x y }
{
    match reduction {
        Reduction::Min => x.min(y),
        Reduction::Max => x.max(y),
        Reduction::BitAnd => x & y,
        Reduction::BitOr => x | y,
        Reduction::Sum | Reduction::All | Reduction::Any | Reduction::Count => x,
    }
}

// How many of the numbers are not 0.
fn count_set(values: &[i64]) -> u32
    requires { length values.now ≤ 2 ^ 23 }
    ensures set { result ≡ count_by is_set values.now }
    ensures most { result ≤ length values.now }
    ensures fit { AllFit values.now }
{
    let mut set = 0u32;
    for v in values {
        set += one_if_set(*v);
    }
    set
}

// One where the number is not 0.
fn one_if_set(v: i64) -> u32
    ensures set { result ≡ count_by is_set (v ∷ []) }
    ensures most { result ≤ 1 }
{
    u32::from(v != 0)
}

// What is joined of all numbers, one after another; 0 where there is none.
fn join_row(reduction: Reduction, values: &[i64]) -> i64
    ensures { result ≡ join_all (join_of reduction) values.now }
{
    match values {
        [] => 0,
        [first, rest @ ..] => join_on(reduction, *first, rest),
    }
}

// What is joined of a number and those behind it, one after another.
fn join_on(reduction: Reduction, first: i64, rest: &[i64]) -> i64
    ensures { result ≡ fold (join_of reduction) first rest.now }
{
    let mut joined = first;
    for v in rest {
        joined = join(reduction, joined, *v);
    }
    joined
}

// What is joined of two lists, of which so many numbers were joined to these two; an empty list leaves what is joined of the
// other.
fn join_parts(reduction: Reduction, x: i64, count: u32, y: i64, more: u32) -> i64
    ensures { (xs ys : List ℤ) → AllFit xs → AllFit ys → count ≡ length xs → more ≡ length ys
        → x ≡ join_all (join_of reduction) xs → y ≡ join_all (join_of reduction) ys
        → result ≡ join_all (join_of reduction) (xs ++ ys) }
{
    if count == 0 {
        y
    } else if more == 0 {
        x
    } else {
        join(reduction, x, y)
    }
}
