//! Lists of numbers in their two forms.
ghost use Rattle.std.specs.Prelude.{◌≡◌, ◌≢◌, ◌↔◌, ◌<◌, pos, [], true, false, length, replicate, slice_get, slice_index_or, slice_set, All, IsTrue, IsSome, Some, IfSome, IfNone, OnOk, OnErr, IfOk, IfErr};
ghost use Rattle.pooma_compress.specs.Kept.{AreEqual, IsOther};
ghost use Rattle.pooma_compress.specs.Rows.{IsRowOf, IsRowWithin, IsSameBeside};

use crate::rows;
use std::alloc::{AllocError, Global};
use std::marker::Model;

/// How a list is kept.
#[derive(Debug, Drop)]
enum Form {
    /// All numbers are this value.
    One { value: i64, len: usize },

    /// Each number by itself.
    Whole(Vec<i64>),
}

/// The numbers of some cells: a list that takes no memory while it is kept as one value.
///
/// `compress` and `expand` go from one form to the other, and leave the list. A list is written to in the whole form alone.
#[derive(Debug, Drop)]
pub struct Cells {
    form: Form,

    // Where a number that is not the first one was when `compress` last looked for one.
    other: usize,
}

impl Model for Cells {
    ghost use Rattle.pooma_compress.specs.Kept.{Kept};

    ghost Value = { Kept };

    ghost use Rattle.pooma_compress.specs.Forms.{numbers_of, is_one_form};

    ghost view = { λ c. record { numbers = numbers_of c.form; one = is_one_form c.form } };
}

impl Cells {
    /// So many cells of this value, kept as one.
    pub fn one(value: i64, len: usize) -> Cells
        ensures { result ≡ record { numbers = replicate len value; one = true } }
    {
        Cells {
            form: Form::One { value, len },
            other: 0,
        }
    }

    /// How many numbers there are.
    pub fn len(&self) -> usize
        ensures { result ≡ length self.now.numbers }
    {
        match &self.form {
            Form::One { len, .. } => *len,
            Form::Whole(values) => values.len(),
        }
    }

    /// Whether there are no numbers.
    pub fn is_empty(&self) -> bool
        ensures { IsTrue result ↔ (self.now.numbers ≡ []) }
    {
        self.len() == 0
    }

    /// The number at this place, counted from 0.
    pub fn get(&self, k: usize) -> i64
        requires { k < length self.now.numbers }
        ensures { slice_get self.now.numbers k ≡ Some result }
    {
        match &self.form {
            Form::One { value, .. } => *value,
            Form::Whole(values) => values[k],
        }
    }

    /// Whether the list is kept as one value.
    pub fn is_one(&self) -> bool
        ensures { result ≡ self.now.one }
    {
        matches!(self.form, Form::One { .. })
    }

    /// The number that all are, if the list is kept as one value.
    pub fn one_value(&self) -> Option<i64>
        ensures found { IsSome result ↔ IsTrue self.now.one }
        ensures numbers { IfSome result (λ v. self.now.numbers ≡ replicate (length self.now.numbers) v) }
    {
        match &self.form {
            Form::One { value, .. } => Some(*value),
            Form::Whole(_) => None,
        }
    }

    /// Copies a row of the numbers out: those at the places `first`, `first + stride` and so on, which may go backwards.
    pub fn read_row(&self, first: usize, stride: i64, out: &mut [i64])
        requires { IsRowWithin first stride (length out.old) (length self.now.numbers) }
        ensures { IsRowOf self.now.numbers first stride out.new }
    {
        match &self.form {
            Form::One { value, .. } => out.fill(*value),
            Form::Whole(values) => rows::read_row(values, first, stride, out),
        }
    }

    /// Puts numbers at the places `first`, `first + stride` and so on, which may go backwards, and leaves the others.
    pub fn write_row(&mut self, first: usize, stride: i64, row: &[i64])
        requires within { IsRowWithin first stride (length row.now) (length self.old.numbers) }
        requires apart { stride ≢ pos 0 }
        requires whole { self.old.one ≡ false }
        ensures len { length self.new.numbers ≡ length self.old.numbers }
        ensures row { IsRowOf self.new.numbers first stride row.now }
        ensures beside { IsSameBeside first stride (length row.now) self.old.numbers self.new.numbers }
        ensures whole { self.new.one ≡ false }
    {
        match &mut self.form {
            Form::One { .. } => unreachable!(),
            Form::Whole(values) => rows::write_row(values, first, stride, row),
        }
    }

    /// Puts a number at this place, counted from 0.
    pub fn set(&mut self, k: usize, v: i64)
        requires there { k < length self.old.numbers }
        requires whole { self.old.one ≡ false }
        ensures numbers { self.new.numbers ≡ slice_set self.old.numbers k v }
        ensures whole { self.new.one ≡ false }
    {
        match &mut self.form {
            Form::One { .. } => unreachable!(),
            Form::Whole(values) => values[k] = v,
        }
    }

    /// Keeps the list as one value if all of its numbers are equal. It looks no further than the first that differs, and
    /// not even that far where the one that it found before still does.
    pub fn compress(&mut self)
        ensures numbers { self.new.numbers ≡ self.old.numbers }
        ensures one { IsTrue self.new.one ↔ AreEqual self.new.numbers }
    {
        let Form::Whole(values) = &self.form else {
            return;
        };
        if is_other(values, self.other) {
            return;
        }
        let len = values.len();
        match common_value(values) {
            Ok(value) => *self = Cells::one(value, len),
            Err(place) => self.other = place,
        }
    }

    /// Keeps each number by itself. After a refusal the list is kept as it was.
    pub fn expand(&mut self, alloc: Global) -> Result<(), AllocError>
        ensures numbers { self.new.numbers ≡ self.old.numbers }
        ensures whole { OnOk result (self.new.one ≡ false) }
        ensures refused { OnErr result (self.new ≡ self.old) }
    {
        if let Form::One { value, len } = self.form {
            self.form = Form::Whole(vec![in alloc; value; len]?);
        }
        Ok(())
    }

    /// The same list, kept in the same form.
    pub fn copied(&self, alloc: Global) -> Result<Cells, AllocError>
        ensures { IfOk result (λ copy. copy ≡ self.now) }
    {
        let form = match &self.form {
            Form::One { value, len } => Form::One {
                value: *value,
                len: *len,
            },
            Form::Whole(values) => Form::Whole(Vec::from_slice(alloc, values)?),
        };
        Ok(Cells {
            form,
            other: self.other,
        })
    }
}

// Whether the number at this place is not the first one.
fn is_other(values: &[i64], place: usize) -> bool
    ensures { IsTrue result ↔ IsOther values.now place }
{
    place < values.len() && values[place] != values[0]
}

// The value that all of these numbers have, 0 where there are none; or the place of one that is not the first.
fn common_value(values: &[i64]) -> Result<i64, usize>
    ensures found { IfOk result (λ v. values.now ≡ replicate (length values.now) v) }
    ensures other { IfErr result (λ k. IsOther values.now k) }
{
    let value = values.first().copied().unwrap_or(0);
    match other_than(values, value) {
        Some(place) => Err(place),
        None => Ok(value),
    }
}

// The place of the first number that is not this one.
fn other_than(values: &[i64], value: i64) -> Option<usize>
    ensures found { IfSome result (λ k. (k < length values.now) × (slice_index_or values.now k (pos 0) ≢ value)) }
    ensures none { IfNone result (All (λ x. x ≡ value) values.now) }
{
    values.iter().position(|x| *x != value)
}
