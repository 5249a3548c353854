//! Rows of numbers at places that lie a stride apart.
ghost use Rattle.std.specs.Prelude.{◌≡◌, ◌≢◌, ◌^◌, ◌<◌, ◌≤◌, pos, ◌+ℤ◌, ◌≤ℤ◌, ◌<ℤ◌, length};
ghost use Rattle.pooma_compress.specs.Rows.{IsRowOf, IsRowWithin, IsSameBeside};

/// Copies a row of the numbers out.
pub(crate) fn read_row(numbers: &[i64], first: usize, stride: i64, out: &mut [i64])
    requires { IsRowWithin first stride (length out.old) (length numbers.now) }
    ensures { IsRowOf numbers.now first stride out.new }
{
    if out.is_empty() {
        return;
    }
    if stride == 1 {
        out.copy_from_slice(&numbers[first..first + out.len()]);
    } else {
        gather(numbers, first, stride, out);
    }
}

/// Puts numbers at the places of a row.
pub(crate) fn write_row(numbers: &mut [i64], first: usize, stride: i64, row: &[i64])
    requires within { IsRowWithin first stride (length row.now) (length numbers.old) }
    requires apart { stride ≢ pos 0 }
    ensures row { IsRowOf numbers.new first stride row.now }
    ensures beside { IsSameBeside first stride (length row.now) numbers.old numbers.new }
{
    if row.is_empty() {
        return;
    }
    if stride == 1 {
        numbers[first..first + row.len()].copy_from_slice(row);
    } else {
        scatter(numbers, first, stride, row);
    }
}

// Number by number, at any stride.
fn gather(numbers: &[i64], first: usize, stride: i64, out: &mut [i64])
    requires some { 0 < length out.old }
    requires within { IsRowWithin first stride (length out.old) (length numbers.now) }
    ensures { IsRowOf numbers.now first stride out.new }
{
    out[0] = numbers[first];
    let mut place = first;
    for k in 1..out.len() {
        place = next(place, stride);
        out[k] = numbers[place];
    }
}

fn scatter(numbers: &mut [i64], first: usize, stride: i64, row: &[i64])
    requires some { 0 < length row.now }
    requires within { IsRowWithin first stride (length row.now) (length numbers.old) }
    requires apart { stride ≢ pos 0 }
    ensures row { IsRowOf numbers.new first stride row.now }
    ensures beside { IsSameBeside first stride (length row.now) numbers.old numbers.new }
{
    numbers[first] = row[0];
    let mut place = first;
    for k in 1..row.len() {
        place = next(place, stride);
        numbers[place] = row[k];
    }
}

// The place that lies a stride further, or back.
fn next(place: usize, stride: i64) -> usize
    requires low { pos 0 ≤ℤ (pos place +ℤ stride) }
    requires high { (pos place +ℤ stride) <ℤ pos (2 ^ 64) }
    ensures { pos result ≡ pos place +ℤ stride }
{
    if stride >= 0 {
        place + stride as usize
    } else {
        place - stride.unsigned_abs() as usize
    }
}
