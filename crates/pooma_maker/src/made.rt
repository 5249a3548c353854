//! The whole script.
ghost use Rattle.std.specs.Prelude.{◌≡◌, IfOk};
ghost use Rattle.pooma_text.specs.Lines.{ended};
ghost use Rattle.pooma_maker.specs.Script.{foot, head, made_script};

use crate::draws::Draws;
use crate::line::{CONSTANTS, KINDS, push_line};
use std::alloc::{AllocError, Global};

/// The most bytes of a drawn line with its end.
const MOST_LINE_BYTES: usize = 42;

/// The script of this seed with so many lines between its head and its foot.
///
/// It is made in one pass, in memory that is taken once. The only error is want of memory.
pub fn script(alloc: Global, seed: u32, lines: u32) -> Result<Vec<u8>, AllocError>
    ensures { IfOk result (λ text. text.items ≡ made_script seed lines) }
{
    let most = head().len() + MOST_LINE_BYTES * lines as usize + foot().len();
    let mut text = Vec::with_capacity(alloc, most)?;
    text.extend_from_slice(head())?;
    let mut draws = Draws::from_seed(seed);
    for _line in 0..lines {
        let kind = draws.choice(KINDS);
        let constant = draws.choice(CONSTANTS);
        push_line(alloc, &mut text, kind, constant)?;
    }
    text.extend_from_slice(foot())?;
    Ok(text)
}

// What stands before the drawn lines: what they use, with its first numbers.
fn head() -> &'static [u8]
    ensures { result.now ≡ ended head }
{
    b"layout L (0:63,0:63) blocks (4,4) internal (1,1) external (1,1)\n\
      array A on L\n\
      array B on L\n\
      field U on L faces periodic, periodic, reflect, reflect\n\
      A = index(0) + 2 * index(1)\n\
      U = index(0) * index(1) % 17\n"
}

// What stands behind them: the sums of all arrays.
fn foot() -> &'static [u8]
    ensures { result.now ≡ ended foot }
{
    b"scalar t = sum(A)\n\
      print t\n\
      scalar t = sum(B)\n\
      print t\n\
      scalar t = sum(U)\n\
      print t\n"
}
