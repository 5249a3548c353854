//! Expressions over views: what each is worth at a position, the code that finds it, and reductions of many values to one.
#![tactic(auto)]

mod apply;
mod binding;
mod code;
mod emit;
mod eval;
mod limits;
mod operation;
mod partial;
mod reads;
mod reduction;
mod single;
mod tree;

pub use code::Code;
pub use eval::eval_at;
pub use partial::Partial;
pub use reads::Reads;
pub use reduction::Reduction;
pub use single::{Operand, Single};
pub use tree::{Expr, Op};
