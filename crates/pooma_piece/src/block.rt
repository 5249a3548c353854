//! What a patch stands for.

use pooma_domain::BoxN;
use std::marker::Model;

/// A box of numbers: what a patch stands for, however it is kept. For contracts alone; no call makes one.
#[derive(Drop)]
pub struct Block {
    area: BoxN,
    numbers: Vec<i64>,
}

impl Model for Block {
    ghost use Rattle.pooma_field.specs.Numbered.{Numbered};

    ghost Value = { Numbered };

    ghost view = { λ b. record { area = b.area; numbers = b.numbers.items } };
}
