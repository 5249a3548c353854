//! The draws from a seed.
ghost use Rattle.std.specs.Prelude.{◌≡◌, ◌<◌, ◌/◌, ◌%◌};
ghost use Rattle.pooma_maker.specs.Draws.{next};

/// A sequence of draws, as far as it was drawn.
#[derive(Debug, Drop)]
pub struct Draws {
    last: u32,
}

impl Draws {
    /// The draws from a seed, of which none was drawn.
    pub fn from_seed(seed: u32) -> Draws
        ensures { result.last ≡ seed }
    {
        Draws { last: seed }
    }

    /// The next draw, as a choice among so many.
    pub fn choice(&mut self, choices: u32) -> u32
        requires { 0 < choices }
        ensures last { self.new.last ≡ next self.old.last }
        ensures choice { result ≡ next self.old.last / 65536 % choices }
    {
        self.last = ((u64::from(self.last) * 1_103_515_245 + 12_345) % 2_147_483_648) as u32;
        self.last / 65_536 % choices
    }
}
