ghost use Rattle.std.specs.Prelude.{◌≡◌, ◌≢◌, ◌<◌, ◌-◌, ◌++◌, ◌∷◌, [], length, IfOk, IfSome, OnErr, slice_get, if◌then◌else◌};
ghost use Rattle.pooma_window.specs.Questions.{question};

use crate::picker::Picker;
use std::alloc::{AllocError, Global};
use std::marker::Model;

// A question that was answered.
#[derive(Drop)]
struct Asked {
    ready: Vec<u32>,
    place: usize,
}

impl Model for Asked {
    ghost use Rattle.pooma_window.specs.Questions.{Question, question};

    ghost Value = { Question };

    ghost view = { λ a. question a.ready.items a.place };
}

/// A picker that answers the first place of each list, or the last place of each, and keeps the questions. Contracts see
/// which of the two it does, and the questions.
#[derive(Drop)]
pub struct ListPicker {
    last: bool,
    questions: Vec<Asked>,
}

impl Model for ListPicker {
    ghost use Rattle.pooma_window.specs.Questions.{Recorded};

    ghost Value = { Recorded };

    ghost view = { λ p. record { last = p.last; questions = p.questions.items } };
}

impl ListPicker {
    /// A picker that was asked nothing. It picks the last place where `last` is true, and place 0 where it is false. It
    /// takes no memory.
    pub fn new(alloc: Global, last: bool) -> ListPicker
        ensures last { result.last ≡ last }
        ensures questions { result.questions ≡ [] }
    {
        ListPicker {
            last,
            questions: Vec::new(alloc),
        }
    }

    /// How many questions were answered.
    pub fn questions(&self) -> usize
        ensures { result ≡ length self.now.questions }
    {
        self.questions.len()
    }

    /// The list of the k-th question, counted from 0.
    pub fn ready(&self, k: usize) -> &[u32]
        requires { k < length self.now.questions }
        ensures { IfSome (slice_get self.now.questions k) (λ q. result.now ≡ q.ready) }
    {
        &self.questions[k].ready
    }

    /// The answer to the k-th question, a place in its list counted from 0.
    pub fn answer(&self, k: usize) -> usize
        requires { k < length self.now.questions }
        ensures { IfSome (slice_get self.now.questions k) (λ q. result ≡ q.place) }
    {
        self.questions[k].place
    }
}

impl Picker for ListPicker {
    ghost use Rattle.std.specs.Prelude.{Some};

    ghost asked = { λ p. Some p.questions };

    /// The last place or place 0. After want of memory the picker is as before.
    fn pick(&mut self, alloc: Global, ready: &[u32]) -> Result<usize, AllocError>
        requires { ready.now ≢ [] }
        ensures picked { IfOk result (λ place. place ≡ (if self.old.last then length ready.now - 1 else 0)) }
        ensures last { self.new.last ≡ self.old.last }
        ensures asks { IfOk result (λ place. self.new.questions ≡ self.old.questions ++ question ready.now place ∷ []) }
        ensures err { OnErr result (self.new ≡ self.old) }
    {
        let place = if self.last { ready.len() - 1 } else { 0 };
        let ready = Vec::from_slice(alloc, ready)?;
        self.questions.push(Asked { ready, place })?;
        Ok(place)
    }
}
