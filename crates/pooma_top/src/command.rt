//! What the words after the program's name ask for.
ghost use Rattle.std.specs.Prelude.{◌≡◌, map, string_bytes, decimal, IfSome, IfNone};
ghost use Rattle.pooma_top.specs.Tasks.{AsksFor, IsCommand, IsInRange};

use crate::number::number_in;

/// What is to be done with a script.
#[derive(Clone, Copy, Debug, PartialEq, Eq)]
pub enum Command {
    /// `run N`: it is run by so many workers.
    Run { workers: u32 },
    /// `check`: it is read, and nothing of it is run.
    Check,
}

/// Which script is made: its seed, and how many lines are drawn.
#[derive(Clone, Copy, Debug, PartialEq, Eq)]
pub struct Recipe {
    pub seed: u32,
    pub lines: u32,
}

/// What the words ask for.
#[derive(Clone, Copy, Debug, PartialEq, Eq)]
pub enum Task {
    /// `run N`, `check`: a script is read, and this is done with it.
    Read(Command),
    /// `make S K`: a made script is written.
    Make(Recipe),
    /// `demo S K N`: a made script is run by so many workers.
    Demo { recipe: Recipe, workers: u32 },
}

/// The greatest seed.
const MOST_SEED: u32 = 2_147_483_647;

/// The most lines that are drawn.
const MOST_LINES: u32 = 9_000;

/// The task that these words ask for, where so many workers are the most that may be asked for. It takes no memory.
pub fn task_of(words: &[String], most: u32) -> Option<Task>
    ensures found { IfSome result (λ task. AsksFor most (map string_bytes words.now) task) }
    ensures none { IfNone result (IsCommand most (map string_bytes words.now) → ⊥) }
{
    match words {
        [name] => {
            if name.as_str() != "check" {
                return None;
            }
            Some(Task::Read(Command::Check))
        }
        [name, workers] => {
            if name.as_str() != "run" {
                return None;
            }
            let workers = number_in(workers.as_str(), 1, most)?;
            Some(Task::Read(Command::Run { workers }))
        }
        [name, seed, lines] => {
            if name.as_str() != "make" {
                return None;
            }
            let recipe = recipe_of(seed.as_str(), lines.as_str())?;
            Some(Task::Make(recipe))
        }
        [name, seed, lines, workers] => {
            if name.as_str() != "demo" {
                return None;
            }
            let workers = number_in(workers.as_str(), 1, most)?;
            let recipe = recipe_of(seed.as_str(), lines.as_str())?;
            Some(Task::Demo { recipe, workers })
        }
        _ => None,
    }
}

// The recipe whose numbers these words are.
fn recipe_of(seed: &str, lines: &str) -> Option<Recipe>
    ensures range { IfSome result (λ recipe. IsInRange recipe) }
    ensures found { IfSome result (λ recipe. (seed.now ≡ decimal recipe.seed) × (lines.now ≡ decimal recipe.lines)) }
    ensures none { IfNone result ((recipe : Recipe) → IsInRange recipe → seed.now ≡ decimal recipe.seed → lines.now ≡ decimal recipe.lines → ⊥) }
{
    let Some(seed) = number_in(seed, 0, MOST_SEED) else {
        return None;
    };
    let Some(lines) = number_in(lines, 1, MOST_LINES) else {
        return None;
    };
    Some(Recipe { seed, lines })
}
