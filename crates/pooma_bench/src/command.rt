ghost use Rattle.std.specs.Prelude.{◌≡◌, ◌∷◌, [], ℕ, map, string_bytes, IfSome, IfNone};
ghost use Rattle.pooma_bench.specs.Command.{IsAskedBy, IsWindowSize};

use crate::window::MOST_ENTRIES;

/// A measurement that the words of the command line ask for.
#[derive(Clone, Copy, Debug, PartialEq, Eq)]
pub enum Command {
    /// `machine N`: a window of so many entries on the iterate machine.
    Machine {
        /// From 1 to 100,000.
        entries: u32,
    },
    /// `eval`: expressions evaluated over many positions.
    Eval,
    /// `desk`: works through a desk by one thread and by several.
    Desk,
    /// `ready`: numbers through a deque of ready numbers.
    Ready,
    /// `queues`: windows whose entries ask for one object.
    Queues,
    /// `rows`: kernels of whole rows.
    Rows,
    /// `cells`: cells written and read through patches, and read through a store.
    Cells,
    /// `lending`: objects that a store lends and takes back.
    Lending,
    /// `pieces`: pieces that are done on patches.
    Pieces,
    /// `splitting`: the pieces of a statement, as they are made.
    Splitting,
    /// `all N`: each of these, one after another.
    All {
        /// How many entries the window has, from 1 to 100,000.
        entries: u32,
    },
}

impl Command {
    ghost use Rattle.pooma_bench.specs.declared.command.Command.{Command};

    /// The measurement that the words ask for. None exactly where they ask for none. It takes no memory.
    pub fn from_words(words: &[String]) -> Option<Command>
        ensures found { IfSome result (λ command. IsAskedBy (map string_bytes words.now) command) }
        ensures none { IfNone result ((command : Command) → IsAskedBy (map string_bytes words.now) command → ⊥) }
    {
        match words {
            [name] => Command::of_one(name.as_str()),
            [name, count] => Command::of_two(name.as_str(), count.as_str()),
            _ => None,
        }
    }

    // The measurement that one word asks for.
    fn of_one(name: &str) -> Option<Command>
        ensures found { IfSome result (λ command. IsAskedBy (name.now ∷ []) command) }
        ensures none { IfNone result ((command : Command) → IsAskedBy (name.now ∷ []) command → ⊥) }
    {
        match name {
            "eval" => Some(Command::Eval),
            "desk" => Some(Command::Desk),
            "ready" => Some(Command::Ready),
            "queues" => Some(Command::Queues),
            "rows" => Some(Command::Rows),
            "cells" => Some(Command::Cells),
            "lending" => Some(Command::Lending),
            "pieces" => Some(Command::Pieces),
            "splitting" => Some(Command::Splitting),
            _ => None,
        }
    }

    // The measurement that a name and a number ask for.
    fn of_two(name: &str, count: &str) -> Option<Command>
        ensures found { IfSome result (λ command. IsAskedBy (name.now ∷ count.now ∷ []) command) }
        ensures none { IfNone result ((command : Command) → IsAskedBy (name.now ∷ count.now ∷ []) command → ⊥) }
    {
        let Some(entries) = window_size(count) else {
            return None;
        };
        match name {
            "machine" => Some(Command::Machine { entries }),
            "all" => Some(Command::All { entries }),
            _ => None,
        }
    }
}

// The number of a window's entries that the text is.
fn window_size(text: &str) -> Option<u32>
    ensures found { IfSome result (λ entries. IsWindowSize text.now entries) }
    ensures none { IfNone result ((entries : ℕ) → IsWindowSize text.now entries → ⊥) }
{
    let Ok(entries) = text.parse::<u32>() else {
        return None;
    };
    if entries == 0 || entries > MOST_ENTRIES {
        return None;
    }
    Some(entries)
}
