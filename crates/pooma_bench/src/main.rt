//! The project's measurements. What was done goes to standard output, and how long its parts took to standard error.
#![tactic(auto)]

ghost use Rattle.std.specs.Prelude.{◌≤◌};

use command::Command;
use pooma_iterate_bench::{report_cells, report_lending, report_pieces, report_splitting};
use pooma_row_bench::report_rows;
use std::process::ExitCode;
use std::sync::Wait;
use std::thread::Threads;
use std::time::Clock;
use std::{env, io};
use window::MOST_ENTRIES;

mod command;
mod desk;
mod eval;
mod increment;
mod measure;
mod queues;
mod ready;
mod window;

/// The words ask for no measurement.
const USAGE: u8 = 2;

// Every measurement, one after another, with a window of so many entries.
fn report_all<R: Threads + Wait + Sync + Clock + AllocGlobal + Print + Eprint>(
    rt: &R,
    entries: u32,
) -> io::Result<()>
    requires { entries ≤ MOST_ENTRIES }
{
    measure::report(rt, entries)?;
    eval::report(rt)?;
    desk::report(rt)?;
    ready::report(rt)?;
    queues::report(rt)?;
    report_rows(rt)?;
    report_cells(rt)?;
    report_lending(rt)?;
    report_pieces(rt)?;
    report_splitting(rt)
}

fn main(rt: HostRuntime) -> io::Result<ExitCode> {
    let words: Vec<String> = env::args(&rt)?.skip(1).collect(rt.alloc())?;
    match Command::from_words(&words) {
        Some(Command::Machine { entries }) => measure::report(&rt, entries)?,
        Some(Command::Eval) => eval::report(&rt)?,
        Some(Command::Desk) => desk::report(&rt)?,
        Some(Command::Ready) => ready::report(&rt)?,
        Some(Command::Queues) => queues::report(&rt)?,
        Some(Command::Rows) => report_rows(&rt)?,
        Some(Command::Cells) => report_cells(&rt)?,
        Some(Command::Lending) => report_lending(&rt)?,
        Some(Command::Pieces) => report_pieces(&rt)?,
        Some(Command::Splitting) => report_splitting(&rt)?,
        Some(Command::All { entries }) => report_all(&rt, entries)?,
        None => {
            eprintln!(rt;
                "usage: pooma_bench machine N | eval | desk | ready | queues | rows | cells | lending | pieces | splitting | all N, where N is a number from 1 to {MOST_ENTRIES}"
            )?;
            return Ok(ExitCode::from(USAGE));
        }
    }
    Ok(ExitCode::SUCCESS)
}
