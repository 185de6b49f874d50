// The program that people run. It does the one task that its words name, and says plainly what was refused.
#![tactic(auto)]

mod check;
mod code;
mod failure;
mod filing;
mod input;
mod listing;
mod naming;
mod screening;

use crate::failure::Failure;
use std::env;
use std::process::ExitCode;
use tasks::{SheetTask, Task};

const HELP: &str = "rulesheet: rule sheets for docking stations

usage:
  rulesheet names NAMES
      check a name list, and print each point with its name
  rulesheet check [--code] NAMES SHEET
      read a sheet, and print its table, the length and depth of its code, and the points it uses;
      with --code also the code, with addresses and places
  rulesheet screen NAMES SHEET [NAME=NUMBER ...] [--allowance N]
      work a sheet out: the answer, its cost, and every point before and after; a point that
      no word sets is 0, and a sheet may cost 1000000 steps where no allowance is given
  rulesheet compile NAMES SHEET FILE
      write the station file of a sheet
  rulesheet list FILE [--names NAMES]
      print what a station file holds, with the names beside the points where a list is given
  rulesheet --help
      print this
  rulesheet --version
      print the version

A refusal goes to standard error, and the program ends with status 1.";

const VERSION: &str = "rulesheet 0.1.0";

// What fails has been told by the end, so this is not a `Result`: an error that `main` returned would be printed too.
fn main(rt: HostRuntime) -> ExitCode {
    match run(&rt) {
        Ok(()) => ExitCode::SUCCESS,
        Err(Failure::Refused) => ExitCode::FAILURE,
        Err(Failure::Output(e)) => {
            let _ = eprintln!(rt; "rulesheet: {e}");
            ExitCode::FAILURE
        }
    }
}

fn run(rt: &HostRuntime) -> Result<(), Failure> {
    let words: Vec<String> = env::args(rt)?.collect(rt.alloc())?;
    let [_, word, operands @ ..] = words.as_slice() else {
        return say(rt, HELP);
    };
    if let Some(task) = SheetTask::named(word.as_str()) {
        if task.takes(operands.len()) {
            return on_sheet(rt, task, operands);
        }
        return Err(Failure::tell(
            rt,
            format_args!("{word} takes another number of words; see rulesheet --help"),
        ));
    }
    let Some(task) = Task::named(word.as_str()) else {
        return Err(Failure::tell(
            rt,
            format_args!("{word} is no task; rulesheet --help lists the tasks"),
        ));
    };
    let wanted = task.operands();
    let given = operands.len();
    if given != wanted {
        return Err(Failure::tell(
            rt,
            format_args!(
                "{word} takes {wanted} words after it, and {given} stand there; see rulesheet --help"
            ),
        ));
    }
    perform(rt, task, operands)
}

// As many words as the task takes.
fn perform(rt: &HostRuntime, task: Task, operands: &[String]) -> Result<(), Failure> {
    match (task, operands) {
        (Task::Names, [path]) => naming::names(rt, path.as_str()),
        (Task::Version, _) => say(rt, VERSION),
        _ => say(rt, HELP),
    }
}

fn say(rt: &HostRuntime, words: &str) -> Result<(), Failure> {
    println!(rt; "{words}")?;
    Ok(())
}

// The same for a task on a sheet or its code.
fn on_sheet(rt: &HostRuntime, task: SheetTask, operands: &[String]) -> Result<(), Failure> {
    match (task, operands) {
        (SheetTask::Check, words) => check::check(rt, words),
        (SheetTask::Compile, [list, sheet, file]) => filing::write(
            rt,
            list.as_str(),
            sheet.as_str(),
            file.as_str(),
        ),
        (SheetTask::List, [file, words @ ..]) => filing::list(rt, file.as_str(), words),
        (SheetTask::Screen, [list, sheet, settings @ ..]) => screening::work_out(
            rt,
            list.as_str(),
            sheet.as_str(),
            settings,
        ),
        _ => say(rt, HELP),
    }
}
