//! Running the cases of files.

use crate::comparing::{Difference, first_difference};
use crate::layers::Layer;
use crate::reading::{Case, Scenarios, Step, read_scenarios};
use pws_arguments::given_words;
use pws_base::memory::Memory;
use std::alloc::{AllocError, Global};
use std::process::ExitCode;
use std::{fs, io};

/// How many cases went as expected, and how many failed. A file that can't be read or has another form is one that
/// failed.
#[derive(Clone, Copy, Debug, PartialEq, Eq)]
pub struct Count {
    pub passed: u64,
    pub failed: u64,
}

/// What is otherwise than expected in a step, if anything.
fn run_step<L: Layer>(
    alloc: Global,
    layer: &mut L,
    step: &Step,
) -> Result<Option<Difference>, Memory> {
    let mut answers = Vec::new(alloc);
    match layer.step(alloc, step, &mut answers) {
        Ok(()) => Ok(first_difference(alloc, step, &answers)?),
        Err(error) => Ok(Some(Difference {
            line: step.line,
            told: format!(in alloc; "{error}")?,
        })),
    }
}

/// The first thing that is otherwise than expected in steps, if anything. The steps after it aren't taken.
fn run_steps<L: Layer>(
    alloc: Global,
    layer: &mut L,
    steps: &[Step],
) -> Result<Option<Difference>, Memory> {
    for step in steps {
        let difference = run_step(alloc, layer, step)?;
        if difference.is_some() {
            return Ok(difference);
        }
    }
    Ok(None)
}

/// The first thing that is otherwise than expected in the setup and then in a case, if anything.
fn run_case<L: Layer>(
    alloc: Global,
    scenarios: &Scenarios,
    case: &Case,
) -> Result<Option<Difference>, Memory> {
    let Some(mut layer) = L::begin(alloc, scenarios.layer)? else {
        let told = format!(in alloc; "no layer `{}`", scenarios.layer)?;
        let line = case.line;
        return Ok(Some(Difference { line, told }));
    };
    let difference = run_steps(alloc, &mut layer, &scenarios.setup)?;
    if difference.is_some() {
        return Ok(difference);
    }
    run_steps(alloc, &mut layer, &case.steps)
}

/// Runs the cases of a file, and prints the first difference of each.
fn run_cases<L: Layer>(
    rt: &HostRuntime,
    file: &str,
    scenarios: &Scenarios,
    count: &mut Count,
) -> io::Result<()> {
    for case in &scenarios.cases {
        match run_case::<L>(rt.alloc(), scenarios, case).map_err(|_| AllocError)? {
            None => count.passed = count.passed.saturating_add(1),
            Some(Difference { line, told }) => {
                count.failed = count.failed.saturating_add(1);
                println!(rt; "{file}:{line} {}: {told}", case.name)?;
            }
        }
    }
    println!(rt; "{file}: {} cases", scenarios.cases.len())
}

/// Runs a file.
fn run_file<L: Layer>(rt: &HostRuntime, file: &str, count: &mut Count) -> io::Result<()> {
    let alloc = rt.alloc();
    let text = match fs::read_to_string(rt, file) {
        Ok(text) => text,
        Err(error) => {
            count.failed = count.failed.saturating_add(1);
            return println!(rt; "{file}: {error}");
        }
    };
    match read_scenarios(alloc, text.as_str()) {
        Ok(scenarios) => run_cases::<L>(rt, file, &scenarios, count),
        Err(error) => {
            count.failed = count.failed.saturating_add(1);
            println!(rt; "{file}:{}: {}", error.line, error.reason)
        }
    }
}

/// Runs the files that the program's words name, and prints how many cases passed and failed. The status is 0 exactly
/// where none failed and there is one.
///
/// # Errors
///
/// Those of printing, and want of memory.
pub fn run_files<L: Layer>(rt: &HostRuntime) -> io::Result<ExitCode> {
    let mut count = Count {
        passed: 0,
        failed: 0,
    };
    for file in given_words(rt).map_err(|_| AllocError)?.iter() {
        run_file::<L>(rt, file.as_str(), &mut count)?;
    }
    let Count { passed, failed } = count;
    println!(rt; "{passed} passed, {failed} failed")?;
    if failed == 0 && passed > 0 {
        Ok(ExitCode::SUCCESS)
    } else {
        Ok(ExitCode::FAILURE)
    }
}
