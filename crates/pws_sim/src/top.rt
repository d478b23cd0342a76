//! The top call.

ghost use Rattle.std.specs.Prelude.{◌≡◌, map, IfOk};
ghost use Rattle.pws_sim.specs.Replica.{places_after};
ghost use Rattle.pws_sim.specs.Reports.{report_of};
ghost use Rattle.pws_sim.specs.Outcomes.{outcome, is_run, EndsOn, Writes, UsageIff, UnbuiltOn, ReadCaused, WriteCaused, RunsOn, RunCaused, IsReport, Reports};
ghost use Rattle.pws_sim.specs.Once.{OnceOn};

use crate::replica::Replica;
use crate::reports::report_of;
use pws_base::bytes::Bytes;
use pws_base::memory::Memory;
use pws_base::streams::{Sink, Source};
use pws_base::whole::{ReadError, WriteFault, read_all, write_all};
use pws_event::laws::effects_are_once;
use pws_event::requests::Request;
use pws_sched::first_form::{FirstFormError, read_first_form};
use pws_sched::statuses::Status;
use std::alloc::Global;

/// Does all that the program `pws-sim` does: reads a schedule from the source, replays it, and writes a report to
/// the sink.
///
/// The words are those after the program's name. The one command that is built is `run`. Each status comes with
/// its text, by docs/FORMATS.md:
///
/// - `Usage` and the usage line, exactly where the words aren't the one word `run`;
/// - `Done` and the report, where the words are `run` and the source gives a schedule of the first form;
/// - `Unbuilt` and `not built`, exactly where the words are `run`, the source didn't fail, and it gives more than
///   64 MiB or no schedule of the first form;
/// - `ReadFault` and nothing, only where the source's faults rose in this call;
/// - `WriteFault` and a prefix of the text, only where the sink's faults rose in this call;
/// - `Memory` and a prefix of the text.
///
/// The first three yield to `WriteFault` and to `Memory`, and `Done` to `ReadFault`. Where the source doesn't tell its
/// bytes, no clause says which text is due to `WriteFault` and `Memory`.
#[tactic(auto, using(crate::proofs::Done::reports_once))]
pub fn sim_main<S: Source, K: Sink>(
    alloc: Global,
    words: &[&str],
    source: &mut S,
    sink: &mut K,
) -> Status
    // Over a source that tells its bytes, status and text are a function of words and bytes.
    ensures told { EndsOn (outcome (map (λ w. w.now) words.now)) (S.left source.old) (K.held sink.old) (K.held sink.new) result }

    // What is written with Usage, Unbuilt and ReadFault, and when each refusal comes, whatever the source tells.
    ensures written { Writes (K.held sink.old) (K.held sink.new) result }
    ensures usage { UsageIff (is_run (map (λ w. w.now) words.now)) result }
    ensures unbuilt { UnbuiltOn (is_run (map (λ w. w.now) words.now)) (S.left source.old) result }
    ensures read_fault { ReadCaused result (S.faults source.old) (S.faults source.new) }
    ensures write_fault { WriteCaused result (K.faults sink.old) (K.faults sink.new) }

    // The report is that of an event list in which each caller's request takes effect at most once, at one place.
    ensures once { OnceOn (K.held sink.old) (K.held sink.new) result }
{
    effects_are_once();
    if !is_run(words) {
        return match write_all(sink, b"usage: pws-sim run, gen NUMBER COUNT or vectors\n") {
            Ok(()) => Status::Usage,
            Err(WriteFault) => Status::WriteFault,
        };
    }
    match run(alloc, source) {
        Ok(Some(report)) => match write_all(sink, report.as_slice()) {
            Ok(()) => Status::Done,
            Err(WriteFault) => Status::WriteFault,
        },
        Ok(None) => match write_all(sink, b"not built\n") {
            Ok(()) => Status::Unbuilt,
            Err(WriteFault) => Status::WriteFault,
        },
        Err(RunError::Fault) => Status::ReadFault,
        Err(RunError::Memory) => Status::Memory,
    }
}

/// Whether the words are the one word `run`.
fn is_run(words: &[&str]) -> bool
    ensures { result ≡ is_run (map (λ w. w.now) words.now) }
{
    words.len() == 1 && words[0] == "run"
}

/// Why a run came to no report.
#[derive(Clone, Copy, Debug, PartialEq, Eq)]
enum RunError {
    Fault,
    Memory,
}

/// The report on what the source gives, or nothing where that is too long or no schedule of the first form.
fn run<S: Source>(alloc: Global, source: &mut S) -> Result<Option<Bytes>, RunError>
    ensures told { RunsOn (S.left source.old) result }
    ensures report { Reports result }
    ensures cause { RunCaused result (S.faults source.old) (S.faults source.new) }
{
    let text = match read_all(alloc, source, 67108864) {
        Ok(text) => text,
        Err(ReadError::Limit) => return Ok(None),
        Err(ReadError::Fault) => return Err(RunError::Fault),
        Err(ReadError::Memory) => return Err(RunError::Memory),
    };
    let requests = match read_first_form(alloc, text.as_slice()) {
        Ok(requests) => requests,
        Err(FirstFormError::NotFirstForm) => return Ok(None),
        Err(FirstFormError::Memory) => return Err(RunError::Memory),
    };
    match replayed(alloc, requests.into_vec()) {
        Ok(report) => Ok(Some(report)),
        Err(Memory) => Err(RunError::Memory),
    }
}

/// The report once the replica heard these requests in turn.
fn replayed(alloc: Global, requests: Vec<Request>) -> Result<Bytes, Memory>
    ensures report { IfOk result (λ text. text ≡ report_of (places_after requests.items)) }
    ensures taken { IfOk result IsReport }
{
    let mut replica = Replica::new(alloc);
    for request in requests {
        replica.hear(alloc, request)?;
    }
    report_of(alloc, replica.events())
}
