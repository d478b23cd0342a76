//! A program that gives requests to the runner of a script, for bench/runner.sh to measure: `echo` or `piled`, how many
//! requests, and how often so many, each time to a new runner. It prints how many replies came.
//!
//! The script `echo` answers each request at once. The script `piled` waits for the answer of a call meanwhile, so that
//! no request is taken. Texts stand in the place of envelopes. The program has no contract of its own, and nothing
//! stands on it.
#![tactic(auto)]

ghost use Rattle.std.specs.Prelude.{◌≡◌, ◌≤◌, true};

use pws_base::bytes::Bytes;
use pws_base::shapes::{GroupShape, Layout};
use pws_driver::runners::Runner;
use pws_driver_plain::plain::Plain;
use pws_event::events::Event;
use pws_event::requests::Request;
use pws_script::scripts::Script;
use pws_service::drivers::Driver;
use std::alloc::Global;
use std::env;

const ECHO: &str = "receive r0 r1\nfield r2 r1 text\nreply r0 r2\nset r3 1\njump 1 r3\n";

const PILED: &str = "set r0 \"x\"\ncall r1 1 r0 0\nawait r2 r1\n";

/// The request of this number.
fn request(alloc: Global, number: u32) -> anyhow::Result<Event>
    requires from { 1 ≤ number }
    requires to { number ≤ 1000000 }
{
    let body = Bytes::from_slice(alloc, b"hi")?;
    Ok(Event::Request(Request::new(1, number, number, body)))
}

/// How many acts a request brings.
fn count(alloc: Global, runner: &mut Runner<Plain>, number: u32) -> anyhow::Result<usize>
    requires from { 1 ≤ number }
    requires to { number ≤ 1000000 }
    requires started { runner.old.started ≡ true }
    ensures { runner.new.started ≡ true }
{
    let event = request(alloc, number)?;
    Ok(runner.take(alloc, &event)?.len())
}

/// How many acts so many requests bring.
fn run(alloc: Global, text: &str, requests: u32) -> anyhow::Result<usize> {
    let shape = GroupShape::new(0)?;
    let layout = Layout::new(&[shape, shape])?;
    if layout.groups() < 2 {
        return Ok(0);
    }
    let script = Script::read(alloc, text.as_bytes())?;
    let mut runner: Runner<Plain> = Runner::new(alloc, script, 0, &layout)?;
    runner.start(alloc)?;
    let mut acts = 0usize;
    for before in 0..requests.min(1000000) {
        acts = acts.saturating_add(count(alloc, &mut runner, before + 1)?);
    }
    Ok(acts)
}

/// How many acts they bring over so many rounds.
fn run_often(alloc: Global, text: &str, requests: u32, rounds: u32) -> anyhow::Result<usize> {
    let mut acts = 0usize;
    for _ in 0..rounds {
        acts = acts.saturating_add(run(alloc, text, requests)?);
    }
    Ok(acts)
}

fn main(rt: HostRuntime) -> anyhow::Result<()> {
    let mut words = env::args(&rt)?.skip(1);
    let text = match words.next() {
        Some(word) => {
            if word.as_str() == "piled" {
                PILED
            } else {
                ECHO
            }
        }
        None => ECHO,
    };
    let requests = match words.next() {
        Some(word) => word.parse::<u32>()?,
        None => 1,
    };
    let rounds = match words.next() {
        Some(word) => word.parse::<u32>()?,
        None => 1,
    };
    let acts = run_often(rt.alloc(), text, requests, rounds)?;
    println!(rt; "{acts}")?;
    Ok(())
}
