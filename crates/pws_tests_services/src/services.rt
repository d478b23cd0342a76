//! A holder that knows the trait of drivers alone, over the runner of scripts with envelopes of SOAP.

use pws_base::shapes::{GroupShape, Layout};
use pws_envelopes::runners::{SoapRunner, soap_runner};
use pws_event::events::Event;
use pws_event::parsing::read_event;
use pws_script::scripts::Script;
use pws_service::acts::Act;
use pws_service::drivers::Driver;
use pws_service::holders::Holder;
use std::alloc::Global;
use std::test::Fail;

/// A script that calls, asks for the time and halts.
const SCRIPT: &[u8] = b"set r0 \"x\"\ncall r1 1 r0 0\nclock r2\nstop\n";

/// The agreed time 1 for the first ask.
const TIME: [u8; 15] = [4, 0, 0, 0, 1, 1, 0, 0, 0, 0, 0, 0, 0, 0, 1];

/// Whether a value may go to another thread and stay there.
fn may_leave<T: Send + 'static>(_value: &T) -> bool {
    true
}

/// Two groups of one replica each.
fn two_groups(alloc: Global) -> Result<Layout, Fail> {
    let mut shapes = Vec::new(alloc);
    shapes.push(GroupShape::new(0)?)?;
    shapes.push(GroupShape::new(0)?)?;
    Ok(Layout::new(shapes.as_slice())?)
}

/// Whether the act is the first call, to group 1.
fn is_call(act: &Act) -> bool {
    match act {
        Act::Call {
            called,
            number,
            low,
            timeout,
            ..
        } => *called == 1 && *number == 1 && *low == 1 && *timeout == 0,
        _ => false,
    }
}

/// Whether the acts are a call and an ask for the time.
fn are_first(acts: &[Act]) -> bool {
    acts.len() == 2 && is_call(&acts[0]) && matches!(acts[1], Act::AskClock { ask: 1 })
}

/// Whether the only act is that the service halts.
fn are_last(acts: &[Act]) -> bool {
    acts.len() == 1 && matches!(acts[0], Act::Halted)
}

/// A holder of the script, in group 0 of two.
fn script_holder(alloc: Global) -> Result<Holder<SoapRunner>, Fail> {
    let layout = two_groups(alloc)?;
    if layout.groups() != 2 {
        return Err(Fail::from("not two groups"));
    }
    let script = Script::read(alloc, SCRIPT)?;
    let runner = soap_runner(alloc, script, 0, &layout)?;
    Ok(Holder::new(alloc, runner, 0, &layout))
}

/// Whether a holder that isn't started gives the first acts.
fn starts<D: Driver>(alloc: Global, holder: &mut Holder<D>) -> Result<bool, Fail> {
    if holder.is_started() {
        return Ok(false);
    }
    let acts = holder.start(alloc)?;
    Ok(are_first(acts.as_slice()))
}

/// Whether the null event brings no act.
fn passes_over<D: Driver>(alloc: Global, holder: &mut Holder<D>) -> Result<bool, Fail> {
    if !holder.is_started() {
        return Ok(false);
    }
    let acts = holder.take(alloc, Event::Null)?;
    Ok(acts.is_empty())
}

/// The acts that the agreed time brings.
fn acts_at_time<D: Driver>(alloc: Global, holder: &mut Holder<D>) -> Result<Vec<Act>, Fail> {
    if !holder.is_started() {
        return Err(Fail::from("not started"));
    }
    let event = read_event(alloc, TIME.as_slice())?;
    let acts = holder.take(alloc, event)?;
    Ok(acts)
}

/// Whether the agreed time brings the last act, and once more nothing.
fn halts<D: Driver>(alloc: Global, holder: &mut Holder<D>) -> Result<bool, Fail> {
    let last = acts_at_time(alloc, holder)?;
    let void = acts_at_time(alloc, holder)?;
    Ok(are_last(last.as_slice()) && void.is_empty())
}

/// Whether a holder that was started and its copy both halt.
fn halts_with_its_copy<D: Driver>(alloc: Global, holder: &mut Holder<D>) -> Result<bool, Fail> {
    let mut other = holder.copy(alloc)?;
    let both = halts(alloc, holder)? && halts(alloc, &mut other)?;
    Ok(both && !holder.is_stopped() && !other.is_stopped())
}

#[test]
fn a_holder_runs_a_script(rt: HostRuntime) -> Result<(), Fail> {
    let mut holder = script_holder(rt.alloc())?;
    assert!(rt; starts(rt.alloc(), &mut holder)?);
    assert!(rt; passes_over(rt.alloc(), &mut holder)?);
    assert!(rt; halts_with_its_copy(rt.alloc(), &mut holder)?);
    assert!(rt; may_leave(&holder));
    Ok(())
}
