//! Which events take effect.

use crate::events::Event;
use crate::readings::{Clock, Random, Sort};
use crate::requests::Request;
use crate::times::agreed_time;
use pws_base::limits::{CALL_WINDOW, MAX_NUMBER};
use pws_base::lists::ExactCopy;
use pws_base::memory::Memory;
use pws_base::shapes::{GroupId, Layout, Number};
use std::alloc::Global;
use std::marker::Model;

/// Whether an event took effect, or is void and changed nothing.
#[derive(Clone, Copy, Debug, PartialEq, Eq)]
pub enum Taken {
    /// It took effect.
    Taken,
    /// It keeps its place and changes nothing.
    Void,
}

/// Tells which events take effect in a group, by a few counters; it takes no memory.
///
/// It is led through the history of the group: each event that is taken, and each call and each ask of the group's
/// service when it is noted, in any order. Contracts see the counters; `HasTaken` says that they are those of a past,
/// which is what a history comes to, and each answer is the one that the rule of effects gives for that past.
#[derive(Clone, Copy, Debug)]
pub struct Effect {
    /// The group whose events these are.
    me: GroupId,
    /// All groups.
    layout: Layout,
    /// By caller, the number of its last request that took effect; 0 before the first.
    last: [u32; 16],
    /// By caller, the low number of that request; 1 before the first.
    low: [u32; 16],
    /// By called group, the number of the last call to it that was noted; 0 before the first.
    called: [u32; 16],
    /// By called group sixteen slots, one for each remainder of a number by 16: the number of the call that waits
    /// there; 0 where none does.
    waiting: [u32; 256],
    /// How many asks were answered.
    answered: u32,
    /// What the ask that waits is for, if one waits.
    ask: Option<Sort>,
    /// The agreed time in milliseconds; 0 before the first.
    clock: u64,
}

impl Model for Effect {
    ghost use Rattle.pws_event.specs.Counters.{Counters, IsCounters};

    ghost Value = { Counters };

    ghost view = { λ e. record { me = e.me; layout = e.layout; last = e.last; low = e.low; called = e.called; waiting = e.waiting; answered = e.answered; ask = e.ask; clock = e.clock } };

    ghost invariant = { λ e. IsCounters (record { me = e.me; layout = e.layout; last = e.last; low = e.low; called = e.called; waiting = e.waiting; answered = e.answered; ask = e.ask; clock = e.clock }) };

    ghost inverse = { λ c. record { me = c.me; layout = c.layout; last = c.last; low = c.low; called = c.called; waiting = c.waiting; answered = c.answered; ask = c.ask; clock = c.clock } };
}

ghost use Rattle.std.specs.Prelude.{◌≡◌, ◌<◌, ◌≤◌, ◌+◌, ◌∷◌, [], List, length, max, slice_index, if◌then◌else◌, None, false, IsTrue, IsNone, ◌↔◌};
ghost use Rattle.std.specs.Option.{option_map};
ghost use Rattle.pws_base.specs.Limits.{max_number, call_window};
ghost use Rattle.pws_base.specs.Replicas.{is_other};
ghost use Rattle.pws_event.specs.declared.events.Event.{Event};
ghost use Rattle.pws_event.specs.Requests.{IsRequest};
ghost use Rattle.pws_event.specs.Readings.{IsClock, IsRandom};
ghost use Rattle.pws_event.specs.Events.{IsEvent};
ghost use Rattle.pws_event.specs.Effects.{last_of, low_of, is_sort, waits, last_call, low_out, waiting_ask, answered_asks, clock_of, takes_effect};
ghost use Rattle.pws_event.specs.Histories.{Past, nothing, with_call, with_ask, after_event};
ghost use Rattle.pws_event.specs.Counters.{IsCounters, HasTaken, CanCall, counter_of, slot_of, is_waiting, least_waiting, would_take, would_answer, would_effect, after_request, after_answer, ask_answered, after_clock, after_seed, after_call, after_ask, counters_after};

fn is_sort(asked: Sort, sort: Sort) -> bool
    ensures { result ≡ is_sort asked sort }
{
    match (asked, sort) {
        (Sort::Clock, Sort::Clock) => true,
        (Sort::Random, Sort::Random) => true,
        (Sort::Clock, Sort::Random) => false,
        (Sort::Random, Sort::Clock) => false,
    }
}

/// The slot in which the number of a call stands while it waits.
fn slot(called: GroupId, number: Number) -> usize
    requires { called < 16 }
    ensures value { result ≡ slot_of called number }
    ensures small { result < 256 }
{
    16 * called as usize + (number % 16) as usize
}

impl Effect {
    /// The counters of the group `me`, which is to be one of the layout, before its first event.
    pub fn new(me: GroupId, layout: &Layout) -> Effect
        requires { me < length layout.now }
        ensures taken { HasTaken result nothing }
        ensures me { result.me ≡ me }
        ensures layout { result.layout ≡ layout.now }
    {
        // shows: a layout has at most 16 groups, as many as there are counters
        let _groups = layout.groups();
        Effect {
            me,
            layout: *layout,
            last: [0; 16],
            low: [1; 16],
            called: [0; 16],
            waiting: [0; 256],
            answered: 0,
            ask: None,
            clock: 0,
        }
    }

    /// The group whose events these are, one of the layout.
    pub fn me(&self) -> GroupId
        ensures value { result ≡ self.now.me }
        ensures lawful { IsCounters self.now }
    {
        self.me
    }

    /// All groups.
    pub fn layout(&self) -> Layout
        ensures value { result ≡ self.now.layout }
        ensures lawful { IsCounters self.now }
    {
        self.layout
    }

    /// The number of a caller's last request that took effect; 0 before the first, and always for the own group and
    /// for a number that is no group of the layout.
    pub fn last(&self, caller: GroupId) -> Number
        ensures value { (past : Past) → HasTaken self.now past → result ≡ last_of caller past.effects }
        ensures counter { result ≡ counter_of self.now.last caller 0 }
        ensures none { is_other self.now.me self.now.layout caller ≡ false → result ≡ 0 }
        ensures small { result ≤ max_number }
    {
        if caller < 16 {
            self.last[caller as usize]
        } else {
            0
        }
    }

    /// The low number of a caller's last request that took effect; 1 before the first, and always for the own group
    /// and for a number that is no group of the layout. It is at most the number of that request, which is below it plus
    /// 16.
    pub fn low_in(&self, caller: GroupId) -> Number
        ensures value { (past : Past) → HasTaken self.now past → result ≡ low_of caller past.effects }
        ensures counter { result ≡ counter_of self.now.low caller 1 }
        ensures none { is_other self.now.me self.now.layout caller ≡ false → result ≡ 1 }
        ensures least { 1 ≤ result }
        ensures most { result ≤ max 1 (counter_of self.now.last caller 0) }
        ensures window { counter_of self.now.last caller 0 < result + call_window }
    {
        if caller < 16 {
            self.low[caller as usize]
        } else {
            1
        }
    }

    /// The number of the last call to a group that was noted; 0 before the first, and always for the own group and for
    /// a number that is no group of the layout.
    pub fn last_call(&self, called: GroupId) -> Number
        ensures value { (past : Past) → HasTaken self.now past → result ≡ last_call past.acts.calls called }
        ensures counter { result ≡ counter_of self.now.called called 0 }
        ensures none { is_other self.now.me self.now.layout called ≡ false → result ≡ 0 }
        ensures small { result ≤ max_number }
    {
        if called < 16 {
            self.called[called as usize]
        } else {
            0
        }
    }

    /// The least number of a call to a group that waits for its answer, or where none waits the number of the next,
    /// which is 1 before the first, and always for the own group and for a number that is no group of the layout. The
    /// number of the last call is below it plus 16.
    #[tactic(auto, using(crate::proofs::Outgoing::low_out_same, crate::proofs::Outgoing::low_out_none))]
    pub fn low_out(&self, called: GroupId) -> Number
        ensures value { (past : Past) → HasTaken self.now past → result ≡ low_out past.acts past.effects called }
        ensures counter { result ≡ least_waiting self.now called }
        ensures none { is_other self.now.me self.now.layout called ≡ false → result ≡ 1 }
        ensures least { 1 ≤ result }
        ensures most { result ≤ counter_of self.now.called called 0 + 1 }
        ensures window { counter_of self.now.called called 0 < result + call_window }
        ensures small { result ≤ max_number + 1 }
    {
        self.find_low_out(called)
    }

    /// The first of the sixteen numbers up to the last that waits, or the number of the next call.
    #[tactic(auto, using(crate::proofs::Outgoing::first_here, crate::proofs::Outgoing::first_later, crate::proofs::Outgoing::first_none))]
    fn find_low_out(&self, called: GroupId) -> Number
        ensures counter { result ≡ least_waiting self.now called }
        ensures counters { IsCounters self.now }
        ensures least { 1 ≤ result }
        ensures most { result ≤ counter_of self.now.called called 0 + 1 }
        ensures window { counter_of self.now.called called 0 < result + call_window }
        ensures small { result ≤ max_number + 1 }
    {
        // shows: the counters are in range
        let _own = &self.me;
        let last = self.last_call(called);
        let first = last.saturating_sub(15);
        for number in first..last + 1 {
            if self.is_waiting(called, number) {
                return number;
            }
        }
        last + 1
    }

    /// Whether the call of this number to a group waits: it was noted, and no reply or abort of it took effect.
    pub fn waits(&self, called: GroupId, number: Number) -> bool
        ensures value { (past : Past) → HasTaken self.now past → result ≡ waits past.acts past.effects called number }
        ensures counter { result ≡ is_waiting self.now.waiting called number }
    {
        self.is_waiting(called, number)
    }

    fn is_waiting(&self, called: GroupId, number: Number) -> bool
        ensures counter { result ≡ is_waiting self.now.waiting called number }
        ensures counters { IsCounters self.now }
    {
        called < 16 && number != 0 && self.waiting[slot(called, number)] == number
    }

    /// The ask that waits for its answer, by its number, from 1 on, and its sort.
    #[tactic(auto, using(crate::proofs::Asked::waiting_same))]
    pub fn waiting_ask(&self) -> Option<(u32, Sort)>
        ensures value { (past : Past) → HasTaken self.now past → result ≡ waiting_ask past.acts past.effects }
        ensures none { IsNone result ↔ (self.now.ask ≡ None) }
        ensures counter { result ≡ option_map (λ s. (self.now.answered + 1, s)) self.now.ask }
    {
        match self.ask {
            Some(sort) => Some((self.answered + 1, sort)),
            None => None,
        }
    }

    /// How many asks were answered, at most 1,000,000.
    pub fn answered_asks(&self) -> u32
        ensures value { (past : Past) → HasTaken self.now past → result ≡ answered_asks past.effects }
        ensures counter { result ≡ self.now.answered }
        ensures small { result ≤ max_number }
    {
        self.answered
    }

    /// The agreed time in milliseconds, 0 before the first; it never falls.
    pub fn clock(&self) -> u64
        ensures value { (past : Past) → HasTaken self.now past → result ≡ clock_of (slice_index self.now.layout self.now.me) past.effects }
        ensures counter { result ≡ self.now.clock }
    {
        self.clock
    }

    /// Whether a request would take effect now.
    #[tactic(auto, using(crate::proofs::Counted::request_same))]
    pub fn would_take(&self, request: &Request) -> bool
        ensures counters { result ≡ would_take self.now request.now }
        ensures value { (past : Past) → HasTaken self.now past → result ≡ takes_effect self.now.me self.now.layout past.acts past.effects (Event.Request request.now) }
    {
        self.decides(request)
    }

    /// Whether a request takes effect by the counters.
    fn decides(&self, request: &Request) -> bool
        ensures answer { result ≡ would_take self.now request.now }
        ensures lawful { IsRequest request.now }
    {
        let caller = request.caller();
        self.layout.is_other(self.me, caller)
            && request.number() == self.last[caller as usize] + 1
            && self.low[caller as usize] <= request.low()
            && request.low() <= request.number()
            && request.number() < request.low() + CALL_WINDOW
    }

    /// Takes the next event of the group's list: `Taken` exactly where it takes effect, and else `Void`, which leaves
    /// the counters.
    #[tactic(auto, using(crate::proofs::Counted::effect_same))]
    pub fn take(&mut self, event: &Event) -> Taken
        ensures taken { (past : Past) → HasTaken self.old past → HasTaken self.new (after_event self.old.me self.old.layout past event.now) }
        ensures decided { result ≡ (if would_effect self.old event.now then Taken.Taken else Taken.Void) }
        ensures answer { (past : Past) → HasTaken self.old past → result ≡ (if takes_effect self.old.me self.old.layout past.acts past.effects event.now then Taken.Taken else Taken.Void) }
        ensures counters { self.new ≡ counters_after self.old event.now }
        ensures me { self.new.me ≡ self.old.me }
        ensures layout { self.new.layout ≡ self.old.layout }
    {
        self.step(event)
    }

    fn step(&mut self, event: &Event) -> Taken
        ensures lawful { IsEvent event.now }
        ensures counters { IsCounters self.old }
        ensures taken { self.new ≡ counters_after self.old event.now }
        ensures answer { result ≡ (if would_effect self.old event.now then Taken.Taken else Taken.Void) }
    {
        match event {
            Event::Null => {
                // shows: the counters are in range
                let _same = &self.me;
                Taken::Void
            }
            Event::Request(request) => self.take_request(request),
            Event::Reply(reply) => self.take_answer(reply.called(), reply.number()),
            Event::Abort(abort) => self.take_answer(abort.called(), abort.number()),
            Event::Clock(clock) => self.take_clock(clock),
            Event::Random(random) => self.take_seed(random),
        }
    }

    fn take_request(&mut self, request: &Request) -> Taken
        ensures lawful { IsRequest request.now }
        ensures counters { IsCounters self.old }
        ensures taken { self.new ≡ after_request self.old request.now }
        ensures answer { result ≡ (if would_take self.old request.now then Taken.Taken else Taken.Void) }
    {
        if !self.decides(request) {
            return Taken::Void;
        }
        let caller = request.caller() as usize;
        self.last[caller] = request.number();
        self.low[caller] = request.low();
        Taken::Taken
    }

    /// Takes a reply or an abort of a call.
    fn take_answer(&mut self, called: GroupId, number: Number) -> Taken
        ensures counters { IsCounters self.old }
        ensures taken { self.new ≡ after_answer self.old called number }
        ensures answer { result ≡ (if is_waiting self.old.waiting called number then Taken.Taken else Taken.Void) }
    {
        if !self.is_waiting(called, number) {
            return Taken::Void;
        }
        self.waiting[slot(called, number)] = 0;
        Taken::Taken
    }

    /// Whether the ask of this number and sort waits.
    fn asks_for(&self, ask: u32, sort: Sort) -> bool
        ensures answer { result ≡ would_answer self.now ask sort }
        ensures counters { IsCounters self.now }
    {
        match self.ask {
            Some(asked) => self.answered + 1 == ask && is_sort(asked, sort),
            None => false,
        }
    }

    /// Answers the ask that waits.
    fn answer_ask(&mut self)
        requires { self.old.answered < max_number }
        ensures { self.new ≡ ask_answered self.old }
    {
        self.answered += 1;
        self.ask = None;
    }
}

impl Effect {
    /// Takes readings of the clock.
    fn take_clock(&mut self, clock: &Clock) -> Taken
        ensures lawful { IsClock clock.now }
        ensures counters { IsCounters self.old }
        ensures taken { self.new ≡ after_clock self.old clock.now }
        ensures answer { result ≡ (if would_answer self.old clock.now.ask Sort.Clock then Taken.Taken else Taken.Void) }
    {
        if !self.asks_for(clock.ask(), Sort::Clock) {
            return Taken::Void;
        }
        let time = agreed_time(self.faults(), clock.readings());
        self.answer_ask();
        self.clock = self.clock.max(time);
        Taken::Taken
    }

    /// Takes shares of a seed.
    fn take_seed(&mut self, random: &Random) -> Taken
        ensures lawful { IsRandom random.now }
        ensures counters { IsCounters self.old }
        ensures taken { self.new ≡ after_seed self.old random.now }
        ensures answer { result ≡ (if would_answer self.old random.now.ask Sort.Random then Taken.Taken else Taken.Void) }
    {
        if !self.asks_for(random.ask(), Sort::Random) {
            return Taken::Void;
        }
        self.answer_ask();
        Taken::Taken
    }

    /// How many compromised replicas the own group bears.
    fn faults(&self) -> u8
        ensures { result ≡ slice_index self.now.layout self.now.me }
    {
        match self.layout.shape(self.me) {
            Some(shape) => shape.f(),
            None => 0,
        }
    }

    /// Whether a call of this number to this group may be noted: `called` is another group of the layout, and the number
    /// is one more than that of the last noted call to it (the first is 1), which `last_call` tells, below `low_out` plus
    /// 16, and at most 1,000,000.
    pub fn can_call(&self, called: GroupId, number: Number) -> bool
        ensures { IsTrue result ↔ CanCall self.now called number }
    {
        self.layout.is_other(self.me, called)
            && number == self.last_call(called) + 1
            && number < self.low_out(called) + CALL_WINDOW
            && number <= MAX_NUMBER
    }

    /// Notes the next call of the group's service, which is one that may be noted.
    pub fn call(&mut self, called: GroupId, number: Number)
        requires { CanCall self.old called number }
        ensures taken { (past : Past) → HasTaken self.old past → HasTaken self.new (record past { acts = with_call called number past.acts }) }
        ensures counters { self.new ≡ after_call self.old called number }
        ensures me { self.new.me ≡ self.old.me }
        ensures layout { self.new.layout ≡ self.old.layout }
    {
        self.note_call(called, number);
    }

    fn note_call(&mut self, called: GroupId, number: Number)
        requires { CanCall self.old called number }
        ensures counters { IsCounters self.old }
        ensures noted { self.new ≡ after_call self.old called number }
    {
        self.called[called as usize] = number;
        self.waiting[slot(called, number)] = number;
    }

    /// Notes the next ask of the group's service. Its condition: no ask waits, which `waiting_ask` tells.
    #[tactic(auto, using(crate::proofs::Asked::ask_more))]
    pub fn ask(&mut self, sort: Sort)
        requires { self.old.ask ≡ None }
        ensures taken { (past : Past) → HasTaken self.old past → HasTaken self.new (record past { acts = with_ask sort past.acts }) }
        ensures counters { self.new ≡ after_ask self.old sort }
        ensures me { self.new.me ≡ self.old.me }
        ensures layout { self.new.layout ≡ self.old.layout }
    {
        self.ask = Some(sort);
    }
}

impl ExactCopy for Effect {
    fn copy(&self, _alloc: Global) -> Result<Effect, Memory> {
        Ok(*self)
    }
}
