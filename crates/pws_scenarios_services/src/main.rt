//! The cases of services: scripts with effects and the acts that they bring, over envelopes of SOAP and over texts in the
//! place of envelopes, and single texts of envelopes, as the files in data/ have them.
//!
//! docs/SCENARIOS.md has the form of the files, and the steps of each layer. The program has no contract of its own, and
//! nothing stands on it.
#![tactic(auto)]

mod acts;
mod envelopes;
mod events;
mod services;

use crate::envelopes::step_envelopes;
use crate::services::Service;
use pws_base::memory::Memory;
use pws_driver_plain::plain::Plain;
use pws_envelopes::soap::SoapEnvelopes;
use pws_scenarios::layers::{Layer, StepError};
use pws_scenarios::reading::Step;
use pws_scenarios::running::run_files;
use std::alloc::Global;
use std::io;
use std::process::ExitCode;

/// The layers of this program.
#[derive(Drop)]
enum ServiceLayers {
    Soap(Service<SoapEnvelopes>),
    Plain(Service<Plain>),
    Envelopes,
}

impl Layer for ServiceLayers {
    fn begin(_alloc: Global, name: &str) -> Result<Option<ServiceLayers>, Memory> {
        Ok(match name {
            "services" => Some(ServiceLayers::Soap(Service::new())),
            "plain-services" => Some(ServiceLayers::Plain(Service::new())),
            "service-envelopes" => Some(ServiceLayers::Envelopes),
            _ => None,
        })
    }

    fn step(
        &mut self,
        alloc: Global,
        step: &Step,
        answers: &mut Vec<String>,
    ) -> Result<(), StepError> {
        match self {
            ServiceLayers::Soap(service) => service.step(alloc, step, answers),
            ServiceLayers::Plain(service) => service.step(alloc, step, answers),
            ServiceLayers::Envelopes => step_envelopes(alloc, step, answers),
        }
    }
}

fn main(rt: HostRuntime) -> io::Result<ExitCode> {
    run_files::<ServiceLayers>(&rt)
}
