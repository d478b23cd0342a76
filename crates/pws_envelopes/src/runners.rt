//! The driver that runs a script over envelopes of SOAP.

ghost use Rattle.std.specs.Prelude.{◌≡◌, ◌<◌, List, length, false, IfOk};
ghost use Rattle.pws_event.specs.declared.events.Event.{Event};
ghost use Rattle.pws_envelopes.specs.Acts.{soap_acts};

use crate::soap::SoapEnvelopes;
use pws_base::memory::Memory;
use pws_base::shapes::{GroupId, Layout};
use pws_driver::runners::Runner;
use pws_script::scripts::Script;
use pws_service::drivers::Driver;
use std::alloc::Global;

/// The driver that runs a script over envelopes of SOAP 1.2 with headers of WS-Addressing 1.0.
pub type SoapRunner = Runner<SoapEnvelopes>;

/// The runner of a script in the group `me`, which is to be one of the layout.
///
/// # Errors
///
/// `Memory` only.
pub fn soap_runner(
    alloc: Global,
    script: Script,
    me: GroupId,
    layout: &Layout,
) -> Result<SoapRunner, Memory>
    requires { me < length layout.now }
    ensures started { IfOk result (λ r. ⟦<SoapRunner as Driver>⟧.started r ≡ false) }
    ensures stopped { IfOk result (λ r. ⟦<SoapRunner as Driver>⟧.stopped r ≡ false) }
    ensures acts { (effects : List Event) → IfOk result (λ r. ⟦<SoapRunner as Driver>⟧.acts (⟦<SoapRunner as Driver>⟧.program r) effects ≡ soap_acts script me layout.now effects) }
    ensures fits { IfOk result (λ r. ⟦<SoapRunner as Driver>⟧.fits (⟦<SoapRunner as Driver>⟧.program r) me layout.now) }
{
    Runner::new(alloc, script, me, layout)
}
