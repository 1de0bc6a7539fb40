// The whole call.
ghost use Rattle.std.specs.Prelude.{◌≡◌};
ghost use Rattle.device.specs.State.{device_at, SameLine};
ghost use Rattle.arbitration.specs.Arbitration.{arbitrate_of, result_with};

use super::messages::outcome;
use super::transfer::deliver;
use super::{ArbitrationResult, Winner};
use device::{Device, DeviceMut};
use memory::Refused;

// Two hosts that start together, over a device whose line is lent. A refusal changes nothing.
#[tactic(auto, using(crate::proofs::Delivery::won_is, crate::proofs::Delivery::refused_is))]
pub fn arbitrate_in(
    device: &mut DeviceMut<'_>,
    first: &[u8],
    second: &[u8],
) -> Result<Winner, Refused>
    ensures line { SameLine device.old device.new }
    ensures outcome { result_with result (device_at device.new) ≡ arbitrate_of (device_at device.old) first.now second.now }
{
    let winner = outcome(first, second)?;
    deliver(device, winner, first, second);
    Ok(winner)
}

// Two hosts that start together: who survives, and the device after S, the survivor's bytes and E. (The line is lent as
// in device `step`.)
pub fn arbitrate(d: Device, first: &[u8], second: &[u8]) -> ArbitrationResult
    ensures { result ≡ arbitrate_of d first.now second.now }
{
    let mut after = d;
    let memory = &mut after.memory;
    let mut device = DeviceMut {
        bytes: &mut memory.bytes,
        password2: memory.password2,
        asel: memory.asel,
        internal: d.internal,
    };
    let outcome = arbitrate_in(&mut device, first, second);
    after.internal = device.internal;
    ArbitrationResult {
        outcome,
        device: after,
    }
}
