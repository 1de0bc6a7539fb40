// The survivor's message, as the device receives it.
ghost use Rattle.std.specs.Prelude.{◌≡◌, map};
ghost use Rattle.letters.specs.Letters.{raw_of};
ghost use Rattle.device.specs.State.{device_at, SameLine};
ghost use Rattle.device.specs.Run.{after_of};
ghost use Rattle.arbitration.specs.Arbitration.{message_of, transfer_of};

use super::Winner;
use device::DeviceMut;
use letters::Event;
use std::iter::once;

// S, the bytes of a message and E. The answers are told to nobody: a host that is not acknowledged goes on.
fn transfer(device: &mut DeviceMut<'_>, message: &[u8])
    ensures line { SameLine device.old device.new }
    ensures device { device_at device.new ≡ after_of (device_at device.old) (map raw_of (transfer_of message.now)) }
{
    let sent = message.iter().map(|byte| Event::Byte(*byte));
    for event in once(Event::Start).chain(sent).chain(once(Event::Stop)) {
        device.step(event);
    }
}

// The message of the host that survives; of two equal ones the first.
pub fn deliver(device: &mut DeviceMut<'_>, winner: Winner, first: &[u8], second: &[u8])
    ensures line { SameLine device.old device.new }
    ensures device { device_at device.new ≡ after_of (device_at device.old) (map raw_of (transfer_of (message_of winner first.now second.now))) }
{
    let message = match winner {
        Winner::First | Winner::Both => first,
        Winner::Second => second,
    };
    transfer(device, message)
}
