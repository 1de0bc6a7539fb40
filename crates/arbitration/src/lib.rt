#![tactic(auto)]

// Two hosts that start together on one line: 2.9 of document 02.
use device::Device;
use memory::Refused;

mod calls; // the whole call
mod messages; // two messages: who survives, or why they are refused
mod transfer; // the survivor's message to the device

pub use calls::{arbitrate, arbitrate_in};

// Who survives: both where the messages are equal.
#[derive(Clone, Copy, Debug, PartialEq, Eq)]
pub enum Winner {
    First,
    Second,
    Both,
}

// A call: who survives, or why it is refused; and the device after it.
#[derive(Clone, Copy)]
pub struct ArbitrationResult {
    pub outcome: Result<Winner, Refused>,
    pub device: Device,
}
