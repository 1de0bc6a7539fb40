#![tactic(auto)]

// What a C host links: each function calls that of its name in crate `host`, under the same clauses, and has the name that C knows.
ghost use Rattle.std.specs.Prelude.{◌≡◌, map, length};
ghost use Rattle.std.proofs.Math.Option.{get_or};
ghost use Rattle.event_log.specs.Run.{buffer_of};
ghost use Rattle.event_log.specs.Write.{row_of, written_of, left_of};
ghost use Rattle.host.specs.State.{lend, device_of};
ghost use Rattle.host.specs.Numbers.{outcome_number};
ghost use Rattle.host.specs.Calls.{
  raw_with,
  start_call,
  apply_call,
  run_call,
  cycles_call,
  arbitrate_call,
  level_at,
  busy_at,
  flags_at,
  current_at,
  outputs_at,
  byte_at,
};
ghost use Rattle.calibration.specs.Calibration.{raws_in, calibrated_of};
ghost use Rattle.host.specs.Values.{five, five_after, calibrated_number};

use host::{InternalBytes, OwnBytes};
use memory::Bytes;

// A start from an image: 0, or 15 or 16, which leave all lent bytes.
#[unsafe(no_mangle)]
pub extern "C" fn ds1852_lent_start(
    bytes: &mut Bytes,
    own: &mut OwnBytes,
    internal: &mut InternalBytes,
    image: &[u8],
) -> u32
    ensures { let a = start_call (lend bytes.old own.old internal.old) image.now in
        (result ≡ a.number) × ((bytes.new ≡ a.left.bytes) × ((own.new ≡ a.left.own) × (internal.new ≡ a.left.internal))) }
{
    host::ds1852_lent_start(bytes, own, internal, image)
}

// A single event: the answer's letter * 256 + value, or 13, which leaves the lent bytes.
#[unsafe(no_mangle)]
pub extern "C" fn ds1852_lent_apply(
    bytes: &mut Bytes,
    own: &OwnBytes,
    internal: &mut InternalBytes,
    letter: u16,
    channel: u16,
    value: u16,
) -> u32
    ensures { let a = apply_call (lend bytes.old own.now internal.old) (raw_with letter channel value) in
        (result ≡ a.number) × ((bytes.new ≡ a.left.bytes) × (internal.new ≡ a.left.internal)) }
{
    host::ds1852_lent_apply(bytes, own, internal, letter, channel, value)
}

// A log: the length of the answers, and in the lent number how many write cycles began; or the refusal's number * 2^32 + line, which leaves the
// lent bytes, the answer buffer and the lent number.
#[unsafe(no_mangle)]
pub extern "C" fn ds1852_lent_run(
    bytes: &mut Bytes,
    own: &OwnBytes,
    internal: &mut InternalBytes,
    log: &[u8],
    answers: &mut [u8],
    cycles: &mut u32,
) -> u64
    ensures { let l = lend bytes.old own.now internal.old in
        let a = run_call l log.now (length answers.old) in
        (result ≡ a.number) × ((bytes.new ≡ a.left.bytes) × ((internal.new ≡ a.left.internal)
        × ((answers.new ≡ buffer_of (device_of l) log.now answers.old)
        × (cycles.new ≡ get_or (cycles_call l log.now (length answers.old)) cycles.old)))) }
{
    host::ds1852_lent_run(bytes, own, internal, log, answers, cycles)
}

// Two hosts that start together: 1 if the first survives, 2 if the second, 3 if both, and the device after S, the survivor's bytes and E; or 20, 21
// or 22, which leave the lent bytes.
#[unsafe(no_mangle)]
pub extern "C" fn ds1852_core_arbitrate(
    bytes: &mut Bytes,
    own: &OwnBytes,
    internal: &mut InternalBytes,
    first: &[u8],
    second: &[u8],
) -> u32
    ensures { let a = arbitrate_call (lend bytes.old own.now internal.old) first.now second.now in
        (result ≡ a.number) × ((bytes.new ≡ a.left.bytes) × (internal.new ≡ a.left.internal)) }
{
    host::ds1852_core_arbitrate(bytes, own, internal, first, second)
}

// Writes a log of events: the length of the text, or the refusal's number * 2^32, which leaves the text.
#[unsafe(no_mangle)]
pub extern "C" fn ds1852_write(events: &[[u16; 3]], text: &mut [u8]) -> u64
    ensures { (result ≡ outcome_number (written_of (map row_of events.now) (length text.old)))
        × (text.new ≡ left_of (map row_of events.now) text.old) }
{
    host::ds1852_write(events, text)
}

// The level that the password entry gives.
#[unsafe(no_mangle)]
pub extern "C" fn ds1852_lent_level(bytes: &Bytes, own: &OwnBytes) -> u32
    ensures { result ≡ level_at bytes.now own.now }
{
    host::ds1852_lent_level(bytes, own)
}

// Whether the device is busy: 1, or 0. An event that found 0 and left 1 began a write cycle.
#[unsafe(no_mangle)]
pub extern "C" fn ds1852_lent_busy(internal: &InternalBytes) -> u32
    ensures { result ≡ busy_at internal.now }
{
    host::ds1852_lent_busy(internal)
}

// The number of raised flags: one load. Bytes that no device left tell what stands there.
#[unsafe(no_mangle)]
pub extern "C" fn ds1852_lent_flags_up(internal: &InternalBytes) -> u32
    ensures { result ≡ flags_at internal.now }
{
    host::ds1852_lent_flags_up(internal)
}

// The current entry of tables 04h and 05h: one load. Bytes that no device left tell what stands there.
#[unsafe(no_mangle)]
pub extern "C" fn ds1852_lent_current_entry(internal: &InternalBytes) -> u32
    ensures { result ≡ current_at internal.now }
{
    host::ds1852_lent_current_entry(internal)
}

// The outputs of tables 04h and 05h: that of 04h * 256 + that of 05h.
#[unsafe(no_mangle)]
pub extern "C" fn ds1852_lent_outputs(bytes: &Bytes, internal: &InternalBytes) -> u32
    ensures { result ≡ outputs_at bytes.now internal.now }
{
    host::ds1852_lent_outputs(bytes, internal)
}

// The byte that an address reads.
#[unsafe(no_mangle)]
pub extern "C" fn ds1852_lent_read(bytes: &Bytes, own: &OwnBytes, address: u8) -> u32
    ensures { result ≡ byte_at bytes.now own.now address }
{
    host::ds1852_lent_read(bytes, own, address)
}

// From the lower bytes of a module and raw readings in the order T, V, B, P, R: 0 and five values, R by its bits; or 17, 18 or 19,
// which leave them.
#[unsafe(no_mangle)]
pub extern "C" fn ds1852_lent_calibrate(
    lent: &[u8],
    raws: &[u16; 5],
    temperature: &mut i32,
    supply: &mut i32,
    bias: &mut i32,
    transmitted: &mut i32,
    received: &mut u32,
) -> u32
    ensures { let a = calibrated_of lent.now (raws_in raws.now) in
        let held = five temperature.old supply.old bias.old transmitted.old received.old in
        (result ≡ calibrated_number a) × (five temperature.new supply.new bias.new transmitted.new received.new ≡ five_after held a) }
{
    host::ds1852_lent_calibrate(lent, raws, temperature, supply, bias, transmitted, received)
}
