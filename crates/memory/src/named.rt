// Bytes that the bus takes or sets by itself, whatever the level.
ghost use Rattle.std.specs.Prelude.{◌≡◌};
ghost use Rattle.memory.specs.Bytes.{low_at};
ghost use Rattle.memory.specs.Access.{address_byte, with_pins};

use super::Bytes;

// D0h of table 03h.
pub fn address_byte(bytes: &Bytes) -> u8
    ensures { result ≡ address_byte bytes.now }
{
    bytes[0x1D0]
}

// 6Eh becomes the value.
pub fn set_pins(bytes: &mut Bytes, value: u8)
    ensures { bytes.new ≡ with_pins bytes.old value }
{
    bytes[0x6E] = value;
}

// The low byte of the two-byte value whose high byte stands at the place of this number: in the lower half, a place has its address.
pub fn low_at(bytes: &Bytes, address: u8) -> u8
    ensures { result ≡ low_at bytes.now address }
{
    bytes[address as usize + 1]
}
