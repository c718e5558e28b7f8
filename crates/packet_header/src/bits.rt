// The bit fields of the header bytes, taken by shifts and masks. Each contract is plain arithmetic on the byte, so that no
// caller ever sees a mask.
ghost use Rattle.std.specs.Prelude.{◌≡◌, ◌+◌, ◌*◌, ◌/◌, ◌%◌};

use wire::word;

// The high three bits of byte 0.
pub fn version(b0: u8) -> u8
    ensures { result ≡ b0 / 32 }
{
    b0 >> 5
}

// The next bit of byte 0, the type: 1 is a telecommand.
pub fn packet_type(b0: u8) -> u8
    ensures { result ≡ b0 / 16 % 2 }
{
    (b0 >> 4) & 1
}

// The next bit of byte 0: the secondary header flag.
pub fn secondary(b0: u8) -> u8
    ensures { result ≡ b0 / 8 % 2 }
{
    (b0 >> 3) & 1
}

// The low three bits of byte 0, and byte 1.
pub fn apid(b0: u8, b1: u8) -> u16
    ensures { result ≡ b0 % 8 * 256 + b1 }
{
    word::big(b0 & 7, b1)
}

// The high two bits of byte 2.
pub fn seq_flags(b2: u8) -> u8
    ensures { result ≡ b2 / 64 }
{
    b2 >> 6
}

// The low six bits of byte 2, and byte 3.
pub fn seq_count(b2: u8, b3: u8) -> u16
    ensures { result ≡ b2 % 64 * 256 + b3 }
{
    word::big(b2 & 63, b3)
}

// The low seven bits of the function code, byte 6: the number of pad bytes.
pub fn pads(b6: u8) -> u8
    ensures { result ≡ b6 % 128 }
{
    b6 & 127
}
