// The writer of the primary header: six bytes from its fields, version 0 and sequence flags both set. Whoever writes a packet
// begins it with these.
ghost use Rattle.std.specs.Prelude.{◌≡◌};
ghost use Rattle.packet_rules.specs.HeaderBytes.{header_bytes, HeaderFits};

use wire::word::{high, low};

// The bytes of a header: type and secondary header flag one bit each, APID, sequence count, length field.
// internal: for the path's own writers, which have refused what does not fit its bits.
pub fn primary(kind: u8, secondary: u8, apid: u16, count: u16, field: u16) -> [u8; 6]
    requires { HeaderFits kind secondary apid count field }
    ensures { result ≡ header_bytes kind secondary apid count field }
{
    [
        kind * 16 + secondary * 8 + high(apid),
        low(apid),
        3 * 64 + high(count),
        low(count),
        high(field),
        low(field),
    ]
}
