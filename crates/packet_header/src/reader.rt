// The reader of the primary header: all its fields as one struct.

ghost use Rattle.std.specs.Prelude.{◌≡◌};
ghost use Rattle.packet_header.specs.Header.{header_of};

use crate::types::Header;

// The primary header of a packet, whatever else is wrong with it; below 6 bytes there is none.
pub fn read(packet: &[u8]) -> Header
    ensures { result ≡ header_of packet.now }
{
    if packet.len() < 6 {
        return Header {
            answer: 22,
            version: 0,
            kind: 0,
            secondary: 0,
            apid: 0,
            flags: 0,
            count: 0,
            length: 0,
        };
    }
    let b0 = packet[0];
    let b2 = packet[2];
    Header {
        answer: 0,
        version: crate::bits::version(b0),
        kind: crate::bits::packet_type(b0),
        secondary: crate::bits::secondary(b0),
        apid: crate::bits::apid(b0, packet[1]),
        flags: crate::bits::seq_flags(b2),
        count: crate::bits::seq_count(b2, packet[3]),
        length: wire::word::big(packet[4], packet[5]),
    }
}
