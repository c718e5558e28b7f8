// The parts of a packet that the judge has accepted: its command id, its argument count and its argument part. There is no type of
// accepted packets: each reader is one line, asked right behind the judge, and a wrapper would be taken off again for the bytes
// that go on.
ghost use Rattle.std.specs.Prelude.{◌≡◌, ◌+◌};
ghost use Rattle.packet_rules.specs.Layout.{command_id, arg_count};
ghost use Rattle.packet_rules.specs.Judge.{arguments_of};
ghost use Rattle.packet_rules.specs.JudgeOutcome.{Accepts};

// internal: the command id of a packet that its caller has judged.
pub fn command_id(packet: &[u8]) -> u16
    requires { Accepts packet.now }
    ensures { result ≡ command_id packet.now }
{
    wire::word::big(packet[8], packet[9])
}

// The packet's size is 7 + its length field, so the field need not be read again.
// internal: the argument count of a packet that its caller has judged.
pub(crate) fn arg_count(packet: &[u8]) -> u8
    requires { Accepts packet.now }
    ensures { result ≡ arg_count packet.now }
{
    let pads = packet_header::bits::pads(packet[6]) as usize;
    (packet.len() - pads - 10) as u8
}

// It ends where the pads begin.
// internal: the argument part of a packet that its caller has judged.
pub fn accepted_part(packet: &[u8]) -> &[u8]
    requires { Accepts packet.now }
    ensures content { result.now ≡ arguments_of packet.now }
    ensures place { (result.ref_ptr.0 ≡ packet.entry.ref_ptr.0) × (result.ref_ptr.1 ≡ 10 + packet.entry.ref_ptr.1) }
{
    let pads = packet_header::bits::pads(packet[6]) as usize;
    let end = packet.len() - pads;
    &packet[10..end]
}
