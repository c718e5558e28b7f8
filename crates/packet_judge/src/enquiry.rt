// The enquiry beside the judge: the argument part of the lent packet itself, uncopied.
ghost use Rattle.std.specs.Prelude.{◌≡◌, ◌+◌};
ghost use Rattle.packet_rules.specs.Judge.{arguments_of, arguments_at};

use crate::judge;
pub use crate::parts::accepted_part;

// The argument part; for a packet that the judge refuses the empty part at the packet's start. `place` says that the part
// is that very memory: the packet's own, so many bytes from where the packet begins.
pub fn arguments(packet: &[u8]) -> &[u8]
    ensures content { result.now ≡ arguments_of packet.now }
    ensures place { (result.ref_ptr.0 ≡ packet.entry.ref_ptr.0) × (result.ref_ptr.1 ≡ arguments_at packet.now + packet.entry.ref_ptr.1) }
{
    match judge::refusal(packet) {
        Err(_) => &packet[..0],
        Ok(()) => accepted_part(packet),
    }
}
