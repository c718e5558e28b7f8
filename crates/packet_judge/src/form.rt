// The form of a packet: the checks of the header's bits and of the XOR.
ghost use Rattle.std.specs.Prelude.{◌≡◌, List, ℕ, ◌/◌, ◌≤◌, length};
ghost use Rattle.packet_rules.specs.Layout.{byte};
ghost use Rattle.packet_rules.specs.Judge.{form_refusal};
ghost use Rattle.packet_rules.specs.JudgeOutcome.{BadForm};
ghost use Rattle.packet_rules.specs.Rejection.{number_of, told};

use packet_rules::rejection::Rejection;

// Checks 24 to 27, of the header's bits and of the XOR. A right packet pays for one test of the bits: the high five are
// version 0, telecommand and secondary header, 00011. The first byte is held against the XOR of the rest, and not the
// whole XOR against zero: only so does the compiler make vector code of the loop.
// internal: for the judge and whoever looks for packets in other bytes; the caller has seen that there is a byte.
pub(crate) fn form_refusal(packet: &[u8]) -> Result<(), Rejection>
    requires { 1 ≤ length packet.now }
    ensures { told result ≡ form_refusal packet.now }
{
    let b0 = packet[0];
    if b0 >> 3 != 3 {
        return Err(head_refusal(b0));
    }
    if wire::xor::all(&packet[1..]) != b0 {
        return Err(Rejection::XorNotZero);
    }
    Ok(())
}

// Which of the checks 24 to 26 refuses a packet that begins so. Where the first two do not, the third does.
// internal: for `form_refusal`, which has seen that one of the three does.
fn head_refusal(b0: u8) -> Rejection
    requires { b0 / 8 ≡ 3 → ⊥ }
    ensures { (s : List ℕ) → byte 0 s ≡ b0 → BadForm s (number_of result) }
{
    if packet_header::bits::version(b0) != 0 {
        return Rejection::WrongVersion;
    }
    if packet_header::bits::packet_type(b0) != 1 {
        return Rejection::NotTelecommand;
    }
    Rejection::NoSecondaryHeader
}
