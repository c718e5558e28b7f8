// The packet builder: a telecommand packet from its fields, in the form that the judge accepts.
#![tactic(auto)]

ghost use Rattle.std.specs.Prelude.{◌≡◌, length};
ghost use Rattle.wire.specs.Put.{over};
ghost use Rattle.build_rules.specs.Build.{given, packet_of, handed_back, built_of, built_output};
ghost use Rattle.build_rules.specs.BuildLaws.{unpadded};
ghost use Rattle.build_rules.specs.BuildOutcome.{Ready};

use build_rules::types::{Built, Unbuildable};
use wire::word::{high, low};

// Builds the packet at the start of `out`: 0 and the bytes written, or the first refusal in the order of the numbers and 0.
// Later bytes stay, and a refusal writes nothing.
pub fn build(apid: u16, count: u16, id: u16, args: &[u8], pads: u16, out: &mut [u8]) -> Built
    ensures told { result ≡ built_of (given apid count id args.now pads) (length out.old) }
    ensures output { out.new ≡ built_output (given apid count id args.now pads) out.old }
{
    match written(apid, count, id, args, pads, out) {
        Ok(size) => Built {
            answer: 0,
            written: size,
        },
        Err(r) => Built {
            answer: r.into(),
            written: 0,
        },
    }
}

// The size of the packet, which is written; or the first refusal, which writes nothing. The fields go on one by one and not as one
// struct: that would lie in memory, so `tz_build` would take 104 bytes of stack, and 18 to 48 instructions more.
fn written(
    apid: u16,
    count: u16,
    id: u16,
    args: &[u8],
    pads: u16,
    out: &mut [u8],
) -> Result<u16, Unbuildable>
    ensures told { handed_back result ≡ built_of (given apid count id args.now pads) (length out.old) }
    ensures output { out.new ≡ built_output (given apid count id args.now pads) out.old }
{
    if 2047 < apid {
        return Err(Unbuildable::ApidTooHigh);
    }
    if 16383 < count {
        return Err(Unbuildable::CountTooHigh);
    }
    if 255 < args.len() {
        return Err(Unbuildable::TooManyArguments);
    }
    if 127 < pads {
        return Err(Unbuildable::TooManyPads);
    }
    let size = 10 + args.len() + pads as usize;
    if out.len() < size {
        return Err(Unbuildable::OutputTooSmall);
    }
    write(apid, count, id, args, pads, out);
    Ok(size as u16)
}

// Writes the packet of fields that fit: all before the pads with a zero for the checksum, then the XOR of that in its place, and
// the pads, which are zeros and leave the XOR as it is. The pads come last, and it is a call of its own, for the stack: so little
// has to be kept while they are filled that `tz_build` stays below what the C header says.
#[inline(never)]
fn write(apid: u16, count: u16, id: u16, args: &[u8], pads: u16, out: &mut [u8])
    requires { Ready (given apid count id args.now pads) out.old }
    ensures { out.new ≡ over (packet_of (given apid count id args.now pads)) out.old }
{
    let end = 10 + args.len();
    fill(apid, count, id, args, pads, out);
    let sum = wire::xor::all(&out[..end]);
    out[7] = sum;
    wire::put::zeros(out, end, pads as usize);
}

// Header, function code, a zero for the checksum, id, arguments.
fn fill(apid: u16, count: u16, id: u16, args: &[u8], pads: u16, out: &mut [u8])
    requires { Ready (given apid count id args.now pads) out.old }
    ensures { out.new ≡ over (unpadded (given apid count id args.now pads)) out.old }
{
    let n = args.len();
    let header = packet_header::writer::primary(1, 1, apid, count, 3 + n as u16 + pads);
    let second = [pads as u8, 0, high(id), low(id)];
    wire::put::bytes(out, 0, &header);
    wire::put::bytes(out, 6, &second);
    wire::put::bytes(out, 10, args);
}
