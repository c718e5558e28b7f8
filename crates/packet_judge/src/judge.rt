// The packet judge: 0 with command id and argument count, or the first refusal of 22 to 29 in the order of their numbers.
ghost use Rattle.std.specs.Prelude.{◌≡◌};
ghost use Rattle.packet_rules.specs.Judge.{refusal_of, judge_of};
ghost use Rattle.packet_rules.specs.Rejection.{told};

use crate::form::form_refusal;
use crate::parts::arg_count;
pub use crate::parts::command_id;
use packet_rules::rejection::Rejection;
pub use packet_rules::types::Judged;

// The judge by itself.
pub fn judge(packet: &[u8]) -> Judged
    ensures { result ≡ judge_of packet.now }
{
    match refusal(packet) {
        Err(r) => Judged {
            answer: r.into(),
            id: 0,
            count: 0,
        },
        Ok(()) => Judged {
            answer: 0,
            id: command_id(packet),
            count: arg_count(packet),
        },
    }
}

// The packet's first refusal, if it has one. Past 23 the size stands for the length field: the data length is the size less 6.
pub fn refusal(packet: &[u8]) -> Result<(), Rejection>
    ensures { told result ≡ refusal_of packet.now }
{
    let size = packet.len();
    if size < 6 {
        return Err(Rejection::TooShort);
    }
    let field = wire::word::big(packet[4], packet[5]) as usize;
    if size != 7 + field {
        return Err(Rejection::WrongSize);
    }
    form_refusal(packet)?;
    let pads = packet_header::bits::pads(packet[6]) as usize;
    if size < pads + 10 {
        return Err(Rejection::DataTooShort);
    }
    if 255 < size - pads - 10 {
        return Err(Rejection::TooManyArguments);
    }
    Ok(())
}
