// The text of LDP PDUs for people who look at captures: a line for each message (docs/LDP_DUMP.md).
#![tactic(auto)]

pub mod line; // line.rt: the line of one message
pub mod stream; // stream.rt: a stream of PDUs

ghost use Rattle.std.specs.Prelude.{◌≤◌, ◌≡◌, length};
ghost use Rattle.pdu.specs.Pdu.{opened_of};
ghost use Rattle.pdu.specs.Split.{handed_out};
ghost use Rattle.text.specs.Text.{Put};
ghost use Rattle.dump.specs.Line.{lines_of, pdu_text, is_whole, pdu_text_room, largest_pdu};

// Where the text of a PDU ends, and whether the PDU was whole.
#[derive(Clone, Copy)]
pub struct Dumped {
    pub end: usize,
    pub whole: bool,
}

// The lines of a PDU's messages, each as it is handed out.
fn put_lines(out: &mut [u8], number: u64, pdu: &[u8], count: u32) -> usize
    requires { (opened_of pdu.now ≡ Some count) × (length pdu.now ≤ largest_pdu) × (pdu_text_room ≤ length out.old) }
    ensures put { Put out.old 0 (lines_of number 0 (handed_out pdu.now count 10)) out.new result }
    ensures upper_bound { result ≤ pdu_text_room }
{
    let mut at: usize = 10;
    let mut end: usize = 0;
    for k in 0..count {
        let m = pdu::message_part(pdu, at);
        end = line::put_line(out, end, number, k as u64, m);
        at += m.len();
    }
    end
}

// The text of a PDU with its number: the lines of its messages, numbered from 0, or that it is malformed; and whether it was whole.
pub fn dump_pdu(out: &mut [u8], number: u64, pdu: &[u8]) -> Dumped
    requires { (length pdu.now ≤ largest_pdu) × (pdu_text_room ≤ length out.old) }
    ensures put { Put out.old 0 (pdu_text number pdu.now) out.new result.end }
    ensures end_le_pdu_text_room { (result.end ≤ pdu_text_room) × (result.whole ≡ is_whole (opened_of pdu.now)) }
{
    match pdu::open_pdu(pdu) {
        Some(count) => {
            let end = put_lines(out, number, pdu, count);
            Dumped {
                end: end,
                whole: true,
            }
        }
        None => {
            let end = text::put_decimal(out, 0, number);
            let end = text::put_text(out, end, b" malformed pdu\n");
            Dumped {
                end: end,
                whole: false,
            }
        }
    }
}
