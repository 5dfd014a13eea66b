// A stream of PDUs of any length, read PDU by PDU and written as text.
ghost use Rattle.std.specs.Prelude.{◌≤◌, length};
ghost use Rattle.dump.specs.Line.{pdu_text_room, largest_pdu};

use crate::dump_pdu;
use std::io;
use std::io::{Read, Write};
use stream_reads::{Filled, read_full};

// Reads the next PDU into `buffer`, version and length first, and answers how many bytes came: 0 at the stream's end, fewer than
// the PDU has where the stream ends, or a read fails, inside it.
fn read_pdu<R: Read>(reader: &mut R, buffer: &mut [u8]) -> Filled
    requires { largest_pdu ≤ length buffer.old }
    ensures { result.count ≤ largest_pdu }
{
    let head = read_full(reader, &mut buffer[..4]);
    if head.count < 4 {
        return head;
    }
    let rest = octets::get_u16(buffer, 2) as usize;
    let end = 4 + rest;
    let body = read_full(reader, &mut buffer[4..end]);
    Filled {
        count: 4 + body.count,
        failure: body.failure,
    }
}

// Writes the text of what was read of a PDU and answers whether to go on: not at the stream's end, nor after a malformed PDU, nor where
// the writer takes no more.
fn put_next<W: Write>(writer: &mut W, number: u64, pdu: &[u8], out: &mut [u8]) -> bool
    requires { (length pdu.now ≤ largest_pdu) × (pdu_text_room ≤ length out.old) }
{
    if pdu.len() == 0 {
        return false;
    }
    let text = dump_pdu(out, number, pdu);
    let end = text.end;
    writer.write_all(&out[..end]).is_ok() && text.whole
}

// Reads the next PDU, writes its text and answers whether to go on; a read that failed is told after the text of what came before.
fn dump_next<R: Read, W: Write>(
    reader: &mut R,
    writer: &mut W,
    number: u64,
    buffer: &mut [u8],
    out: &mut [u8],
) -> io::Result<bool>
    requires { (largest_pdu ≤ length buffer.old) × (pdu_text_room ≤ length out.old) }
{
    let pdu = read_pdu(reader, buffer);
    let size = pdu.count;
    let goes_on = put_next(writer, number, &buffer[..size], out);
    match pdu.failure {
        Some(why) => Err(why),
        None => Ok(goes_on),
    }
}

// Writes the text of every PDU of the stream, up to one that is malformed. The error is of a read that failed; where the writer takes no more, the dump ends.
// Proved safe and ending; what is read and written is tested (docs/LDP_DUMP.md).
pub fn dump_stream<R: Read, W: Write>(reader: &mut R, writer: &mut W) -> io::Result<()> {
    let mut buffer = [0u8; 65539];
    let mut out = [0u8; 2700000];
    for number in 0..u64::MAX {
        if !dump_next(reader, writer, number, &mut buffer, &mut out)? {
            break;
        }
    }
    Ok(())
}
