// Reads one LDP PDU: the whole of it is judged first, then each message is handed out as that very part of the caller's slice.
#![tactic(auto)]

ghost use Rattle.std.specs.Prelude.{◌+◌, ◌≤◌, ◌<◌, ◌≡◌, length};
ghost use Rattle.pdu.specs.Pdu.{message_place, place_bytes, message_start, counted_from, opened_of};

// Where a message lies in its PDU, from start up to, not including, end.
#[derive(Clone, Copy)]
pub struct Place {
    pub start: usize,
    pub end: usize,
}

// Takes a PDU of version 1 whose length counts exactly the bytes after it, at least 6, and whose messages, each with a length of at
// least 4, end exactly where it ends, with their count, 0 too. Every other one is malformed.
pub fn open_pdu(pdu: &[u8]) -> Option<u32>
    ensures { result ≡ opened_of pdu.now }
{
    if pdu.len() < 10 {
        return None;
    }
    if octets::get_u16(pdu, 0) != 1 {
        return None;
    }
    if octets::get_u16(pdu, 2) as usize + 4 != pdu.len() {
        return None;
    }
    count_messages(pdu)
}

// Counts the messages from the PDU's head to its end.
fn count_messages(pdu: &[u8]) -> Option<u32>
    requires { (10 ≤ length pdu.now) × (length pdu.now ≤ 65539) }
    ensures { result ≡ counted_from pdu.now 10 0 }
{
    let mut at: usize = 10;
    let mut count: u32 = 0;
    let answer = 'messages: loop {
        if at == pdu.len() {
            break 'messages Some(count);
        }
        match message_at(pdu, at) {
            Some(place) => {
                at = place.end;
                count += 1;
            }
            None => {
                break 'messages None;
            }
        }
    };
    answer
}

// Where the message lies that starts at `at`, if one does; no other byte of the PDU is looked at.
pub fn message_at(pdu: &[u8], at: usize) -> Option<Place>
    ensures { result ≡ message_place pdu.now at }
{
    if pdu.len() < 4 {
        return None;
    }
    if pdu.len() - 4 < at {
        return None;
    }
    let n = octets::get_u16(pdu, at + 2) as usize;
    if n < 4 {
        return None;
    }
    if pdu.len() - 4 - at < n {
        return None;
    }
    Some(Place {
        start: at,
        end: at + 4 + n,
    })
}

// The message that starts at `at`, as that very part of the PDU; the empty part at the PDU's start where none does.
pub fn message_part(pdu: &[u8], at: usize) -> &[u8]
    ensures bytes { result.now ≡ place_bytes pdu.now (message_place pdu.now at) }
    ensures place { (result.ref_ptr.0 ≡ pdu.entry.ref_ptr.0) × (result.ref_ptr.1 ≡ message_start (message_place pdu.now at) + pdu.entry.ref_ptr.1) }
{
    match message_at(pdu, at) {
        Some(place) => {
            let start = place.start;
            let end = place.end;
            &pdu[start..end]
        },
        None => &pdu[0..0],
    }
}
