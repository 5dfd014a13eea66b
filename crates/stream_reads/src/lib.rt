// Reads a buffer full, and keeps why that ended early.
#![tactic(auto)]

ghost use Rattle.std.specs.Prelude.{◌≤◌, length};

use std::io;
use std::io::Read;

// How many bytes came, and the read that failed after them, if one did.
#[derive(Clone, Copy)]
pub struct Filled {
    pub count: usize,
    pub failure: Option<io::Error>,
}

// Reads until `buffer` is full, the input ends or a read fails. What came stands at the start of `buffer`.
pub fn read_full<R: Read>(reader: &mut R, buffer: &mut [u8]) -> Filled
    ensures { result.count ≤ length buffer.new }
{
    let mut count = 0;
    while count < buffer.len() {
        match reader.read(&mut buffer[count..]) {
            Ok(0) => break,
            Ok(n) => count += n,
            Err(e) => {
                return Filled {
                    count,
                    failure: Some(e),
                };
            }
        }
    }
    Filled {
        count,
        failure: None,
    }
}
