// A file of the current folder.
ghost use Rattle.std.specs.Prelude.{◌≤◌, length};

use std::io::Read;
use std::rt::Files;
use std::{fs, str};

// The bytes of the file, as many as the buffer takes; none where it is missing, or its name is no text. A read that fails ends the file.
pub fn read<'a>(rt: &impl Files, name: &[u8], buffer: &'a mut [u8]) -> &'a [u8]
    ensures { length result.now ≤ length buffer.old }
{
    // (counted by hand, since each turn goes on by as many bytes as it read)
    let mut done = 0;
    if let Ok(text) = str::from_utf8(name)
        && let Ok(mut file) = fs::open(rt, text)
    {
        while done < buffer.len() {
            match file.read(&mut buffer[done..]) {
                Ok(0) | Err(_) => break,
                Ok(n) => done += n,
            }
        }
    }
    &buffer[..done]
}
