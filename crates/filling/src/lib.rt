// A buffer filled from a file, as far as the file goes.
#![tactic(auto)]

ghost use Rattle.std.specs.Prelude.{take};
ghost use Rattle.std.specs.Io.KnownBytes.{Consumes};
ghost use Rattle.io.specs.Counts.{IsPrefixLen};

use std::io::Read;

// Reads until the buffer is full, the file ends or a read fails, and answers how many bytes then stand at its start.
// They are the next of the file, where its bytes are known.
pub fn fill<F: Read>(file: &mut F, buffer: &mut [u8]) -> usize
    ensures in_bounds { IsPrefixLen result buffer.new }
    ensures bytes { Consumes (F.remaining file.old) (F.remaining file.new) (take result buffer.new) }
{
    let mut done = 0;
    while done < buffer.len() {
        match file.read(&mut buffer[done..]) {
            Ok(0) => break,
            Ok(n) => done += n,
            Err(_) => break,
        }
    }
    done
}
