// An archive of packets end to end: where each ends in bytes, and a file of any length read in blocks.
#![tactic(auto)]

ghost use Rattle.std.specs.Prelude.{◌≡◌, ◌-◌, min, ◌≤◌, length};
ghost use Rattle.std.specs.Io.KnownBytes.{Consumes};
ghost use Rattle.lines.specs.Columns.{part_of};
ghost use Rattle.archives.specs.Blocks.{Moved, Refilled};
ghost use Rattle.archives.specs.Framing.{framed_at};

use filling::fill;
use std::io::Read;

// A block has room for the longest packet that a length field can tell of, which is 65,542 bytes.
pub const BLOCK: usize = 131072;

fn wide(byte: u8) -> usize
    ensures { (result ≡ byte) × (result ≤ 255) }
{
    byte as usize
}

// Where the packet ends that starts at this place, if it is there to its end.
pub fn packet_at(bytes: &[u8], at: usize) -> Option<usize>
    ensures { result ≡ framed_at bytes.now at }
{
    if bytes.len() <= at {
        return None;
    }
    let room = bytes.len() - at;
    if room < 7 {
        return None;
    }
    let length = wide(bytes[at + 4]) * 256 + wide(bytes[at + 5]) + 7;
    if room < length {
        return None;
    }
    Some(at + length)
}

// How many bytes of so many there are from one place to before another.
fn count_between(length: usize, from: usize, to: usize) -> usize
    ensures { result ≡ min to length - from }
{
    if length < to {
        if length < from {
            return 0;
        }
        return length - from;
    }
    if to < from {
        return 0;
    }
    to - from
}

// Moves the bytes from one place to before another to the start of the block, and answers how many they are.
fn move_rest(block: &mut [u8], from: usize, to: usize) -> usize
    ensures { Moved from to result block.old block.new }
{
    let count = count_between(block.len(), from, to);
    for i in 0..count {
        block[i] = block[from + i];
    }
    count
}

// Keeps these bytes at the start of the block and reads on behind them; answers how many bytes then stand there. Those
// behind are the next of the file, where its bytes are known.
pub fn refill<F: Read>(file: &mut F, block: &mut [u8], from: usize, to: usize) -> usize
    ensures refilled { Refilled from to result block.old block.new }
    ensures bytes { Consumes (F.remaining file.old) (F.remaining file.new)
        (part_of block.new (length (part_of block.old from to)) result) }
{
    let kept = move_rest(block, from, to);
    let read = fill(file, &mut block[kept..]);
    kept + read
}
