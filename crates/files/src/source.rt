// A file read whole, as far as a buffer holds it.
ghost use Rattle.files.specs.Reads.{ReadInto};

use filling::fill;
use std::fs;
use std::io::{ErrorKind, Read};
use std::rt::Files;

// A file opened for reading, or the error. A path that is no UTF-8 opens none.
pub fn open_file<R: Files>(rt: &R, path: &[u8]) -> Result<R::File, ErrorKind> {
    let Ok(text) = str::from_utf8(path) else {
        return Err(ErrorKind::InvalidInput);
    };
    match fs::open(rt, text) {
        Ok(file) => Ok(file),
        Err(error) => Err(error.kind()),
    }
}

// A read that came back short: nothing where the file has ended, else the error.
pub fn short(file: &mut impl Read) -> Option<ErrorKind> {
    let mut more = [0u8; 1];
    match file.read(&mut more) {
        Ok(0) => None,
        Ok(_) => Some(ErrorKind::Interrupted),
        Err(error) => Some(error.kind()),
    }
}

// Reads until the file ends or the buffer is full.
fn read_open(file: &mut impl Read, buffer: &mut [u8]) -> Result<Option<usize>, ErrorKind>
    ensures { ReadInto result buffer.old buffer.new }
{
    let count = fill(file, buffer);
    if count < buffer.len() {
        if let Some(error) = short(file) {
            return Err(error);
        }
    }
    Ok(Some(count))
}

// How many bytes then stand at the start of the buffer; none where there is no such file.
pub fn read_file(
    rt: &impl Files,
    path: &[u8],
    buffer: &mut [u8],
) -> Result<Option<usize>, ErrorKind>
    ensures { ReadInto result buffer.old buffer.new }
{
    match open_file(rt, path) {
        Ok(opened) => {
            let mut file = opened;
            read_open(&mut file, buffer)
        }
        Err(ErrorKind::NotFound) => Ok(None),
        Err(error) => Err(error),
    }
}
