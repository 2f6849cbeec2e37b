// The system's errors in words.
use std::io::ErrorKind;
use words::say::words;

pub fn say_error(rt: &impl Print, error: ErrorKind) {
    match error {
        ErrorKind::NotFound => words(rt, b"there is none"),
        ErrorKind::NotADirectory => words(rt, b"it is no directory"),
        ErrorKind::IsADirectory => words(rt, b"it is a directory"),
        ErrorKind::PermissionDenied => words(rt, b"it may not be read"),
        ErrorKind::InvalidFilename => words(rt, b"its name is too long"),
        ErrorKind::Interrupted => words(rt, b"its reading was broken off"),
        _ => words(rt, b"it cannot be read"),
    }
}
