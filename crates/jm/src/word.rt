// The words of the command line.

use std::env;
use std::io::ErrorKind;

/// Why the words are not known.
#[derive(Clone, Copy)]
pub enum WordsFault {
    /// A word is not UTF-8.
    NotText,
    /// A growth was refused.
    OutOfMemory,
}

/// The words of the command line, the program's name first.
pub fn words(rt: &HostRuntime) -> Result<Vec<String>, WordsFault> {
    let given = match env::args(rt) {
        Ok(given) => given,
        Err(error) => {
            return Err(match error.kind() {
                ErrorKind::OutOfMemory => WordsFault::OutOfMemory,
                _ => WordsFault::NotText,
            });
        }
    };
    let mut words = Vec::new(rt.alloc());
    for word in given {
        if words.push(word).is_err() {
            return Err(WordsFault::OutOfMemory);
        }
    }
    Ok(words)
}
