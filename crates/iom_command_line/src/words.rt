use crate::fault::ArgsFault;
use std::env;
use std::io::ErrorKind;

/// The words of the command line, after the program's name. One that isn't text is a bad one.
pub fn words_of(rt: &HostRuntime) -> Result<Vec<String>, ArgsFault> {
    let args = match env::args(rt) {
        Ok(args) => args,
        Err(error) if error.kind() == ErrorKind::OutOfMemory => return Err(ArgsFault::Memory),
        Err(_) => return Err(ArgsFault::Bad),
    };
    let mut words = Vec::new(rt.alloc());
    for word in args.skip(1) {
        words.push(word).map_err(|_| ArgsFault::Memory)?;
    }
    Ok(words)
}
