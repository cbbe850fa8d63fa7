//! The words with which a program was started.

use std::alloc::AllocError;
use std::env;
use std::io::ErrorKind;
use std::rt::Env;
use twe_base::{Memory, Word};

/// The words after the program's name. If one of them isn't UTF-8, or the name isn't, then a single empty word stands for
/// all of them, which no program takes: so each call is a usage fault where the program has such a name. No clause says what
/// the words are, since nothing but the process knows it.
pub fn words_of<R: Env + AllocGlobal>(rt: &R) -> Result<Vec<Word>, Memory> {
    let mut words = Vec::new(rt.alloc());
    match env::args(rt) {
        Ok(args) => {
            for word in args.skip(1) {
                words.push(Word::from(word))?;
            }
        }
        Err(e) if e.kind() == ErrorKind::OutOfMemory => return Err(Memory::from(AllocError)),
        Err(_) => words.push(Word::new(rt.alloc()))?,
    }
    Ok(words)
}
