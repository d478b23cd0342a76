//! The words that a program was given.
//!
//! The programs `pws-sim` and `pws-look` hand them to their top calls.
#![tactic(auto)]

ghost use Rattle.std.specs.Prelude.{◌≡◌, IfOk, map, string_bytes};

use pws_base::memory::Memory;
use std::alloc::Global;
use std::env;
use std::io::ErrorKind;

/// The words behind the program's name, or none where one isn't UTF-8.
///
/// # Errors
///
/// `Memory` only.
pub fn given_words(rt: &HostRuntime) -> Result<Vec<String>, Memory> {
    let mut words = Vec::new(rt.alloc());
    match env::args(rt) {
        Ok(given) => {
            for word in given.skip(1) {
                words.push(word)?;
            }
            Ok(words)
        }
        Err(error) if error.kind() == ErrorKind::OutOfMemory => Err(Memory),
        Err(_) => Ok(words),
    }
}

/// The same words, borrowed.
///
/// # Errors
///
/// `Memory` only.
pub fn as_strs(alloc: Global, words: &[String]) -> Result<Vec<&str>, Memory>
    ensures { IfOk result (λ borrowed. map (λ w. w.now) borrowed.items ≡ map string_bytes words.now) }
{
    let mut borrowed = Vec::new(alloc);
    for word in words {
        borrowed.push(word.as_str())?;
    }
    Ok(borrowed)
}
