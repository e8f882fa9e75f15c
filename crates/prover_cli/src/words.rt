//! The words with which the program is called.

ghost use Rattle.std.specs.Prelude.{◌≡◌, drop, IfOk};
ghost use Rattle.std.specs.Vec.Iter.{into_iter_items};

use std::alloc::{AllocError, Global};
use std::env::Args;
use std::{env, io};

/// The words behind the program's name, as the system hands them over.
pub fn words_behind_name(rt: &HostRuntime, alloc: Global) -> io::Result<Vec<String>> {
    Ok(behind_first(alloc, env::args(rt)?)?)
}

/// All words but the first, in their order.
fn behind_first(alloc: Global, mut words: Args) -> Result<Vec<String>, AllocError>
    ensures { IfOk result (λ behind. behind.items ≡ drop 1 (into_iter_items words)) }
{
    let _ = words.next();
    let mut behind = Vec::new(alloc);
    while let Some(word) = words.next() {
        behind.push(word)?;
    }
    Ok(behind)
}
