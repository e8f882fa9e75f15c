ghost use Rattle.std.specs.Prelude.{◌≡◌, ℕ, List, IfOk};

use cay_base::NoMemory;
use std::alloc::Global;
use std::marker::Model;

/// The name of a point, line, plane or parameter: contracts see its bytes.
#[derive(Debug, Drop)]
pub struct Name {
    text: Vec<u8>,
}

impl Model for Name {
    ghost Value = { List ℕ };

    ghost view = { λ n. n.text.items };
}

impl Name {
    pub fn new(alloc: Global, bytes: &[u8]) -> Result<Name, NoMemory>
        ensures { IfOk result (λ n. n ≡ bytes.now) }
    {
        Ok(Name {
            text: Vec::from_slice(alloc, bytes)?,
        })
    }

    pub fn bytes(&self) -> &[u8]
        ensures { result.now ≡ self.now }
    {
        &self.text
    }
}
