// The files that a caller hands over.
ghost use Rattle.std.specs.Prelude.{◌≡◌, ℕ, List, [], is_some, IfOk};
ghost use Rattle.pq_io.specs.NamedFiles.{Held, content_of};
ghost use Rattle.memory_run.specs.Given.{FailsOnlyAtAnother, given};

use pq_io::{ChooseError, Failed, MemShelf, NoMemory, Shelf};
use std::alloc::Global;
use std::marker::Model;

/// The two files that a caller hands over. No call fails but the choice of another name than theirs.
#[derive(Drop)]
pub struct HandedOver {
    shelf: MemShelf,
}

impl Model for HandedOver {
    ghost Value = { Held };

    ghost view = { λ files. files.shelf };

    ghost invariant = { λ files. FailsOnlyAtAnother files.shelf };
}

impl HandedOver {
    /// The files of the names `1` and `2`, of which none was asked for.
    ///
    /// # Errors
    ///
    /// `NoMemory` where memory is refused.
    pub fn new(alloc: Global, first: &[u8], second: &[u8]) -> Result<Self, NoMemory>
        ensures files { IfOk result (λ files. (name : List ℕ) → content_of files.files name ≡ given first.now second.now name) }
        ensures untouched { IfOk result (λ files. (files.taken ≡ []) × (files.faults ≡ 0)) }
    {
        let mut shelf = MemShelf::new(alloc);
        shelf.add("1", first)?;
        shelf.add("2", second)?;
        Ok(HandedOver { shelf })
    }
}

impl Shelf for HandedOver {
    ghost content = { λ files name. content_of files.files name };

    ghost left = { λ files. files.left };

    ghost faults = { λ files. files.faults };

    ghost taken = { λ files. files.taken };

    ghost has_chosen = { λ files. is_some files.left };

    fn choose(&mut self, alloc: Global, name: &str) -> Result<(), ChooseError> {
        self.shelf.choose(alloc, name)
    }

    fn read(&mut self, buf: &mut [u8]) -> Result<usize, Failed> {
        self.shelf.read(buf)
    }
}
