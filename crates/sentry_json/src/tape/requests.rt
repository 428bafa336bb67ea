//! Requests for memory.

ghost use Rattle.std.specs.Prelude.{◌≡◌, ◌↔◌, IsOk, None, false, true};

use std::alloc::{AllocError, Global};

// An allocator, and whether it refused a request.
#[derive(Drop)]
pub(crate) struct Requests {
    pub(crate) alloc: Global,
    pub(crate) refused: bool,
}

impl Requests {
    // The answer where a request was refused, which is noted. Not inlined, so that the ways on which
    // none is refused keep their registers.
    #[cold]
    #[inline(never)]
    pub(crate) fn refuse<T>(&mut self) -> Option<T>
        ensures nothing { result ≡ None }
        ensures noted { self.new.refused ≡ true }
    {
        self.refused = true;
        None
    }

    // Fails if a request was refused.
    pub(crate) fn granted(&self) -> Result<(), AllocError>
        ensures { IsOk result ↔ self.now.refused ≡ false }
    {
        if self.refused {
            return Err(AllocError);
        }
        Ok(())
    }
}
