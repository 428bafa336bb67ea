//! Ways to copy a value.

ghost use Rattle.std.specs.Prelude.{◌≡◌};
ghost use Rattle.sentry_tables.specs.Made.{is_normal};

use std::alloc::Global;

/// A way to copy a value.
#[derive(Clone, Copy, Debug, Drop)]
pub enum Way {
    /// An equal value.
    Same,
    /// The normal form: the value that is read back from what is written.
    ///
    /// Strings that the value doesn't have are allocated with this allocator.
    Normal(Global),
}

impl Way {
    /// Returns whether this is [`Way::Normal`].
    pub fn is_normal(self) -> bool
        ensures { result ≡ is_normal self }
    {
        match self {
            Way::Same => false,
            Way::Normal(_) => true,
        }
    }
}
