//! Enums with an index for each variant.

ghost use Rattle.std.specs.Prelude.{◌≡◌, ◌<◌, ℕ, List, Some, length, slice_get};

/// Supertrait that the Rust crate seals; here every type implements it.
pub trait Sealed {}

impl<T> Sealed for T {}

/// An enum with an order and an index for each variant.
pub trait IndexedEnum: Sealed + Sized + 'static {
    ghost variants: { List Self };

    ghost index_of: { Self → ℕ };

    /// All variants, by index.
    const VARIANTS: &'static [Self];

    /// Returns the variant's index in [`IndexedEnum::VARIANTS`].
    fn as_index(&self) -> usize
        ensures place { result ≡ index_of self.now }
        ensures within { result < length variants };

    ghost in_place: { (variant : Self) → slice_get variants (index_of variant) ≡ Some variant };
}
