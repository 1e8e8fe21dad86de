//! Laws of the definitions: bytes are items in one way at most.

ghost use Rattle.std.specs.Prelude.{◌≡◌, ℕ, List, ◌++◌};
ghost use Rattle.hid_items.specs.ItemEncoding.{IsItemEncoding, AreItems, IsTruncatedAt};

/// No encoding is the beginning of another.
pub fn prefix_free()
    ensures { (item other more rest : List ℕ) → IsItemEncoding item → IsItemEncoding other
        → item ++ more ≡ other ++ rest → item ≡ other }
{}

/// A descriptor has one reading as items.
pub fn one_reading()
    ensures { (bytes : List ℕ) (items others : List (List ℕ)) → AreItems bytes items
        → AreItems bytes others → items ≡ others }
{}

/// A truncated descriptor is no list of items.
pub fn truncation_is_no_reading()
    ensures { (bytes : List ℕ) (at : ℕ) (items others : List (List ℕ))
        → IsTruncatedAt bytes at items → AreItems bytes others → ⊥ }
{}

/// A descriptor is truncated at one place at most, after the same items.
pub fn one_truncation()
    ensures place { (bytes : List ℕ) (at there : ℕ) (items others : List (List ℕ))
        → IsTruncatedAt bytes at items → IsTruncatedAt bytes there others → at ≡ there }
    ensures items { (bytes : List ℕ) (at there : ℕ) (items others : List (List ℕ))
        → IsTruncatedAt bytes at items → IsTruncatedAt bytes there others → items ≡ others }
{}
