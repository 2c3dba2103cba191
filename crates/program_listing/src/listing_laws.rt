//! What holds of the listings of program texts.

ghost use Rattle.std.specs.Prelude.{◌≡◌, ℕ, List};
ghost use Rattle.program_listing.specs.ListingTree.{ListingTree};
ghost use Rattle.program_listing.specs.Listing.{IsListing, FormFault};

/// A text has at most one listing, places of names included, or one first line at fault, and never
/// both.
pub fn one_listing()
    ensures listing { (text : List ℕ) (l m : ListingTree)
        → IsListing text l → IsListing text m → l ≡ m }
    ensures fault { (text : List ℕ) (m n : ℕ) → FormFault text m → FormFault text n → m ≡ n }
    ensures never_both { (text : List ℕ) (l : ListingTree) (line : ℕ)
        → IsListing text l → ¬ FormFault text line }
{}
