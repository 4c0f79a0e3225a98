//! What holds for the definitions that [`crate::StoreUri`]'s contracts cite. The functions do nothing: their contracts are the
//! laws.
ghost use Rattle.std.specs.Prelude.{◌≡◌, ◌↔◌, Ok, Some, List, ℕ, true};
ghost use Rattle.std.specs.Cmp.{IsEquivalence};
ghost use Rattle.etp_values.specs.IdText.{IsId, id_of, id_text};
ghost use Rattle.etp_values.specs.Uri.{IsUri, IsTextOf, plain_uri, uri_of};
ghost use Rattle.etp_values.specs.SameUri.{same_uri};
ghost use Rattle.etp_values.specs.declared.uri.StoreUri.{StoreUri};

/// A text reads as a URI exactly if it is one of the URI's texts, so each text reads as one URI at most. A URI's canonical text reads as
/// that URI, so no two URIs share it.
pub fn uri_texts()
    ensures said { (u : StoreUri) (text : List ℕ) → (uri_of text ≡ Ok u) ↔ (IsUri u × IsTextOf u text) }
    ensures back { (u : StoreUri) → IsUri u → uri_of (plain_uri u) ≡ Ok u }
    ensures once { (u v : StoreUri) → IsUri u → IsUri v → plain_uri u ≡ plain_uri v → u ≡ v }
{}

/// An identifier is read from its own text.
pub fn id_texts()
    ensures { (id : List ℕ) → IsId id → id_of (id_text id) ≡ Some id }
{}

/// The comparison of two URIs holds exactly if they are equal.
pub fn uri_equality()
    ensures equivalence { IsEquivalence same_uri }
    ensures equal { (u v : StoreUri) → (same_uri u v ≡ true) ↔ (u ≡ v) }
{}
