//! Laws on lists that the crates above depend on. The functions do nothing: their contracts are the laws, here for lists of numbers. Their
//! lemmas, in proofs/, hold for lists of anything.
ghost use Rattle.etp_values.specs.Laws.{BeginsLonger, BeginsThrough, BeginsInOrder, FoundAlike, FoundAfterRemoval};

/// How the prefixes of a list relate.
pub fn prefix_laws()
    ensures longer { BeginsLonger }
    ensures through { BeginsThrough }
    ensures in_order { BeginsInOrder }
{}

/// What look-ups say about values under names, whatever the values are.
pub fn lookup_laws()
    ensures alike { FoundAlike }
    ensures removal { FoundAfterRemoval }
{}
