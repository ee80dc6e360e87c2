//! What adverbs give their verbs: prefixes, infixes, suffixes and outfixes, identities, and the
//! obverses of verbs.
#![tactic(auto)]

mod bond;
mod division;
mod fixes;
mod identities;
mod undoing;

pub use fixes::{infixes, outfixes, prefixes, suffixes};
pub use identities::identity;
pub use undoing::obverse;
