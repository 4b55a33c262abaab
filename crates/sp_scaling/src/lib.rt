//! Sums of decimal terms in whole units of a power of ten: their scale, their size, and one variable's terms added up.
#![tactic(auto)]

mod collecting;
mod laws;
mod scaling;

pub use collecting::collected;
pub use laws::{collected_terms_are_lawful, turned_terms_are_lawful};
pub use scaling::{is_narrow, most_places, most_places_of, room_beside};
