//! One shot of a stored program, from its text to the listing of what happened.
#![tactic(auto)]

mod lines;
mod promises;
mod replies;
mod shots;

pub use lines::{Listing, MOST_LISTING_BYTES, listing};
pub use promises::{
    listings_are_read_back, listings_have_shapes, samples_are_listed, texts_are_listed,
};
pub use shots::{MOST_BYTES, Shot, play_text};
