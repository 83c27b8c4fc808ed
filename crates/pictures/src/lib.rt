// Small graphs of at most 64 places.
#![tactic(auto)]

mod drawing;
mod listing;
mod shape;

pub use drawing::draw;
pub use listing::draw_listed;
pub use shape::Picture;
