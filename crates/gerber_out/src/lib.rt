//! One layer of copper in the Gerber layer format, and a reader of that text.
//!
//! All coordinates are whole micrometres. In the text the unit is a millionth of a millimetre, so
//! that a micrometre is 1,000 units.
#![tactic(auto)]

mod contours;
mod laws;
mod lines;
mod machine;
mod numbers;
mod reading;
mod spelling;
mod writing;

pub use laws::readings_are_one;
pub use reading::{ReadLayer, read_layer};
pub use writing::layer_text;
