//! What takes no memory answers where there is none as it does where there is.

mod features;
mod grids;
mod values;
