//! The steps of rows over a host: texts and errors, names, properties, functions, and operators on values.
#![tactic(auto)]

pub mod errors;
pub mod literals;
pub mod names;
pub mod places;
pub mod properties;
pub mod texts;
pub mod values;
