#![tactic(auto)]

pub mod events;
pub mod memory;
pub mod outset;
pub mod places;
pub mod rows;
pub mod scripts;
