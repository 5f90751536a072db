//! Directed graphs over places, which are numbers from 0, each with a row of successors: what walks reach, the
//! graph turned round, rows without repetition, and the one element of a row that is left.
#![tactic(auto)]

pub mod choice;
pub mod distinction;
pub mod places;
pub mod reaching;
pub mod reversing;
pub mod rows;

pub use choice::the_one;
pub use distinction::{Sieve, distinct};
pub use places::{Places, is_marked};
pub use reaching::{reach, reach_all};
pub use reversing::reversed;
pub use rows::Graph;
pub use spv_base::NoMemory;
