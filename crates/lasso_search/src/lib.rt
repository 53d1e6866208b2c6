// The search: whether an accepting node that is reached lies on a cycle, in the product of a table's states with a lasso's positions.
#![tactic(auto)]

mod colouring;
mod edges;
mod inner_search;
mod outer_search;
mod product;

pub use colouring::WORD_COLOURS;
pub use product::Product;
