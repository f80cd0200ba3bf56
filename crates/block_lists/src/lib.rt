//! Long lists in blocks, so that an insertion and a removal move few of the elements.
#![tactic(auto)]

mod block_list;
mod blocks;
mod elements;

pub use block_list::BlockList;
pub use elements::Elements;
