//! The judge of trees: what a tree proves over the domains of the root, and the first flaw of its nodes.
//!
//! It searches for nothing: it walks the tree once, and adds up the rows of each leaf.
#![tactic(auto)]

mod fault;
mod laws;
mod leaves;
mod nodes;
mod root;

pub use fault::TreeFault;
pub use laws::one_tree_fault_law;
pub use root::judge_tree;

#[cfg(test)]
mod tests;
