//! The trees of productions, read from tokens by the grammar.
#![tactic(auto)]

mod action;
mod attribute_test;
mod group;
mod make;
mod part;
mod production;
mod tree;

pub use tree::read_tree;
pub use tree_parts::{
    ActionTree, Alternatives, AttributeMake, AttributeTest, Braced, Compared, Constant, FieldTree,
    Flag, Group, ItemTree, MakeTree, Part, Simple, Single, Stop, Term, Tested, Tree, ValueTest,
    WishTree,
};
