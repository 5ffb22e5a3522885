use super::FieldForm;
use cl_ast::Operation;
use sqlite_items::Items;

/// An operation of a tree, with what its fields are.
#[derive(Drop)]
pub struct Site<'a> {
    /// The operation, which stays in the tree.
    pub operation: &'a Operation,
    /// What each of its fields is, in order.
    pub forms: Items<FieldForm>,
}
