use crate::field::FieldTree;
use soar_sym::List;

/// A value, and whether the acceptable mark stands behind it.
#[derive(Drop)]
pub struct ValueTest {
    pub value: FieldTree,
    pub accept: bool,
}

/// `-^attribute.path values`
#[derive(Drop)]
pub struct AttributeTest {
    pub negative: bool,
    pub attribute: FieldTree,
    pub path: List<FieldTree>,
    pub values: List<ValueTest>,
}

/// `(state field tests)`
#[derive(Drop)]
pub struct Group {
    pub state: bool,
    pub field: Option<FieldTree>,
    pub tests: List<AttributeTest>,
}

/// A condition, with `-` in front or without: a group, or one condition or more in braces.
#[derive(Drop)]
pub enum Part {
    Grouped(bool, Group),
    Joined(bool, List<Part>),
}
