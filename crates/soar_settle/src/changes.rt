use soar_sym::List;
use soar_wm::Element;

/// The elements that a step took away, and those that it made, each in order of tag.
#[derive(Drop)]
pub struct Changes {
    pub gone: List<Element>,
    pub new: List<Element>,
}
