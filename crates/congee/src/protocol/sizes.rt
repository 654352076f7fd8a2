//! Which form a node gets, by how many children it has.
ghost use Rattle.std.specs.Prelude.{◌≡◌};
ghost use Rattle.congee.specs.protocol.Steps.{form_above, shrinks, form_below};

use crate::forms::base_node::NodeType;

impl NodeType {
    /// The least form with a place for more than so many children.
    pub(crate) fn above(count: u16) -> Self
        ensures { result ≡ form_above count }
    {
        if count < 4 {
            NodeType::N4
        } else if count < 16 {
            NodeType::N16
        } else if count < 48 {
            NodeType::N48
        } else {
            NodeType::N256
        }
    }

    /// The form below.
    pub(crate) fn below(self) -> Self
        ensures { result ≡ form_below self }
    {
        match self {
            NodeType::N4 => NodeType::N4,
            NodeType::N16 => NodeType::N4,
            NodeType::N48 => NodeType::N16,
            NodeType::N256 => NodeType::N48,
        }
    }

    /// Whether a node of the form with so many children gives way to a lesser one as it loses one.
    pub(crate) fn shrinks(self, count: u16) -> bool
        ensures { result ≡ shrinks self count }
    {
        match self {
            NodeType::N4 => false,
            NodeType::N16 => count <= 4,
            NodeType::N48 => count <= 13,
            NodeType::N256 => count <= 41,
        }
    }
}
