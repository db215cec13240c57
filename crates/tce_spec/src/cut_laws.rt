// Laws of pieces, which hold without any code.
ghost use Rattle.tce_spec.specs.CutLaws.{PieceHasValue, PiecesHaveValues};

/// The value of a node is the value of its piece, over files whose arrays of cut nodes have the values of these nodes.
pub fn piece_has_value()
    ensures { PieceHasValue }
{}

/// Where the array of each cut node has the values of its piece, it has the values of the node.
pub fn pieces_have_values()
    ensures { PiecesHaveValues }
{}
