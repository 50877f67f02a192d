//! Laws of the trees that protocols are printed as.

ghost use Rattle.std.specs.Prelude.{◌≡◌, List};
ghost use Rattle.ipdl_printing.specs.Printing.{protocol_tree};
ghost use Rattle.ipdl_sig.specs.declared.symbol.Symbol.{Symbol};
ghost use Rattle.ipdl_term.specs.Sizes.{printed_depth};
ghost use Rattle.ipdl_term.specs.Terms.{Protocol};
ghost use Rattle.ipdl_tree.specs.Trees.{depth_of, without_offsets};

/// The tree that a protocol is printed as is as deep as the protocol's depth in print.
pub fn printed_tree_depth()
    ensures { (symbols : List Symbol) (p : Protocol) →
        depth_of (protocol_tree symbols p) ≡ printed_depth p }
{}

/// The tree that a protocol is printed as has no offsets: all of them are 0.
pub fn printed_tree_has_no_offsets()
    ensures { (symbols : List Symbol) (p : Protocol) →
        without_offsets (protocol_tree symbols p) ≡ protocol_tree symbols p }
{}
