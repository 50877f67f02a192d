//! The nodes that are counted while a term is read.

ghost use Rattle.std.specs.Prelude.{◌≡◌, [], OnOk, IfErr};
ghost use Rattle.ipdl_forms.specs.Counts.{counted, node_faults, IsWithinNodes};
ghost use Rattle.ipdl_forms.specs.Faults.{TellsFirst};

use ipdl_base::{Limit, Pos};
use ipdl_forms::DocFault;

/// Counts the nodes of a tree as far as it is read: of the body of a protocol, or of a TERM. The
/// arguments of a step are not counted.
#[derive(Clone, Copy)]
pub struct NodeCount {
    pub counted: Option<u32>,
}

impl NodeCount {
    /// Counts more nodes, which the tree at this offset has.
    pub fn add(&mut self, more: usize, pos: Pos) -> Result<(), DocFault>
        requires { IsWithinNodes self.old.counted }
        ensures value { OnOk result (self.new.counted ≡ counted more self.old.counted) }
        ensures within { OnOk result (IsWithinNodes self.new.counted) }
        ensures clean { OnOk result (node_faults (counted more self.old.counted) pos.0 ≡ []) }
        ensures first { IfErr result (λ fault. TellsFirst fault (node_faults (counted more self.old.counted) pos.0)) }
    {
        let Some(count) = self.counted else {
            return Ok(());
        };
        let most = Limit::Nodes.number() as u32;
        match u32::try_from(more) {
            Ok(more) if more <= most - count => {
                self.counted = Some(count + more);
                Ok(())
            }
            _ => Err(DocFault::Over {
                limit: Limit::Nodes,
                pos,
            }),
        }
    }
}
