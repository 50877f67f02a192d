//! Whether all of some forms are 0.

ghost use Rattle.std.specs.Prelude.{◌≡◌, List, IfOk, OnOk};
ghost use Rattle.ipdl_linear.specs.Entries.{AllStand, FormStands, IsGrowth, IsNumbering};
ghost use Rattle.ipdl_linear.specs.LinearForms.{Form, are_zero_form};
ghost use Rattle.ipdl_linear.specs.Operations.{not_empty};

use crate::node::Node;
use crate::numbering::{NOTHING, Numbering, ONE_FORM};
use ipdl_base::NoMemory;

// Those of the forms that are not empty.
fn leave_out_empty(mut forms: Vec<usize>) -> Vec<usize>
    ensures { result.items ≡ not_empty forms.items }
{
    forms.retain(|form| *form != NOTHING);
    forms
}

impl Numbering {
    // The form of the bit that says whether all forms are 0.
    pub(crate) fn are_zero(&mut self, forms: Vec<usize>) -> Result<usize, NoMemory>
        ensures growth { OnOk result (IsGrowth self.old self.new) }
        ensures form { IfOk result (λ n. IsNumbering self.old → (fs : List Form) →
            AllStand self.old forms.items fs → FormStands self.new n (are_zero_form fs)) }
    {
        let forms = leave_out_empty(forms);
        if forms.as_slice().contains(&ONE_FORM) {
            return Ok(NOTHING);
        }
        match forms.len() {
            0 => Ok(ONE_FORM),
            1 => self.plus(forms[0], ONE_FORM),
            _ => self.single(Node::AllZero(forms)),
        }
    }
}
