//! What moves on one record work with.

ghost use Rattle.std.specs.Prelude.{◌≡◌, IfOk};
ghost use Rattle.cob_copybook_tree.specs.Forests.{Forest};
ghost use Rattle.cob_copybook_tree.specs.Nodes.{Resolved};
ghost use Rattle.cob_move_apply.specs.Spent.{kept_of};
ghost use Rattle.cob_move_apply.specs.Surveyed.{BecomesWorkspace, HasSpace};

use crate::survey::Survey;
use cob_layout::Layout;
use std::alloc::{AllocError, Global};

/// What is kept of both records' storages, and room for the bytes of a sender that lies in the output record.
#[derive(Drop)]
pub(crate) struct Workspace {
    pub(crate) input: Survey,
    pub(crate) output: Survey,
    pub(crate) content: Vec<u8>,
}

impl Workspace {
    /// What moves between records of these layouts work with.
    ///
    /// # Errors
    ///
    /// Where no memory is left.
    pub(crate) fn new(
        alloc: Global,
        input: &Layout,
        output: &Layout,
    ) -> Result<Workspace, AllocError>
        ensures room { IfOk result
            (λ space. HasSpace (record { input = input.now; output = output.now }) space) }
        ensures none { IfOk result (λ space. space.output.reads ≡ 0) }
    {
        let content = vec![in alloc; 0u8; output.greatest() as usize]?;
        Ok(Workspace {
            input: Survey::new(alloc, input)?,
            output: Survey::new(alloc, output)?,
            content,
        })
    }

    /// Forgets what is kept of the output record before.
    pub(crate) fn forget_output(&mut self)
        ensures space { BecomesWorkspace self.old self.new }
        ensures none { self.new.output.reads ≡ 0 }
        ensures unkept { (tree : Forest Resolved) → kept_of tree self.new.output ≡ 0 }
    {
        self.output.forget();
    }
}
