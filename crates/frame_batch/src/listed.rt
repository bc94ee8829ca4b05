//! A list of windows that never changes, shared by all batches that were made of one.
ghost use Rattle.std.specs.Prelude.{◌≡◌, IfOk};

use crate::window::Window;
use std::alloc::{AllocError, Global};
use std::marker::Model;
use std::sync::Arc;

/// Contracts see the list.
#[derive(Drop)]
pub(crate) struct Listed {
    windows: Arc<Vec<Window>, Global>,
}

impl Model for Listed {
    ghost use Rattle.std.specs.Prelude.{List};
    ghost use Rattle.std.specs.Arc.{arc_value};
    ghost use Rattle.frame_batch.specs.declared.window.Window.{Window};

    ghost Value = { List Window };

    ghost view = { λ l. (arc_value l.windows).items };
}

impl Listed {
    // One allocation.
    pub(crate) fn new(alloc: Global, windows: Vec<Window>) -> Result<Listed, AllocError>
        ensures { IfOk result (λ l. l ≡ windows.items) }
    {
        match Arc::new(alloc, windows) {
            Ok(windows) => Ok(Listed { windows }),
            Err(_) => Err(AllocError),
        }
    }

    // The same list. No memory: the count of a shared pointer grows by one.
    pub(crate) fn again(&self) -> Result<Listed, AllocError>
        ensures { IfOk result (λ l. l ≡ self.now) }
    {
        match Arc::try_clone(&self.windows) {
            Ok(windows) => Ok(Listed { windows }),
            Err(e) => Err(e),
        }
    }

    #[inline(always)]
    pub(crate) fn windows(&self) -> &[Window]
        ensures { result.now ≡ self.now }
    {
        &self.windows
    }
}
