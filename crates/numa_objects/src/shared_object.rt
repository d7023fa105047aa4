//! Objects that tables share.
ghost use Rattle.std.specs.Prelude.{◌≡◌, IfOk};

use crate::object::Object;
use numa_machine::NoMemory;
use std::alloc::Global;
use std::marker::Model;
use std::sync::Arc;

/// An object, which tables share, so that a copy of a table needs no memory for it.
#[derive(Drop)]
pub(crate) struct SharedObject {
    shared: Arc<Object>,
}

impl Model for SharedObject {
    ghost use Rattle.numa_objects.specs.Objects.{ObjectData};

    ghost Value = { ObjectData };

    ghost view = { λ a. a.shared.value };
}

impl SharedObject {
    /// An object, to be shared.
    ///
    /// # Errors
    /// `NoMemory`: out of memory.
    pub(crate) fn new(alloc: Global, object: Object) -> Result<SharedObject, NoMemory>
        ensures { IfOk result (λ shared. shared ≡ object) }
    {
        let shared = Arc::new(alloc, object)?;
        Ok(SharedObject { shared })
    }

    /// Another reference to the same object.
    pub(crate) fn share(&self) -> Result<SharedObject, NoMemory>
        ensures { IfOk result (λ shared. shared ≡ self.now) }
    {
        let shared = Arc::try_clone(&self.shared)?;
        Ok(SharedObject { shared })
    }

    /// The object.
    pub(crate) fn object(&self) -> &Object
        ensures { result.now ≡ self.now }
    {
        let object: &Object = &self.shared;
        object
    }
}
