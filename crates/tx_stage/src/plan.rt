//! What is to be done to the tables, prepared before anything changes.
ghost use Rattle.std.specs.Prelude.{◌≡◌, ◌++◌, ◌∷◌, [], OnOk};
ghost use Rattle.array_store.specs.declared.op.ArrayOp.TheVariants as set;
ghost use Rattle.tx_stage.specs.State.{state_in, state_now, Advances, PutsSpace, DropsSpace};
ghost use Rattle.tx_stage.specs.declared.contents.Contents.{Contents};
ghost use Rattle.tx_stage.specs.declared.key.Key.{Key};
ghost use Rattle.tx_stage.specs.declared.key.Key.TheVariants as keyed;
ghost use Rattle.tx_stage.specs.declared.op.OpWhat.TheVariants as done;

use crate::op::OpWhat;
use array_store::{ArrayKey, ArrayOp, ArrayRecord, WeighedArray};
use etp_values::{AnyArray, Copied, DataValue, List, Named, NoMemory, SpacePath, StoreUri, Text};
use object_store::{KeyedObject, KeyedSpace, ObjectOp, ObjectRecord, SpaceRecord};
use std::alloc::Global;

/// Operations that are to be done together, in order: those on dataspaces and objects, and those on arrays.
#[derive(Drop)]
pub struct Plan {
    pub(crate) objects: Vec<ObjectOp>,
    pub(crate) arrays: Vec<ArrayOp>,
}

impl Plan {
    /// A plan to do nothing.
    pub fn new(alloc: Global) -> Plan
        ensures { (t : Contents) (key : Key) → state_now t result key ≡ state_in t key }
    {
        Plan {
            objects: Vec::new(alloc),
            arrays: Vec::new(alloc),
        }
    }

    /// Plans to put a dataspace, in place of the one with its path.
    pub fn put_space(
        &mut self,
        alloc: Global,
        at: i64,
        path: &Text,
        custom: &Named<DataValue>,
    ) -> Result<(), NoMemory>
        ensures { OnOk result ((t : Contents) → PutsSpace t self.old self.new path.now custom.now at) }
    {
        let space = SpaceRecord {
            path: SpacePath::new(alloc, path.copy(alloc)?)?,
            written: at,
            created: at,
            custom: custom.copy(alloc)?,
        };
        let space = KeyedSpace::new(alloc, space)?;
        self.objects.push(ObjectOp::SetSpace(space))?;
        Ok(())
    }

    /// Plans to drop the dataspace of a path, and everything in it.
    pub fn drop_space(&mut self, alloc: Global, path: &Text) -> Result<(), NoMemory>
        ensures { OnOk result ((t : Contents) → DropsSpace t self.old self.new path.now) }
    {
        let from = path.copy(alloc)?;
        self.arrays.push(ArrayOp::DropArraysIn(from))?;
        let path = path.copy(alloc)?;
        self.objects.push(ObjectOp::DropSpace(path))?;
        Ok(())
    }

    /// Plans to set an object whose record has this URI; another record alters nothing.
    fn set_object(
        &mut self,
        alloc: Global,
        uri: &StoreUri,
        object: &ObjectRecord,
        at: i64,
    ) -> Result<(), NoMemory>
        ensures { OnOk result ((t : Contents)
            → Advances t self.old self.new (keyed.Object uri.now) (done.SetObject object.now) at) }
    {
        if !uri.same(&object.uri) {
            return Ok(());
        }
        let mut object = object.copy(alloc)?;
        object.written = at;
        let object = KeyedObject::new(alloc, object)?;
        self.objects.push(ObjectOp::SetObject(object))?;
        Ok(())
    }

    /// Plans to remove an object, and its arrays.
    fn remove_object(&mut self, alloc: Global, uri: &StoreUri, at: i64) -> Result<(), NoMemory>
        ensures { OnOk result ((t : Contents)
            → Advances t self.old self.new (keyed.Object uri.now) done.Gone at) }
    {
        let object = uri.copy(alloc)?;
        self.arrays.push(ArrayOp::DropArraysOf(object))?;
        let uri = uri.copy(alloc)?;
        self.objects.push(ObjectOp::DropObject(uri))?;
        Ok(())
    }

    /// Plans what is done at an object's key; what does not suit the key alters nothing.
    pub(crate) fn add_object(
        &mut self,
        alloc: Global,
        uri: &StoreUri,
        what: &OpWhat,
        at: i64,
    ) -> Result<(), NoMemory>
        ensures { OnOk result ((t : Contents)
            → Advances t self.old self.new (keyed.Object uri.now) what.now at) }
    {
        match what {
            OpWhat::SetObject(object) => self.set_object(alloc, uri, object, at),
            OpWhat::SetArray(_) => Ok(()),
            OpWhat::Patch { .. } => Ok(()),
            OpWhat::Gone => self.remove_object(alloc, uri, at),
        }
    }

    /// Plans to set an array; a record that is not an array alters nothing.
    pub(crate) fn set_array(
        &mut self,
        alloc: Global,
        key: &ArrayKey,
        array: &ArrayRecord,
        at: i64,
    ) -> Result<(), NoMemory>
        ensures { OnOk result ((t : Contents)
            → Advances t self.old self.new (keyed.Array key.now) (done.SetArray array.now) at) }
    {
        let mut array = array.copy(alloc)?;
        array.written = at;
        self.push_array(alloc, key, WeighedArray::weigh(array))
    }

    /// Adds an array that is to be put as it is.
    pub(crate) fn push_array(
        &mut self,
        alloc: Global,
        key: &ArrayKey,
        array: WeighedArray,
    ) -> Result<(), NoMemory>
        ensures arrays { OnOk result (
            self.new.arrays.items ≡ self.old.arrays.items ++ set.SetArray key.now array ∷ []) }
        ensures objects { self.new.objects ≡ self.old.objects }
    {
        let key = key.copy(alloc)?;
        self.arrays.push(ArrayOp::SetArray(key, array))?;
        Ok(())
    }

    /// Adds a patch that is to be done in place.
    pub(crate) fn push_patch(
        &mut self,
        alloc: Global,
        key: &ArrayKey,
        at: i64,
        starts: &List<i64>,
        counts: &List<i64>,
        values: &AnyArray,
    ) -> Result<(), NoMemory>
        ensures arrays { OnOk result (self.new.arrays.items
            ≡ self.old.arrays.items ++ set.PatchArray key.now at starts.now counts.now values.now ∷ []) }
        ensures objects { self.new.objects ≡ self.old.objects }
    {
        let key = key.copy(alloc)?;
        let starts = starts.copy(alloc)?;
        let counts = counts.copy(alloc)?;
        let values = values.copy(alloc)?;
        self.arrays.push(ArrayOp::PatchArray {
            key,
            at,
            starts,
            counts,
            values,
        })?;
        Ok(())
    }
}
