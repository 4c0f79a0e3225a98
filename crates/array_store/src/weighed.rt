//! A record that is kept with the size of its elements.
ghost use Rattle.std.specs.Prelude.{◌≡◌, Err, None, IfOk, OnOk, OnErr, true};
ghost use Rattle.std.specs.Option.{option_copied};
ghost use Rattle.etp_values.specs.Weight.{capped};
ghost use Rattle.array_store.specs.Shape.{sizes};
ghost use Rattle.array_store.specs.Arrays.{is_bytes, size_of, slice_of};
ghost use Rattle.array_store.specs.Refusals.{record_refusal, region_refusal, patch_refusal, slice_refusal, write_refusal, Counts, Refuses};
ghost use Rattle.array_store.specs.Table as table;
ghost use Rattle.array_store.specs.Table.{patch_array, patched_in_place, rewritten};

use crate::elements::{array_bytes, has_bytes};
use crate::error::ArrayError;
use crate::patch::{patch_record, slice_bytes, slice_record};
use crate::record::ArrayRecord;
use crate::refusals::weighed_refusal;
use etp_values::{AnyArray, Copied, List, NoMemory};
use std::alloc::Global;
use std::marker::Model;

/// A record with the size of its elements, so that no look at it and no patch goes through them all again. A contract sees the record.
#[derive(Debug)]
pub struct WeighedArray {
    array: ArrayRecord,
    bytes: u64,
}

/// Written out, so that whatever holds one drops it by a single call.
impl Drop for WeighedArray {
    fn drop(self) {
        let WeighedArray { array, bytes: _ } = self;
        drop(array);
    }
}

impl Model for WeighedArray {
    ghost use Rattle.std.specs.Prelude.{◌≡◌};
    ghost use Rattle.etp_values.specs.Weight.{capped};
    ghost use Rattle.array_store.specs.Arrays.{size_of};
    ghost use Rattle.array_store.specs.declared.record.ArrayRecord.{ArrayRecord as ARecord};

    ghost Value = { ARecord };

    ghost view = { λ w. w.array };

    ghost invariant = { λ w. w.bytes ≡ capped (size_of w.array.values) };
}

impl WeighedArray {
    /// The record, with its elements measured.
    pub fn weigh(array: ArrayRecord) -> WeighedArray
        ensures { result ≡ array }
    {
        let bytes = array_bytes(&array.values);
        WeighedArray { array, bytes }
    }

    /// Borrows the record.
    pub fn as_record(&self) -> &ArrayRecord
        ensures { result.now ≡ self.now }
    {
        &self.array
    }

    /// The record.
    pub fn into_record(self) -> ArrayRecord
        ensures { result ≡ self }
    {
        let WeighedArray { array, bytes: _ } = self;
        array
    }

    /// The size of the elements. A sum above `u64::MAX` is `u64::MAX`.
    pub fn bytes(&self) -> u64
        ensures { result ≡ capped (size_of self.now.values) }
    {
        self.bytes
    }

    /// Why the record is not an array, and a store refuses to put it.
    pub fn refusal(&self) -> Option<ArrayError>
        ensures { result ≡ record_refusal self.now }
    {
        weighed_refusal(&self.array, self.bytes)
    }

    /// The record as it is put in place of the previous one.
    pub(crate) fn made(self, before: Option<&WeighedArray>) -> WeighedArray
        ensures { result ≡ table.put_array (option_copied before.entry) self }
    {
        let WeighedArray { mut array, bytes } = self;
        let Some(before) = before else {
            array.created = array.written;
            return WeighedArray { array, bytes };
        };
        array.created = before.as_record().created;
        WeighedArray { array, bytes }
    }

    /// Notes when the array was last written.
    pub fn set_written(&mut self, at: i64)
        ensures { self.new ≡ rewritten self.old at }
    {
        self.array.written = at;
    }

    /// The size of the elements of a region, computed without copying them.
    pub fn slice_bytes(&self, starts: &List<i64>, counts: &List<i64>) -> Result<u64, ArrayError>
        ensures { Counts result (slice_refusal self.now starts.now counts.now)
            (slice_of (sizes self.now.dims) (sizes starts.now) (sizes counts.now) self.now.values) }
    {
        if let Some(error) = weighed_refusal(&self.array, self.bytes) {
            return Err(error);
        }
        slice_bytes(&self.array, starts.as_slice(), counts.as_slice())
    }

    /// The elements of a region, in row-major order.
    pub fn slice(
        &self,
        alloc: Global,
        starts: &List<i64>,
        counts: &List<i64>,
    ) -> Result<AnyArray, ArrayError>
        ensures done { Refuses result (slice_refusal self.now starts.now counts.now) }
        ensures ok { IfOk result (λ r.
            r ≡ slice_of (sizes self.now.dims) (sizes starts.now) (sizes counts.now) self.now.values) }
    {
        if let Some(error) = weighed_refusal(&self.array, self.bytes) {
            return Err(error);
        }
        slice_record(alloc, &self.array, starts.as_slice(), counts.as_slice())
    }

    /// Moves values into a region of an array. Only a patch of bytes allocates, since others may read the bytes of a [`Blob`].
    ///
    /// [`Blob`]: etp_values::Blob
    pub(crate) fn patch_array(
        &mut self,
        alloc: Global,
        starts: &[i64],
        counts: &[i64],
        values: AnyArray,
    ) -> Result<(), ArrayError>
        requires { record_refusal self.old ≡ None }
        ensures done { Refuses result (patch_refusal self.old starts.now counts.now values) }
        ensures ok { OnOk result (self.new ≡ patch_array self.old starts.now counts.now values) }
        ensures err { OnErr result (self.new ≡ self.old) }
        ensures memory { result ≡ Err ArrayError.NoMemory → is_bytes self.old.values ≡ true }
    {
        let bytes = self.bytes;
        match patch_record(alloc, &mut self.array, bytes, starts, counts, values) {
            Ok(bytes) => {
                self.bytes = bytes;
                Ok(())
            }
            Err(error) => Err(error),
        }
    }

    /// Moves values into a region of any record, as [`write_patch`] does.
    ///
    /// [`write_patch`]: crate::write_patch
    pub fn patch(
        &mut self,
        alloc: Global,
        starts: &List<i64>,
        counts: &List<i64>,
        values: AnyArray,
    ) -> Result<(), ArrayError>
        ensures done { Refuses result (write_refusal self.old starts.now counts.now values) }
        ensures ok { OnOk result (self.new ≡ patch_array self.old starts.now counts.now values) }
        ensures err { OnErr result (self.new ≡ self.old) }
        ensures sound { OnOk result (record_refusal self.new ≡ None) }
        ensures memory { result ≡ Err ArrayError.NoMemory → is_bytes self.old.values ≡ true }
    {
        if let Some(error) = self.refusal() {
            return Err(error);
        }
        self.patch_array(alloc, starts.as_slice(), counts.as_slice(), values)
    }

    /// Moves values into a region of a record that has no bytes, and notes the time. If they don't fit, it stays as it was.
    pub(crate) fn patch_in_place(
        &mut self,
        alloc: Global,
        at: i64,
        starts: &List<i64>,
        counts: &List<i64>,
        values: AnyArray,
    )
        ensures value { self.new ≡ patched_in_place at starts.now counts.now values self.old }
        ensures sound { record_refusal self.old ≡ None → record_refusal self.new ≡ None }
    {
        if has_bytes(&self.as_record().values) {
            return;
        }
        if self.patch(alloc, starts, counts, values).is_ok() {
            self.array.written = at;
        }
    }
}

impl Copied for WeighedArray {
    fn copy(&self, alloc: Global) -> Result<WeighedArray, NoMemory> {
        Ok(WeighedArray {
            array: self.array.copy(alloc)?,
            bytes: self.bytes,
        })
    }
}
