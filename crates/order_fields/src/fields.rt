ghost use Rattle.std.specs.Prelude.{◌≡◌, ◌≤◌, ◌<◌, length, take, get_or, pos, [], IfOk, List, ℤ};
ghost use Rattle.order_fields.specs.OrderTable.{FieldList, field_list, IsFieldList};
ghost use Rattle.order_fields.specs.Kept.{optional_bytes};

use std::alloc::Global;
use std::marker::Model;
use wire_num::OutOfMemory;

/// The most values that an order has: those of GlyphIndex.
const MOST_VALUES: usize = 21;

/// The complete field list of a primary order: its type, the values of its fields in the table's order, and its counted bytes ([MS-RDPEGDI] 2.2.2.2.1.1.2).
#[derive(Drop)]
pub struct Fields {
    count: usize,
    values: [i64; 21],
    counted: Option<Vec<u8>>,
    kind: u8,
}

impl Model for Fields {
    ghost use Rattle.std.specs.Prelude.{take, ◌≤◌};
    ghost use Rattle.order_fields.specs.OrderTable.{FieldList, field_list, IsFieldList};
    ghost use Rattle.order_fields.specs.Kept.{optional_bytes};

    ghost Value = { FieldList };

    ghost view = { λ f. field_list f.kind (take f.count f.values) (optional_bytes f.counted) };

    ghost invariant = { λ f. (f.count ≤ 21) × IsFieldList (field_list f.kind (take f.count f.values) (optional_bytes f.counted)) };
}

impl Fields {
    /// A field list of its type, its values and its counted bytes.
    pub fn new(alloc: Global, kind: u8, values: &[i64], bytes: &[u8]) -> Result<Fields, OutOfMemory>
        requires { IsFieldList (field_list kind values.now bytes.now) }
        ensures { IfOk result (λ f. f ≡ field_list kind values.now bytes.now) }
    {
        let counted = Vec::from_slice(alloc, bytes)?;
        Ok(Fields {
            kind,
            values: padded(values),
            count: values.len(),
            counted: Some(counted),
        })
    }

    /// A field list of its type, its values and its counted bytes, whose vector it takes over.
    pub fn holding(kind: u8, values: &[i64], bytes: Vec<u8>) -> Fields
        requires { IsFieldList (field_list kind values.now bytes.items) }
        ensures { result ≡ field_list kind values.now bytes.items }
    {
        Fields {
            kind,
            values: padded(values),
            count: values.len(),
            counted: Some(bytes),
        }
    }

    /// A field list without counted bytes.
    pub fn plain(kind: u8, values: &[i64]) -> Fields
        requires { IsFieldList (field_list kind values.now []) }
        ensures { result ≡ field_list kind values.now [] }
    {
        let mut fields = Fields {
            kind,
            values: [0; MOST_VALUES],
            count: values.len(),
            counted: None,
        };
        put_front(&mut fields.values, values);
        fields
    }

    /// A field list of its type, of so many values at the front of an array, and of its counted bytes, where it has some, whose vector it takes over.
    pub fn of_front(kind: u8, values: [i64; 21], count: usize, counted: Option<Vec<u8>>) -> Fields
        requires few { count ≤ 21 }
        requires fits { IsFieldList (field_list kind (take count values) (optional_bytes counted)) }
        ensures { result ≡ field_list kind (take count values) (optional_bytes counted) }
    {
        Fields {
            kind,
            values,
            count,
            counted,
        }
    }

    /// The order's type.
    pub fn kind(&self) -> u8
        ensures { result ≡ self.now.code }
    {
        self.kind
    }

    /// The value of the field at a place, counted from 0 in the table's order.
    pub fn value(&self, place: usize) -> i64
        requires { place < length self.now.values.numbers }
        ensures { result ≡ get_or self.now.values.numbers place (pos 0) }
    {
        item(&self.values, place)
    }

    /// All values, in the table's order.
    pub fn values(&self) -> &[i64]
        ensures value { result.now ≡ self.now.values.numbers }
        ensures fits { IsFieldList self.now }
    {
        &self.values[..self.count]
    }

    /// The counted bytes; none where the type has no such field.
    pub fn bytes(&self) -> &[u8]
        ensures { result.now ≡ self.now.values.bytes }
    {
        match &self.counted {
            None => &[],
            Some(bytes) => bytes,
        }
    }

    /// The vector of the counted bytes, to be filled again; `None` where it was made without one.
    pub fn into_bytes(self) -> Option<Vec<u8>>
        ensures { optional_bytes result ≡ self.values.bytes }
    {
        self.counted
    }

    /// What holds of every field list; it does nothing.
    pub fn recall_field_list(&self)
        ensures { IsFieldList self.now }
    {
        let _count = self.count;
    }
}

/// Values at the front of an array of the most that an order has.
fn padded(values: &[i64]) -> [i64; 21]
    requires { length values.now ≤ 21 }
    ensures { take (length values.now) result ≡ values.now }
{
    let mut all = [0; MOST_VALUES];
    put_front(&mut all, values);
    all
}

/// Puts values at the front of others.
fn put_front(all: &mut [i64], values: &[i64])
    requires { length values.now ≤ length all.old }
    ensures { take (length values.now) all.new ≡ values.now }
{
    all[..values.len()].copy_from_slice(values);
}

/// The value at a place.
fn item(values: &[i64], place: usize) -> i64
    requires { place < length values.now }
    ensures { result ≡ get_or values.now place (pos 0) }
{
    values[place]
}
