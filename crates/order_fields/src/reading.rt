//! What a reader of orders takes from the registers, and keeps in them.

ghost use Rattle.std.specs.Prelude.{◌≡◌, ◌≤◌, length, take};
ghost use Rattle.order_fields.specs.OrderTable.{last_values, registers_after, bounds_after, AreRegisters, FitEdges, FitBounds, field_list, IsFieldList};
ghost use Rattle.order_fields.specs.Kept.{edges_in, optional_edges};

use crate::bounds::Bounds;
use crate::{Fields, Regs};

impl Regs {
    /// The type of the last order.
    pub fn last_kind(&self) -> u8
        ensures { result ≡ self.now.last }
    {
        self.last
    }

    /// The last values of a type, in the table's order; none of another type.
    pub fn last_values(&self, kind: u8) -> &[i64]
        ensures value { result.now ≡ (last_values self.now kind).numbers }
        ensures sound { AreRegisters self.now }
    {
        self.lasts.values(kind)
    }

    /// Puts the last values of a type at the front of others; the result is how many they are.
    pub fn put_last_values(&self, kind: u8, front: &mut [i64]) -> usize
        requires { 21 ≤ length front.old }
        ensures values { take result front.new ≡ (last_values self.now kind).numbers }
        ensures few { result ≤ 21 }
        ensures sound { AreRegisters self.now }
    {
        self.lasts.put_front(kind, front)
    }

    /// The last counted bytes of a type; none of a type without such a field.
    pub fn last_bytes(&self, kind: u8) -> &[u8]
        ensures { result.now ≡ (last_values self.now kind).bytes }
    {
        self.lasts.bytes(kind)
    }

    /// The last bounds.
    pub fn last_bounds(&self) -> Bounds
        ensures value { edges_in result ≡ self.now.bounds }
        ensures fits { FitEdges (edges_in result) }
    {
        self.bounds
    }

    /// Keeps an order and the bounds that it has as the last ones.
    pub fn keep(&mut self, o: &Fields, bounds: Option<Bounds>)
        requires { FitBounds (optional_edges bounds) }
        ensures { self.new ≡ registers_after self.old o.now (optional_edges bounds) }
    {
        let values = o.values();
        self.keep_values(o.kind(), values, o.bytes(), bounds);
    }

    /// The same of an order by its type, its values and its counted bytes.
    pub fn keep_values(&mut self, kind: u8, values: &[i64], bytes: &[u8], bounds: Option<Bounds>)
        requires fits { IsFieldList (field_list kind values.now bytes.now) }
        requires bounds { FitBounds (optional_edges bounds) }
        ensures { self.new ≡ registers_after self.old (field_list kind values.now bytes.now) (optional_edges bounds) }
    {
        self.last = kind;
        self.lasts.keep(kind, values, bytes);
        keep_bounds(&mut self.bounds, bounds);
    }
}

/// Keeps the bounds that an order has, where it has some, as the last ones.
fn keep_bounds(last: &mut Bounds, bounds: Option<Bounds>)
    ensures { edges_in last.new ≡ bounds_after (optional_edges bounds) (edges_in last.old) }
{
    match bounds {
        None => {}
        Some(new) => *last = new,
    }
}
