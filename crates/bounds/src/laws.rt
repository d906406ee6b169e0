//! The laws of bounds.

ghost use Rattle.bounds.specs.Table.{EachHasTable, TablesAreBounds};

/// A table of costs satisfies one equation for each instruction. Its cost at a method's start is the method's bounds:
/// no path costs more, and some path costs as much in each of the four measures.
/// A table exists if the methods satisfy `LeadsOn`. The laws are about the definitions only.
pub fn tables_are_bounds()
    ensures bounds { TablesAreBounds }
    ensures table { EachHasTable }
{}
