//! The laws of unrolled methods. They are about the definitions only.

ghost use Rattle.unrolled.specs.Certificates.{CertificatesCover};
ghost use Rattle.unrolled.specs.Circles.{CertificatesExclude};
ghost use Rattle.unrolled.specs.Example.{LoopIsUnrolled};
ghost use Rattle.unrolled.specs.Forward.{ForwardIsCovered};
ghost use Rattle.unrolled.specs.Limits.{UnrolledExcludes, UnrolledHasBounds};
ghost use Rattle.unrolled.specs.SameBounds.{BoundsAreKept, BoundsAreSame};
ghost use Rattle.unrolled.specs.Tables.{EachHasTable, TablesAreBounds};

/// A table of costs satisfies one equation for each node of a cover. Its cost at a node is the node's bounds:
/// no path costs more, and some path costs as much in each of the four measures.
/// Each cover has a table.
pub fn tables_are_bounds()
    ensures bounds { TablesAreBounds }
    ensures table { EachHasTable }
{}

/// Where no values are followed, the bounds over nodes are the bounds over pcs.
/// So a class in which no branch leads back keeps its bounds.
pub fn bounds_are_same()
    ensures same { BoundsAreSame }
    ensures kept { BoundsAreKept }
{}

/// Where branches lead forward and own calls lower a rank, there is a cover, whatever is followed.
pub fn forward_is_covered()
    ensures { ForwardIsCovered }
{}

/// A list of nodes that passes a Boolean check is a cover.
/// Then no reached node leads in a circle, and no more nodes or values are reached than the list has.
pub fn certificates_cover()
    ensures cover { CertificatesCover }
    ensures exclude { CertificatesExclude }
{}

/// A class whose nodes are listed has bounds. No node leads in a circle, and if a branch leads back, the class reaches no more nodes
/// and values than the limits. A small class with a loop has its nodes listed.
pub fn unrolled_has_bounds()
    ensures bounds { UnrolledHasBounds }
    ensures excludes { UnrolledExcludes }
    ensures example { LoopIsUnrolled }
{}
