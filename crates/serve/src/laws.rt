//! Laws of streams.

ghost use Rattle.std.specs.Prelude.{◌≡◌, ℕ, List, length};
ghost use Rattle.wire.specs.declared.protocol.Protocol.{Protocol};
ghost use Rattle.wire.specs.declared.protocol.Protocol.TheVariants.{One};
ghost use Rattle.serve.specs.Classes.{held};
ghost use Rattle.serve.specs.Served.{EndsEarly, Serves, Stand};
ghost use Rattle.serve.specs.CutShort.{FramesGoOn, IsTold};

use crate::fault::ServeFault;
use jtypes::Loader;
use wire::one_front;

/// Law: the whole frames read from a stream that ends early can be continued to a stream that is served,
/// whose answer begins with the bytes written. It also says which rounds were answered before each fault.
pub fn cut_streams_go_on<L: Loader>(_loader: &L)
    ensures goes_on { (p : Protocol) (input output : List ℕ) (fault : ServeFault) → EndsEarly p L.ASKS (L.gives _loader.now) input output fault → FramesGoOn p L.ASKS (L.gives _loader.now) input output }
    ensures told { (p : Protocol) (input output : List ℕ) (fault : ServeFault) → EndsEarly p L.ASKS (L.gives _loader.now) input output fault → IsTold p L.ASKS (L.gives _loader.now) input output fault }
{
    one_front();
}

/// Law: in protocol 1 no class is forgotten, so that the classes that a stream holds are all that it defined.
pub fn protocol_1_forgets_no_class<L: Loader>(_loader: &L)
    ensures { (input output : List ℕ) (s : Stand) → Serves One L.ASKS (L.gives _loader.now) input output s → held s.classes ≡ length s.classes }
{}
