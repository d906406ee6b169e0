//! The theorem on a small stream.

ghost use Rattle.wire.specs.declared.protocol.Protocol.{Protocol};
ghost use Rattle.test_serve.specs.OneStream.{HasItsAnswer, HasNoOther};
ghost use Rattle.test_serve.specs.Versions.{AnswersVersions, IsOfTwo};

use jtypes::Loader;
use wire::one_front;

/// The stream that puts 1 on key 5 in one round and gets key 5 in the next is served with the value 1 as the reply to the get.
/// Any other output that it is served with is one in which the put is out of memory, and the get returns no value.
/// No loader is asked, whatever it would give.
pub fn one_stream_has_one_answer<L: Loader>(_loader: &L)
    ensures served { (p : Protocol) → HasItsAnswer p (L.gives _loader.now) }
    ensures alone { (p : Protocol) → HasNoOther p (L.gives _loader.now) }
{
    one_front();
}

/// The stream that asks for the version and forgets class 0 is served, in protocol 2, with the version 2 and a denial, and with no other output.
/// In protocol 1 it is not served.
pub fn versions_have_one_answer<L: Loader>(_loader: &L)
    ensures answer { AnswersVersions (L.gives _loader.now) }
    ensures two { IsOfTwo (L.gives _loader.now) }
{
    one_front();
}
