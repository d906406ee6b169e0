//! Laws of the definitions.

ghost use Rattle.constpool.specs.Descriptor.{ReadsDescriptors};

/// A text is parsed as a signature exactly if the grammar of descriptors gives that signature this text (JVMS §4.3.3).
pub fn descriptors_are_read()
    ensures { ReadsDescriptors }
{}
