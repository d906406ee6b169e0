//! The parts of a class to which its instructions refer.

ghost use Rattle.std.specs.Prelude.{◌≡◌, length, slice_get, option_map};
ghost use Rattle.classfile.specs.View.{text_at, view_of};

use crate::{ClassFile, Member};
use constpool::Pool;
use std::marker::Model;

/// A method as calls refer to it.
#[derive(Clone, Copy)]
pub struct MethodView<'a> {
    pub flags: u16,
    pub name: &'a [u8],
    pub descriptor: &'a [u8],
}

/// The constant pool of a class, its name, and its methods in order.
#[derive(Drop)]
pub struct ClassView<'a> {
    class: &'a ClassFile,
}

impl<'a> Model for ClassView<'a> {
    ghost use Rattle.classfile.specs.View.{ClassView, view_of};

    ghost Value = { ClassView };

    ghost view = { λ v. view_of v.class.now.pool v.class.now.parts };
}

impl<'a> ClassView<'a> {
    pub fn pool(&self) -> &'a Pool
        ensures { result.now ≡ self.now.pool }
    {
        &self.class.pool
    }

    /// Returns the name of the class (JVMS §4.1, `this_class`), or an empty name if the index is invalid.
    pub fn name(&self) -> &'a [u8]
        ensures { result.now ≡ self.now.name }
    {
        self.class
            .pool
            .class(self.class.parts.this_class)
            .unwrap_or(&[])
    }

    pub fn method_count(&self) -> usize
        ensures { result ≡ length self.now.methods }
    {
        self.class.parts.methods.as_slice().len()
    }

    pub fn method(&self, i: usize) -> Option<MethodView<'a>>
        ensures { option_map (λ m. record { flags = m.flags; name = m.name.now; descriptor = m.descriptor.now }) result ≡ slice_get self.now.methods i }
    {
        let method = self.class.parts.methods.as_slice().get(i)?;
        Some(MethodView {
            flags: method.flags,
            name: self.class.method_name(method),
            descriptor: self.class.method_descriptor(method),
        })
    }
}

impl ClassFile {
    /// Returns the parts of the class to which its instructions refer.
    pub fn view(&self) -> ClassView<'_>
        ensures { result ≡ view_of self.now.pool self.now.parts }
    {
        ClassView { class: self }
    }

    /// Returns the name of a method of this class (JVMS §4.6), or an empty name if the index is invalid.
    pub fn method_name(&self, method: &Member) -> &[u8]
        ensures { result.now ≡ text_at self.now.pool method.now.name }
    {
        self.pool.utf8(method.name).unwrap_or(&[])
    }

    /// Returns the descriptor of a method of this class (JVMS §4.6), or an empty one if the index is invalid.
    pub fn method_descriptor(&self, method: &Member) -> &[u8]
        ensures { result.now ≡ text_at self.now.pool method.now.descriptor }
    {
        self.pool.utf8(method.descriptor).unwrap_or(&[])
    }
}
