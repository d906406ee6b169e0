//! A class with the signatures of its methods, for the resolution of calls.

ghost use Rattle.std.specs.Prelude.{◌≡◌, IfOk, IfSome};
ghost use Rattle.classfile.specs.View.{view_of};
ghost use Rattle.frames.specs.Signed.{AreSigned, IsNamesake};

use crate::Signature;
use crate::signatures::method_signature;
use classfile::{ClassFile, ClassView, MethodView};
use constpool::{Pool, same_bytes};
use std::alloc::{AllocError, Global};
use std::marker::Model;

/// A method and its signature, which is `None` if the descriptor is outside the profile.
#[derive(Drop)]
pub struct SignedMethod<'a> {
    pub method: MethodView<'a>,
    pub signature: Option<Signature>,
    /// The index of the first method with the same name, if it isn't this one.
    pub namesake: Option<usize>,
}

/// A class for the resolution of its methods' calls. It has each signature and finds equal names once,
/// since 64 KB can hold thousands of calls of a method whose name or descriptor is half as long.
#[derive(Drop)]
pub struct MemberView<'a> {
    class: ClassView<'a>,
    methods: Vec<SignedMethod<'a>>,
}

impl<'a> Model for MemberView<'a> {
    ghost use Rattle.classfile.specs.View.{ClassView};
    ghost use Rattle.frames.specs.Signed.{AreSigned};

    ghost Value = { ClassView };

    ghost view = { λ v. v.class };

    ghost invariant = { λ v. AreSigned v.class v.methods.items };
}

impl<'a> MemberView<'a> {
    pub fn new(alloc: Global, file: &'a ClassFile) -> Result<MemberView<'a>, AllocError>
        ensures { IfOk result (λ v. v ≡ view_of file.now.pool file.now.parts) }
    {
        let class = file.view();
        let methods = signed(alloc, &class)?;
        Ok(MemberView { class, methods })
    }

    /// Returns the class without the signatures.
    pub fn class(&self) -> &ClassView<'a>
        ensures { result.now ≡ self.now }
    {
        &self.class
    }

    pub fn pool(&self) -> &'a Pool
        ensures { result.now ≡ self.now.pool }
    {
        self.class.pool()
    }

    /// Returns the methods of the class, in class file order.
    pub(crate) fn methods(&self) -> &[SignedMethod<'a>]
        ensures { AreSigned self.now result.now }
    {
        self.methods.as_slice()
    }
}

/// Returns the index of the first of these methods with this name.
fn namesake(methods: &[SignedMethod<'_>], name: &[u8]) -> Option<usize>
    ensures { IfSome result (IsNamesake methods.now name.now) }
{
    for j in 0..methods.len() {
        let other = &methods[j];
        if other.namesake.is_none() && same_bytes(other.method.name, name) {
            return Some(j);
        }
    }
    None
}

/// Returns the methods of a class with their signatures, in class file order.
fn signed<'a>(alloc: Global, class: &ClassView<'a>) -> Result<Vec<SignedMethod<'a>>, AllocError>
    ensures { IfOk result (λ methods. AreSigned class.now methods.items) }
{
    let mut methods = Vec::new(alloc);
    for k in 0..class.method_count() {
        if let Some(method) = class.method(k) {
            methods.push(SignedMethod {
                method,
                signature: method_signature(alloc, class, &method)?,
                namesake: namesake(&methods, method.name),
            })?;
        }
    }
    Ok(methods)
}
