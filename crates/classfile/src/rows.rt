//! Readers of the items of lists in a class file.

ghost use Rattle.classfile.specs.Class.{attribute, attributes, method_attribute, method_attributes, member, class_index};
ghost use Rattle.classfile.specs.Code.{plain_attribute};

use crate::code::read_plain_attribute;
use crate::reading::{
    read_attribute, read_class_index, read_field, read_method, read_method_attribute,
};
use crate::{Attribute, Member};
use constpool::Pool;
use jtypes::{Cursor, Reader, Refusal};
use std::alloc::Global;

/// Reads attributes without a check of their names.
#[derive(Drop)]
pub struct PlainAttributeReader;

impl Reader for PlainAttributeReader {
    type Item = Attribute;

    ghost layout = { λ _. plain_attribute };

    fn read(&self, alloc: Global, cursor: &mut Cursor<'_>) -> Result<Attribute, Refusal> {
        read_plain_attribute(alloc, cursor)
    }
}

/// Reads attributes of a class or a field.
#[derive(Drop)]
pub struct AttributeReader<'a> {
    pub pool: &'a Pool,
}

impl<'a> Reader for AttributeReader<'a> {
    type Item = Attribute;

    ghost layout = { λ r. attribute r.pool.now };

    fn read(&self, alloc: Global, cursor: &mut Cursor<'_>) -> Result<Attribute, Refusal> {
        read_attribute(alloc, self.pool, cursor)
    }
}

/// Reads attributes of a method, and checks the names of those in a `Code`.
#[derive(Drop)]
pub struct MethodAttributeReader<'a> {
    pub pool: &'a Pool,
}

impl<'a> Reader for MethodAttributeReader<'a> {
    type Item = Attribute;

    ghost layout = { λ r. method_attribute r.pool.now };

    fn read(&self, alloc: Global, cursor: &mut Cursor<'_>) -> Result<Attribute, Refusal> {
        read_method_attribute(alloc, self.pool, cursor)
    }
}

/// Reads fields.
#[derive(Drop)]
pub struct FieldReader<'a> {
    pub pool: &'a Pool,
}

impl<'a> Reader for FieldReader<'a> {
    type Item = Member;

    ghost layout = { λ r. member r.pool.now (attributes r.pool.now) };

    fn read(&self, alloc: Global, cursor: &mut Cursor<'_>) -> Result<Member, Refusal> {
        read_field(alloc, self.pool, cursor)
    }
}

/// Reads methods.
#[derive(Drop)]
pub struct MethodReader<'a> {
    pub pool: &'a Pool,
}

impl<'a> Reader for MethodReader<'a> {
    type Item = Member;

    ghost layout = { λ r. member r.pool.now (method_attributes r.pool.now) };

    fn read(&self, alloc: Global, cursor: &mut Cursor<'_>) -> Result<Member, Refusal> {
        read_method(alloc, self.pool, cursor)
    }
}

/// Reads pool indexes of `Class` constants.
#[derive(Drop)]
pub struct ClassIndexReader<'a> {
    pub pool: &'a Pool,
}

impl<'a> Reader for ClassIndexReader<'a> {
    type Item = u16;

    ghost layout = { λ r. class_index r.pool.now };

    fn read(&self, _alloc: Global, cursor: &mut Cursor<'_>) -> Result<u16, Refusal> {
        read_class_index(self.pool, cursor)
    }
}
