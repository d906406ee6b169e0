//! Reading of a class file.

ghost use Rattle.std.specs.Prelude.{◌≡◌, ◌≢◌, [], length, not, ◌||◌, IfOk, IfErr};
ghost use Rattle.jtypes.specs.declared.refusal.Refusal.{Refusal};
ghost use Rattle.jtypes.specs.Layout.{Takes, Gives, first, IsLaidOut, Stands};
ghost use Rattle.constpool.specs.Names.{code_name};
ghost use Rattle.classfile.specs.Code.{is_named, parts_of_code, attributes_are_named};
ghost use Rattle.classfile.specs.Class.{utf8_index, class_index, attribute, attributes, method_attribute, method_attributes, member, interfaces, fields, methods, superclass, header, parts, class_file};

use crate::code::{attributes_are_named, is_named};
use crate::rows::{
    AttributeReader, ClassIndexReader, FieldReader, MethodAttributeReader, MethodReader,
};
use crate::{Attribute, ClassFile, Member, Parts, parts_of_code};
use constpool::{Pool, names, read_pool};
use jtypes::{Cursor, Items, Refusal, row};
use std::alloc::{AllocError, Global};

/// The maximum size of a class file in bytes.
const MOST_BYTES: usize = 65536;

/// The maximum number of methods of a class.
const MOST_METHODS: u16 = 256;

#[tactic(auto, unfolding(crate::specs::Class::utf8_index))]
fn read_utf8_index(pool: &Pool, cursor: &mut Cursor<'_>) -> Result<u16, Refusal>
    ensures { Takes (λ x. x) result (first (utf8_index pool.now) cursor.old) cursor.new }
{
    let i = cursor.u16()?;
    if pool.utf8(i).is_none() {
        return Err(Refusal::BadPool);
    }
    Ok(i)
}

#[tactic(auto, unfolding(crate::specs::Class::class_index))]
pub fn read_class_index(pool: &Pool, cursor: &mut Cursor<'_>) -> Result<u16, Refusal>
    ensures { Takes (λ x. x) result (first (class_index pool.now) cursor.old) cursor.new }
{
    let i = cursor.u16()?;
    if !pool.is_class(i) {
        return Err(Refusal::BadPool);
    }
    Ok(i)
}

#[tactic(auto, unfolding(crate::specs::Class::superclass))]
fn read_superclass(pool: &Pool, cursor: &mut Cursor<'_>) -> Result<u16, Refusal>
    ensures { Takes (λ x. x) result (first (superclass pool.now) cursor.old) cursor.new }
{
    let i = cursor.u16()?;
    if i == 0 || pool.is_class(i) {
        Ok(i)
    } else {
        Err(Refusal::BadPool)
    }
}

#[tactic(auto, unfolding(crate::specs::Class::attribute))]
pub fn read_attribute(
    alloc: Global,
    pool: &Pool,
    cursor: &mut Cursor<'_>,
) -> Result<Attribute, Refusal>
    ensures { Takes (λ x. x) result (first (attribute pool.now) cursor.old) cursor.new }
{
    let name = read_utf8_index(pool, cursor)?;
    let length = cursor.u32()?;
    let content = cursor.part(length as usize)?;
    let content = Items::new(Vec::from_slice(alloc, content)?);
    Ok(Attribute { name, content })
}

#[tactic(auto, unfolding(crate::specs::Class::attributes))]
fn read_attributes(
    alloc: Global,
    pool: &Pool,
    cursor: &mut Cursor<'_>,
) -> Result<Items<Attribute>, Refusal>
    ensures { Takes (λ x. x) result (first (attributes pool.now) cursor.old) cursor.new }
{
    let count = cursor.u16()?;
    row(alloc, &AttributeReader { pool }, usize::from(count), cursor)
}

/// Returns whether the attributes of a `Code` attribute have names. True for any other attribute, and for a `Code` that can't be parsed.
fn is_well_named(alloc: Global, pool: &Pool, attribute: &Attribute) -> Result<bool, AllocError>
    ensures { IfOk result (λ b. b ≡ (not (is_named pool.now code_name attribute.now.name) || attributes_are_named pool.now (parts_of_code attribute.now.content))) }
{
    if !is_named(pool, names::CODE, attribute.name) {
        return Ok(true);
    }
    let parts = parts_of_code(alloc, attribute.content.as_slice())?;
    Ok(attributes_are_named(pool, &parts))
}

#[tactic(auto, unfolding(crate::specs::Class::method_attribute))]
pub fn read_method_attribute(
    alloc: Global,
    pool: &Pool,
    cursor: &mut Cursor<'_>,
) -> Result<Attribute, Refusal>
    ensures { Takes (λ x. x) result (first (method_attribute pool.now) cursor.old) cursor.new }
{
    let attribute = read_attribute(alloc, pool, cursor)?;
    if !is_well_named(alloc, pool, &attribute)? {
        return Err(Refusal::BadPool);
    }
    Ok(attribute)
}

#[tactic(auto, unfolding(crate::specs::Class::method_attributes))]
fn read_method_attributes(
    alloc: Global,
    pool: &Pool,
    cursor: &mut Cursor<'_>,
) -> Result<Items<Attribute>, Refusal>
    ensures { Takes (λ x. x) result (first (method_attributes pool.now) cursor.old) cursor.new }
{
    let count = cursor.u16()?;
    row(
        alloc,
        &MethodAttributeReader { pool },
        usize::from(count),
        cursor,
    )
}

#[tactic(auto, unfolding(crate::specs::Class::member))]
pub fn read_field(alloc: Global, pool: &Pool, cursor: &mut Cursor<'_>) -> Result<Member, Refusal>
    ensures { Takes (λ x. x) result (first (member pool.now (attributes pool.now)) cursor.old) cursor.new }
{
    let flags = cursor.u16()?;
    let name = read_utf8_index(pool, cursor)?;
    let descriptor = read_utf8_index(pool, cursor)?;
    let attributes = read_attributes(alloc, pool, cursor)?;
    Ok(Member {
        flags,
        name,
        descriptor,
        attributes,
    })
}

#[tactic(auto, unfolding(crate::specs::Class::member))]
pub fn read_method(alloc: Global, pool: &Pool, cursor: &mut Cursor<'_>) -> Result<Member, Refusal>
    ensures { Takes (λ x. x) result (first (member pool.now (method_attributes pool.now)) cursor.old) cursor.new }
{
    let flags = cursor.u16()?;
    let name = read_utf8_index(pool, cursor)?;
    let descriptor = read_utf8_index(pool, cursor)?;
    let attributes = read_method_attributes(alloc, pool, cursor)?;
    Ok(Member {
        flags,
        name,
        descriptor,
        attributes,
    })
}

#[tactic(auto, unfolding(crate::specs::Class::interfaces))]
fn read_interfaces(
    alloc: Global,
    pool: &Pool,
    cursor: &mut Cursor<'_>,
) -> Result<Items<u16>, Refusal>
    ensures { Takes (λ x. x) result (first (interfaces pool.now) cursor.old) cursor.new }
{
    let count = cursor.u16()?;
    row(
        alloc,
        &ClassIndexReader { pool },
        usize::from(count),
        cursor,
    )
}

#[tactic(auto, unfolding(crate::specs::Class::fields))]
fn read_fields(
    alloc: Global,
    pool: &Pool,
    cursor: &mut Cursor<'_>,
) -> Result<Items<Member>, Refusal>
    ensures { Takes (λ x. x) result (first (fields pool.now) cursor.old) cursor.new }
{
    let count = cursor.u16()?;
    row(alloc, &FieldReader { pool }, usize::from(count), cursor)
}

#[tactic(auto, unfolding(crate::specs::Class::methods))]
fn read_methods(
    alloc: Global,
    pool: &Pool,
    cursor: &mut Cursor<'_>,
) -> Result<Items<Member>, Refusal>
    ensures { Takes (λ x. x) result (first (methods pool.now) cursor.old) cursor.new }
{
    let count = cursor.u16()?;
    if count > MOST_METHODS {
        return Err(Refusal::TooLarge);
    }
    row(alloc, &MethodReader { pool }, usize::from(count), cursor)
}

/// Reads the magic number and the version, 51.0 or 52.0 (JVMS §4.1).
#[tactic(auto, unfolding(crate::specs::Class::header))]
fn read_header(cursor: &mut Cursor<'_>) -> Result<(), Refusal>
    ensures { Takes (λ x. tt) result (first header cursor.old) cursor.new }
{
    let magic = cursor.u32()?;
    if magic != 0xCAFE_BABE {
        return Err(Refusal::BadMagic);
    }
    let minor = cursor.u16()?;
    let major = cursor.u16()?;
    if minor == 0 && (major == 51 || major == 52) {
        Ok(())
    } else {
        Err(Refusal::BadVersion)
    }
}

#[tactic(auto, unfolding(crate::specs::Class::parts))]
fn read_parts(alloc: Global, pool: &Pool, cursor: &mut Cursor<'_>) -> Result<Parts, Refusal>
    ensures { Takes (λ x. x) result (first (parts pool.now) cursor.old) cursor.new }
{
    let flags = cursor.u16()?;
    let this_class = read_class_index(pool, cursor)?;
    let super_class = read_superclass(pool, cursor)?;
    let interfaces = read_interfaces(alloc, pool, cursor)?;
    let fields = read_fields(alloc, pool, cursor)?;
    let methods = read_methods(alloc, pool, cursor)?;
    let attributes = read_attributes(alloc, pool, cursor)?;
    Ok(Parts {
        flags,
        this_class,
        super_class,
        interfaces,
        fields,
        methods,
        attributes,
    })
}

#[tactic(auto, unfolding(crate::specs::Class::class_file))]
fn read_whole(alloc: Global, bytes: &[u8]) -> Result<ClassFile, Refusal>
    ensures { Gives (λ c. ((c.pool, c.parts), [])) result (first (class_file (length bytes.now)) bytes.now) }
{
    if bytes.len() > MOST_BYTES {
        return Err(Refusal::TooLarge);
    }
    let mut cursor = Cursor::new(bytes);
    read_header(&mut cursor)?;
    let (pool, used) = read_pool(alloc, cursor.rest())?;
    cursor.skip(used);
    let parts = read_parts(alloc, &pool, &mut cursor)?;
    cursor.end()?;
    Ok(ClassFile { pool, parts })
}

/// Reads a whole class file (JVMS §4.1): at most 65,536 bytes and 256 methods, of version 51.0 or 52.0.
pub fn read_class(alloc: Global, bytes: &[u8]) -> Result<ClassFile, Refusal>
    // The whole input is this class.
    ensures found { IfOk result (λ c. IsLaidOut (class_file (length bytes.now)) bytes.now (c.pool, c.parts)) }

    // A class is returned only if no refusal applies, and a refusal that is returned applies, except `NoMemory`.
    ensures accepted { IfOk result (λ _. (r : Refusal) → Stands (class_file (length bytes.now)) bytes.now r → ⊥) }
    ensures refused { IfErr result (λ r. r ≢ Refusal.NoMemory → Stands (class_file (length bytes.now)) bytes.now r) }
{
    read_whole(alloc, bytes)
}
