use classfile::*;
use constpool::{names, same_bytes};
use jtypes::Refusal;
use std::alloc::Global;
use std::process::Abort;
use std::test::Fail;

/// A class `A` with one field and one method `A`, whose `Code` has one attribute.
static CLASS: [u8; 99] = [
    0xCA, 0xFE, 0xBA, 0xBE, 0, 0, 0, 52, // magic and version
    0, 6, // constant pool count
    1, 0, 1, b'A', // 1
    7, 0, 1, // 2
    1, 0, 1, b'O', // 3
    7, 0, 3, // 4
    1, 0, 4, b'C', b'o', b'd', b'e', // 5
    0, 0x21, 0, 2, 0, 4, // flags, this class and superclass
    0, 1, 0, 2, // interfaces
    0, 1, 0, 0, 0, 1, 0, 3, 0, 0, // fields
    0, 1, 0, 9, 0, 1, 0, 3, 0, 1, // methods
    0, 5, 0, 0, 0, 20, // the Code attribute
    0, 2, 0, 1, 0, 0, 0, 1, 0xB1, // maximum stack, maximum locals, code
    0, 0, // exception table
    0, 1, 0, 3, 0, 0, 0, 1, 7, // attributes of the code
    0, 1, 0, 3, 0, 0, 0, 3, 1, 2, 3, // attributes of the class
    0, // a byte after the class file
];

fn class_of(rt: &(impl Abort + AllocGlobal)) -> ClassFile {
    match read_class(rt.alloc(), &CLASS[..98]) {
        Ok(class) => class,
        Err(_) => panic!(rt; "no class"),
    }
}

#[test]
fn reads_a_class(rt: HostRuntime) {
    let class = class_of(&rt);
    assert!(rt; matches!(class.pool.class(2), Some([b'A'])));
    assert_eq!(rt; class.parts.interfaces.as_slice().len(), 1);
    assert_eq!(rt; class.parts.fields.as_slice().len(), 1);
}

#[test]
fn views_a_class(rt: HostRuntime) {
    let class = class_of(&rt);
    let view = class.view();
    assert!(rt; same_bytes(view.name(), b"A") && view.pool().is_class(4));
    assert_eq!(rt; view.method_count(), 1);
    assert!(rt; view.method(1).is_none());
    let Some(method) = view.method(0) else {
        panic!(rt; "no method");
    };
    assert!(rt;
        method.flags == 9 && same_bytes(method.name, b"A") && same_bytes(method.descriptor, b"O")
    );
}

/// Returns the contents of the `Code` attribute of the class's first method, `None` unless it has exactly one.
fn parts(alloc: Global, class: &ClassFile) -> Option<CodeParts> {
    let member = class.parts.methods.as_slice().first()?;
    let attributes = member.attributes.as_slice();
    let Ok(contents) = contents_named(alloc, &class.pool, names::CODE, attributes) else {
        return None;
    };
    if contents.len() != 1 {
        return None;
    }
    parts_of_code(alloc, contents[0]).ok()?
}

#[test]
fn reads_the_parts_of_a_code(rt: HostRuntime) {
    let class = class_of(&rt);
    let Some(parts) = parts(rt.alloc(), &class) else {
        panic!(rt; "no parts of a code");
    };
    assert!(rt; parts.max_stack == 2 && parts.max_locals == 1 && parts.exceptions == 0);
    assert!(rt; same_bytes(parts.code.as_slice(), &[0xB1]));
}

#[test]
fn reads_no_parts_of_a_byte(rt: HostRuntime) {
    assert!(rt; matches!(parts_of_code(rt.alloc(), b"\0"), Ok(None)));
}

/// Returns the class file with the byte at offset `at` set to `to`.
fn changed(at: usize, to: u8) -> [u8; 98] {
    let mut bytes = [0; 98];
    bytes.copy_from_slice(&CLASS[..98]);
    if at < bytes.len() {
        bytes[at] = to;
    }
    bytes
}

#[test]
fn refuses_changed_classes(rt: HostRuntime) {
    let table = [
        (0, 0, Refusal::BadMagic, "the magic"),
        (5, 1, Refusal::BadVersion, "a minor version"),
        (7, 50, Refusal::BadVersion, "an older version"),
        (7, 53, Refusal::BadVersion, "a newer version"),
        (9, 0, Refusal::BadPool, "a pool of count 0"),
        (34, 1, Refusal::BadPool, "a text as this class"),
        (36, 3, Refusal::BadPool, "a text as the superclass"),
        (40, 0, Refusal::BadPool, "no interface"),
        (46, 2, Refusal::BadPool, "a class as a field's name"),
        (51, 1, Refusal::TooLarge, "257 methods"),
        (62, 4, Refusal::BadPool, "a class as an attribute's name"),
        (
            81,
            2,
            Refusal::BadPool,
            "a class as an attribute's name in a Code",
        ),
    ];
    for (at, to, want, what) in table {
        match read_class(rt.alloc(), &changed(at, to)) {
            Ok(_) => assert!(rt; false, "{what} was read"),
            Err(refusal) => assert_eq!(rt; refusal, want, "{what}"),
        }
    }
}

#[test]
fn reads_changed_classes(rt: HostRuntime) {
    let table = [
        (7, 51, "an older version"),
        (36, 0, "no superclass"),
        (62, 3, "another attribute than Code"),
        (79, 0, "a Code that does not fill its length"),
    ];
    for (at, to, what) in table {
        assert!(rt; read_class(rt.alloc(), &changed(at, to)).is_ok(), "{what}");
    }
}

#[test]
fn refuses_other_lengths(rt: HostRuntime) {
    let longer = read_class(rt.alloc(), &CLASS);
    assert!(rt; matches!(longer, Err(Refusal::TrailingBytes)));
    for end in 0..98 {
        let read = read_class(rt.alloc(), &CLASS[..end]);
        assert!(rt; matches!(read, Err(Refusal::Truncated)), "up to {end}");
    }
}

#[test]
fn refuses_too_many_bytes(rt: HostRuntime) -> Result<(), Fail> {
    let large = vec![in rt.alloc(); 0xCA; 65537]?;
    let read = read_class(rt.alloc(), large.as_slice());
    assert!(rt; matches!(read, Err(Refusal::TooLarge)));
    Ok(())
}

/// When an allocation is refused (`rt try --test --fail-alloc N`), the answer is `NoMemory`, or the same as with ample memory.
#[test]
fn answers_or_lacks_memory(rt: HostRuntime) {
    match read_class(rt.alloc(), &CLASS[..98]) {
        Ok(class) => {
            assert_eq!(rt; class.parts.methods.as_slice().len(), 1);
            assert_eq!(rt; class.parts.attributes.as_slice().len(), 1);
        }
        Err(refusal) => assert_eq!(rt; refusal, Refusal::NoMemory),
    }
}

#[test]
fn refuses_or_lacks_memory(rt: HostRuntime) {
    let cut = read_class(rt.alloc(), &CLASS[..97]).err();
    assert!(rt; matches!(cut, Some(Refusal::Truncated | Refusal::NoMemory)));
    let unnamed = read_class(rt.alloc(), &changed(81, 2)).err();
    assert!(rt; matches!(unnamed, Some(Refusal::BadPool | Refusal::NoMemory)));
}

#[test]
fn reads_the_parts_of_a_code_or_lacks_memory(rt: HostRuntime) {
    let parts = parts_of_code(rt.alloc(), &CLASS[67..87]);
    assert!(rt; matches!(parts, Ok(Some(_)) | Err(_)));
}
