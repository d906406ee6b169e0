use constpool::*;
use jtypes::Refusal;
use std::alloc::Global;

/// A constant pool with an entry of each tag.
static EACH_TAG: [u8; 84] = [
    0, 17, //
    1, 0, 1, b'A', // 1: "A"
    7, 0, 1, // 2: the class A
    3, 0, 0, 0, 7, // 3: the int 7
    4, 0x3F, 0x80, 0, 0, // 4: the float 1
    5, 255, 255, 255, 255, 255, 255, 255, 254, // 5, 6: the long -2
    6, 0x3F, 0xF0, 0, 0, 0, 0, 0, 0, // 7, 8: the double 1
    8, 0, 1, // 9: the string "A"
    12, 0, 1, 0, 1, // 10: the name A with the descriptor A
    9, 0, 2, 0, 10, // 11: a field
    10, 0, 2, 0, 10, // 12: a method
    11, 0, 2, 0, 10, // 13: an interface method
    15, 6, 0, 12, // 14: a method handle
    16, 0, 1, // 15: a method type
    18, 0, 0, 0, 10, // 16: an `invokedynamic` call site
    9, 9, 9, 9, 9, 9, 9, 9, 9, 9, 9, 9, // bytes after the pool
];

fn each_tag(alloc: Global) -> Option<Pool> {
    match read_pool(alloc, &EACH_TAG) {
        Ok((pool, 72)) => Some(pool),
        _ => None,
    }
}

#[test]
fn reads_texts_and_numbers(rt: HostRuntime) {
    let Some(pool) = each_tag(rt.alloc()) else {
        panic!(rt; "no pool");
    };
    assert!(rt; matches!(pool.utf8(1), Some([b'A'])));
    assert!(rt; matches!(pool.class(2), Some([b'A'])));
    assert!(rt; pool.is_class(2) && !pool.is_class(1));
    assert!(rt; pool.int(3) == Some(7) && pool.long(5) == Some(-2));
}

#[test]
fn finds_constants(rt: HostRuntime) {
    let Some(pool) = each_tag(rt.alloc()) else {
        panic!(rt; "no pool");
    };
    for i in [0, 6, 8, 17, 65535] {
        assert!(rt; pool.constant(i).is_none(), "at {i}");
    }
    for i in [1, 4, 7, 9, 10, 11, 14, 15, 16] {
        assert!(rt; pool.constant(i).is_some(), "at {i}");
    }
}

fn is_a(member: Option<MemberRef<'_>>) -> bool {
    match member {
        Some(m) => same_bytes(m.class, b"A")
            && same_bytes(m.name, b"A")
            && same_bytes(m.descriptor, b"A"),
        None => false,
    }
}

#[test]
fn finds_members(rt: HostRuntime) {
    let Some(pool) = each_tag(rt.alloc()) else {
        panic!(rt; "no pool");
    };
    assert!(rt; is_a(pool.method(12)) && is_a(pool.interface_method(13)));
    assert!(rt; pool.method(13).is_none() && pool.interface_method(12).is_none());
    assert!(rt; !same_bytes(b"A", b"AB") && !same_bytes(b"A", b"B"));
}

static REFUSED: [(&[u8], Refusal, &str); 18] = [
    (b"", Refusal::Truncated, "empty"),
    (&[0, 0], Refusal::BadPool, "count 0"),
    (&[0, 2], Refusal::Truncated, "no tag"),
    (&[0, 2, 1, 0, 2, b'A'], Refusal::Truncated, "a cut text"),
    (
        &[0, 2, 5, 0, 0, 0, 0, 0, 0, 0, 1],
        Refusal::BadPool,
        "a long at the last index",
    ),
    (
        &[0, 2, 6, 0, 0, 0, 0, 0, 0, 0, 1],
        Refusal::BadPool,
        "a double there",
    ),
    (&[0, 2, 0], Refusal::BadPool, "tag 0"),
    (&[0, 2, 2], Refusal::BadPool, "tag 2"),
    (&[0, 2, 17, 0, 0, 0, 0], Refusal::BadPool, "tag 17"),
    (&[0, 2, 1, 0, 1, 0], Refusal::BadPool, "byte 00"),
    (&[0, 2, 1, 0, 1, 0xF0], Refusal::BadPool, "byte F0"),
    (&[0, 2, 1, 0, 1, 0xFF], Refusal::BadPool, "byte FF"),
    (&[0, 2, 7, 0, 0], Refusal::BadPool, "index 0"),
    (&[0, 2, 7, 0, 1], Refusal::BadPool, "a class as a name"),
    (&[0, 2, 7, 0, 2], Refusal::BadPool, "past the end"),
    (
        &[0, 3, 1, 0, 0, 10, 0, 1, 0, 1],
        Refusal::BadPool,
        "a text as a class",
    ),
    (
        &[0, 3, 1, 0, 0, 15, 6, 0, 1],
        Refusal::BadPool,
        "a text as a member",
    ),
    (
        &[0, 3, 1, 0, 0, 18, 0, 0, 0, 1],
        Refusal::BadPool,
        "a text as a pair",
    ),
];

#[test]
fn refuses_pools(rt: HostRuntime) {
    for (bytes, want, what) in &REFUSED {
        match read_pool(rt.alloc(), bytes) {
            Ok(_) => assert!(rt; false, "{what} was read"),
            Err(refusal) => assert!(rt; refusal == *want, "{what}"),
        }
    }
}

/// Returns how many parameters a method descriptor has, and how many local variables they occupy; `None` if it is refused.
fn counts(alloc: Global, text: &[u8]) -> Option<(usize, usize)> {
    let Ok(sig) = parse_method_descriptor(alloc, text) else {
        return None;
    };
    Some((sig.params.as_slice().len(), param_slots(&sig)))
}

#[test]
fn reads_descriptors(rt: HostRuntime) {
    for (text, params, slots) in [
        (b"()V".as_slice(), 0, 0),
        (b"(JI[J)Z", 3, 4),
        (b"(Lx;)V", 1, 1),
        (b"(IJZ[I[J[Ljava/lang/Object;LO;)LA;", 7, 8),
    ] {
        assert!(rt;
            counts(rt.alloc(), text) == Some((params, slots)),
            "{text:?}"
        );
    }
}

#[test]
fn reads_a_result(rt: HostRuntime) {
    let Ok(sig) = parse_method_descriptor(rt.alloc(), b"(IJZ[I[J[Ljava/lang/Object;LO;)LA;") else {
        panic!(rt; "no descriptor");
    };
    assert!(rt;
        matches!(&sig.result, Some(FieldType::Class(name)) if same_bytes(name.as_slice(), b"A"))
    );
}

#[test]
fn refuses_descriptors(rt: HostRuntime) {
    for text in [
        b"".as_slice(),
        b"(",
        b"V",
        b"()",
        b"(D)V",
        b"([B)V",
        b"(L;)V",
        b"(Lx)V",
        b"(J",
        b"()VV",
        b"(V)V",
        b"()J;",
        b"([[I)V",
        b"([Lx;)V",
    ] {
        let read = parse_method_descriptor(rt.alloc(), text);
        assert!(rt; matches!(read, Err(Refusal::BadDescriptor)), "{text:?}");
    }
}

/// When an allocation is refused (`rt try --test --fail-alloc N`), the answer is `NoMemory`, or the same as with ample memory.
#[test]
fn answers_or_lacks_memory(rt: HostRuntime) {
    match read_pool(rt.alloc(), &EACH_TAG) {
        Ok((pool, used)) => assert!(rt; used == 72 && is_a(pool.method(12))),
        Err(refusal) => assert_eq!(rt; refusal, Refusal::NoMemory),
    }
    for (bytes, want, what) in &REFUSED {
        match read_pool(rt.alloc(), bytes) {
            Ok(_) => assert!(rt; false, "{what} was read"),
            Err(refusal) => assert!(rt; refusal == *want || refusal == Refusal::NoMemory, "{what}"),
        }
    }
}

/// The same for descriptors.
#[test]
fn reads_descriptors_or_lacks_memory(rt: HostRuntime) {
    match parse_method_descriptor(rt.alloc(), b"(IJ[JLO;)LA;") {
        Ok(sig) => assert_eq!(rt; param_slots(&sig), 5),
        Err(refusal) => assert_eq!(rt; refusal, Refusal::NoMemory),
    }
    let read = parse_method_descriptor(rt.alloc(), b"(LO;LO;)");
    assert!(rt; matches!(read, Err(Refusal::BadDescriptor | Refusal::NoMemory)));
}
