//! The constant pool of the classes.

/// A constant pool entry (JVMS §4.4).
/// A `u16` is a constant pool index, but for `Numbered` and the first of `InvokeDynamic`, an index of a bootstrap method.
#[derive(Clone, Copy)]
pub enum Constant {
    Utf8(&'static [u8]),
    /// A `Utf8` entry: the letter `m` and this number in decimal.
    Numbered(u16),
    Integer(u32),
    Float(u32),
    Long(u64),
    Double(u64),
    Class(u16),
    String(u16),
    Fieldref(u16, u16),
    Methodref(u16, u16),
    InterfaceMethodref(u16, u16),
    NameAndType(u16, u16),
    MethodHandle(u8, u16),
    MethodType(u16),
    InvokeDynamic(u16, u16),
}

impl Constant {
    /// Returns how many constant pool indexes the entry occupies: 2 for `Long` and `Double`, else 1 (JVMS §4.4.5).
    pub fn indexes(self) -> u16 {
        match self {
            Constant::Long(_) | Constant::Double(_) => 2,
            _ => 1,
        }
    }
}

/// The entries at the indexes 1 to 54, in order; the `Long` at index 49 occupies two.
pub static POOL: [Constant; 53] = [
    Constant::Utf8(b"Row"),
    Constant::Class(1),
    Constant::Utf8(b"java/lang/Object"),
    Constant::Class(3),
    Constant::Utf8(b"javax/cache/processor/EntryProcessor"),
    Constant::Class(5),
    Constant::Utf8(b"<init>"),
    Constant::Utf8(b"()V"),
    Constant::NameAndType(7, 8),
    Constant::Methodref(4, 9),
    Constant::Utf8(b"Code"),
    Constant::Utf8(b"process"),
    Constant::Utf8(b"(Ljavax/cache/processor/MutableEntry;[Ljava/lang/Object;)Ljava/lang/Object;"),
    Constant::Utf8(b"StackMapTable"),
    Constant::Utf8(b"javax/cache/processor/MutableEntry"),
    Constant::Class(15),
    Constant::Utf8(b"java/lang/Long"),
    Constant::Class(17),
    Constant::Utf8(b"exists"),
    Constant::Utf8(b"()Z"),
    Constant::NameAndType(19, 20),
    Constant::InterfaceMethodref(16, 21),
    Constant::Utf8(b"getValue"),
    Constant::Utf8(b"()Ljava/lang/Object;"),
    Constant::NameAndType(23, 24),
    Constant::InterfaceMethodref(16, 25),
    Constant::Utf8(b"setValue"),
    Constant::Utf8(b"(Ljava/lang/Object;)V"),
    Constant::NameAndType(27, 28),
    Constant::InterfaceMethodref(16, 29),
    Constant::Utf8(b"remove"),
    Constant::NameAndType(31, 8),
    Constant::InterfaceMethodref(16, 32),
    Constant::Utf8(b"longValue"),
    Constant::Utf8(b"()J"),
    Constant::NameAndType(34, 35),
    Constant::Methodref(18, 36),
    Constant::Utf8(b"valueOf"),
    Constant::Utf8(b"(J)Ljava/lang/Long;"),
    Constant::NameAndType(38, 39),
    Constant::Methodref(18, 40),
    Constant::Utf8(b"help"),
    Constant::Utf8(b"(J)J"),
    Constant::NameAndType(42, 43),
    Constant::Methodref(2, 44),
    Constant::Utf8(b"other"),
    Constant::NameAndType(46, 43),
    Constant::Methodref(2, 47),
    Constant::Long(0x8000000000000000),
    Constant::Integer(0x0000FFFF),
    Constant::Utf8(b"(Ljavax/cache/processor/MutableEntry;[Ljava/lang/Object;)Ljava/lang/Long;"),
    Constant::NameAndType(12, 52),
    Constant::Methodref(2, 53),
];
