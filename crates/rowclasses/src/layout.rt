//! Writing of class files (JVMS §4.1).

use crate::pool::{Constant, POOL};
use std::alloc::{AllocError, Global};

/// A `StackMapTable` attribute: its entries as bytes, and their count (JVMS §4.7.4).
#[derive(Clone, Copy)]
pub struct Frames<'a> {
    pub count: u16,
    pub entries: &'a [u8],
}

/// A method whose only attribute is `Code`. `name` and `descriptor` are constant pool indexes.
#[derive(Clone, Copy)]
pub struct Method<'a> {
    pub flags: u16,
    pub name: u16,
    pub descriptor: u16,
    pub max_stack: u16,
    pub max_locals: u16,
    pub code: &'a [u8],
    /// The exception table, 8 bytes an entry.
    pub exceptions: &'a [u8],
    pub frames: Option<Frames<'a>>,
}

/// The access flags of `process`: ACC_PUBLIC and ACC_VARARGS.
const PROCESS: u16 = 0x0081;

/// Returns `process` with the erased descriptor, without exception handlers and stack map frames.
pub fn process<'a>(max_stack: u16, max_locals: u16, code: &'a [u8]) -> Method<'a> {
    Method {
        flags: PROCESS,
        name: 12,
        descriptor: 13,
        max_stack,
        max_locals,
        code,
        exceptions: &[],
        frames: None,
    }
}

/// The constructor: `aload_0`, `invokespecial` java/lang/Object.<init>()V, `return`.
pub const CONSTRUCTOR: Method<'static> = Method {
    flags: 0x0001,
    name: 7,
    descriptor: 8,
    max_stack: 1,
    max_locals: 1,
    code: &[0x2A, 0xB7, 0, 10, 0xB1],
    exceptions: &[],
    frames: None,
};

/// A class file that is being written.
#[derive(Drop)]
struct Bytes {
    bytes: Vec<u8>,
}

impl Bytes {
    fn put(&mut self, part: &[u8]) -> Result<(), AllocError> {
        self.bytes.extend_from_slice(part)
    }

    fn u16(&mut self, n: u16) -> Result<(), AllocError> {
        self.put(&n.to_be_bytes())
    }

    fn u32(&mut self, n: u32) -> Result<(), AllocError> {
        self.put(&n.to_be_bytes())
    }

    /// Writes a length in bytes as four bytes.
    fn length(&mut self, n: usize) -> Result<(), AllocError> {
        self.u32(u32::try_from(n).unwrap_or(u32::MAX))
    }

    fn constant(&mut self, constant: Constant) -> Result<(), AllocError> {
        match constant {
            Constant::Utf8(text) => self.text(text),
            Constant::Numbered(number) => {
                let alloc = *self.bytes.allocator();
                let name = format!(in alloc; "m{number}")?;
                self.text(name.as_bytes())
            }
            Constant::Integer(bits) => {
                self.put(&[3])?;
                self.u32(bits)
            }
            Constant::Long(bits) => {
                self.put(&[5])?;
                self.put(&bits.to_be_bytes())
            }
            Constant::Float(bits) => {
                self.put(&[4])?;
                self.u32(bits)
            }
            Constant::Double(bits) => {
                self.put(&[6])?;
                self.put(&bits.to_be_bytes())
            }
            Constant::MethodHandle(kind, member) => {
                self.put(&[15, kind])?;
                self.u16(member)
            }
            _ => self.reference(constant),
        }
    }

    fn text(&mut self, text: &[u8]) -> Result<(), AllocError> {
        self.put(&[1])?;
        self.u16(u16::try_from(text.len()).unwrap_or(u16::MAX))?;
        self.put(text)
    }

    /// Writes an entry that consists of one or two indexes; writes nothing for any other entry.
    fn reference(&mut self, constant: Constant) -> Result<(), AllocError> {
        match constant {
            Constant::Class(name) => self.indexes(7, &[name]),
            Constant::String(text) => self.indexes(8, &[text]),
            Constant::Fieldref(class, pair) => self.indexes(9, &[class, pair]),
            Constant::Methodref(class, pair) => self.indexes(10, &[class, pair]),
            Constant::InterfaceMethodref(class, pair) => self.indexes(11, &[class, pair]),
            Constant::NameAndType(name, descriptor) => self.indexes(12, &[name, descriptor]),
            Constant::MethodType(descriptor) => self.indexes(16, &[descriptor]),
            Constant::InvokeDynamic(bootstrap, pair) => self.indexes(18, &[bootstrap, pair]),
            _ => Ok(()),
        }
    }

    fn indexes(&mut self, tag: u8, indexes: &[u16]) -> Result<(), AllocError> {
        self.put(&[tag])?;
        for i in indexes {
            self.u16(*i)?;
        }
        Ok(())
    }

    fn frames(&mut self, frames: Frames<'_>) -> Result<(), AllocError> {
        self.u16(14)?;
        self.length(frames.entries.len().saturating_add(2))?;
        self.u16(frames.count)?;
        self.put(frames.entries)
    }

    fn method(&mut self, method: &Method<'_>) -> Result<(), AllocError> {
        for n in [method.flags, method.name, method.descriptor, 1, 11] {
            self.u16(n)?;
        }
        let inner = match method.frames {
            Some(frames) => frames.entries.len().saturating_add(8),
            None => 0,
        };
        let table = method.exceptions.len();
        let outer = method.code.len().saturating_add(table).saturating_add(12);
        self.length(outer.saturating_add(inner))?;
        self.u16(method.max_stack)?;
        self.u16(method.max_locals)?;
        self.length(method.code.len())?;
        self.put(method.code)?;
        self.u16(u16::try_from(table / 8).unwrap_or(u16::MAX))?;
        self.put(method.exceptions)?;
        match method.frames {
            Some(frames) => {
                self.u16(1)?;
                self.frames(frames)
            }
            None => self.u16(0),
        }
    }
}

/// Returns the class file with the default constructor and these methods.
pub fn class_of(alloc: Global, methods: &[Method<'_>]) -> Result<Vec<u8>, AllocError> {
    bytes_of(alloc, &[], &CONSTRUCTOR, methods)
}

/// Returns the class file with this constructor and these methods; the entries of `further` follow those of `POOL`.
pub fn bytes_of(
    alloc: Global,
    further: &[Constant],
    constructor: &Method<'_>,
    methods: &[Method<'_>],
) -> Result<Vec<u8>, AllocError> {
    let mut class = Bytes {
        bytes: Vec::new(alloc),
    };
    class.put(&[0xCA, 0xFE, 0xBA, 0xBE])?;
    let mut count = 55u16;
    for constant in further {
        count = count.saturating_add(constant.indexes());
    }
    for n in [0, 52, count] {
        class.u16(n)?;
    }
    for constant in &POOL {
        class.constant(*constant)?;
    }
    for constant in further {
        class.constant(*constant)?;
    }
    for n in [0x0021, 2, 4, 1, 6, 0] {
        class.u16(n)?;
    }
    class.u16(u16::try_from(methods.len().saturating_add(1)).unwrap_or(u16::MAX))?;
    class.method(constructor)?;
    for method in methods {
        class.method(method)?;
    }
    class.u16(0)?;
    let Bytes { bytes } = class;
    Ok(bytes)
}
