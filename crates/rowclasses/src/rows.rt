//! Classes found by name: arithmetic, branches, switches, calls of own methods, arrays and `wide` instructions.

use crate::{CONSTRUCTOR, Constant, Frames, Method, bytes_of, class_of};
use std::alloc::{AllocError, Global};

/// A class: its name, and its methods after the constructor.
struct RowClass {
    name: &'static str,
    methods: &'static [Method<'static>],
}

/// `process` with the erased descriptor, and no code.
const PROCESS: Method<'static> = Method {
    flags: 0x0081,
    name: 12,
    descriptor: 13,
    max_stack: 1,
    max_locals: 3,
    code: &[],
    exceptions: &[],
    frames: None,
};

/// static long help(long), without code
const HELP: Method<'static> = Method {
    flags: 0x0008,
    name: 42,
    descriptor: 43,
    max_stack: 2,
    max_locals: 2,
    code: &[],
    exceptions: &[],
    frames: None,
};

/// static long other(long), without code
const OTHER: Method<'static> = Method { name: 46, ..HELP };

static ROWS: [RowClass; 27] = [
    RowClass {
        name: "NestFault",
        methods: &[
            Method {
                max_stack: 3,
                max_locals: 3,
                code: &[
                    0x2B, 0x10, 0x09, 0x85, 0xB8, 0x00, 0x29, 0xB9, 0x00, 0x1E, 0x02, 0x00, 0x09,
                    0xB8, 0x00, 0x2D, 0xB8, 0x00, 0x29, 0xB0,
                ],
                ..PROCESS
            },
            Method {
                max_stack: 4,
                max_locals: 2,
                code: &[0x0A, 0x1E, 0x6D, 0xAD],
                ..HELP
            },
        ],
    },
    RowClass {
        name: "SetRemove",
        methods: &[Method {
            max_stack: 4,
            max_locals: 3,
            code: &[
                0x2B, 0xB9, 0x00, 0x16, 0x01, 0x00, 0x2B, 0x0A, 0xB8, 0x00, 0x29, 0xB9, 0x00, 0x1E,
                0x02, 0x00, 0x2B, 0xB9, 0x00, 0x16, 0x01, 0x00, 0x2B, 0xB9, 0x00, 0x21, 0x01, 0x00,
                0x2B, 0xB9, 0x00, 0x16, 0x01, 0x00, 0x04, 0x78, 0x80, 0x04, 0x78, 0x80, 0x85, 0xB8,
                0x00, 0x29, 0xB0,
            ],
            ..PROCESS
        }],
    },
    RowClass {
        name: "DivLeast",
        methods: &[Method {
            max_stack: 4,
            max_locals: 3,
            code: &[0x14, 0x00, 0x31, 0x02, 0x85, 0x6D, 0xB8, 0x00, 0x29, 0xB0],
            ..PROCESS
        }],
    },
    RowClass {
        name: "RemLeast",
        methods: &[Method {
            max_stack: 4,
            max_locals: 3,
            code: &[0x14, 0x00, 0x31, 0x02, 0x85, 0x71, 0xB8, 0x00, 0x29, 0xB0],
            ..PROCESS
        }],
    },
    RowClass {
        name: "ShiftNeg",
        methods: &[Method {
            max_stack: 3,
            max_locals: 3,
            code: &[0x0A, 0x02, 0x79, 0xB8, 0x00, 0x29, 0xB0],
            ..PROCESS
        }],
    },
    RowClass {
        name: "Loose",
        methods: &[Method {
            max_stack: 2,
            max_locals: 3,
            code: &[0x2C, 0x03, 0x32, 0xB9, 0x00, 0x1A, 0x01, 0x00, 0xB0],
            ..PROCESS
        }],
    },
    RowClass {
        name: "SelfGoto",
        methods: &[Method {
            max_stack: 0,
            max_locals: 3,
            code: &[0xA7, 0x00, 0x00],
            frames: Some(Frames {
                count: 1,
                entries: &[0x00],
            }),
            ..PROCESS
        }],
    },
    RowClass {
        name: "Circle",
        methods: &[
            Method {
                max_stack: 1,
                max_locals: 3,
                code: &[0x01, 0xB0],
                ..PROCESS
            },
            Method {
                max_stack: 2,
                max_locals: 2,
                code: &[0x1E, 0xB8, 0x00, 0x30, 0xAD],
                ..HELP
            },
            Method {
                max_stack: 2,
                max_locals: 2,
                code: &[0x1E, 0xB8, 0x00, 0x2D, 0xAD],
                ..OTHER
            },
        ],
    },
    RowClass {
        name: "ArrJoin",
        methods: &[Method {
            max_stack: 2,
            max_locals: 3,
            code: &[
                0x03, 0x03, 0x99, 0x00, 0x05, 0x57, 0x04, 0xBC, 0x0A, 0xBE, 0x85, 0xB8, 0x00, 0x29,
                0xB0,
            ],
            frames: Some(Frames {
                count: 1,
                entries: &[0x47, 0x01],
            }),
            ..PROCESS
        }],
    },
    RowClass {
        name: "ArrVar",
        methods: &[Method {
            max_stack: 2,
            max_locals: 4,
            code: &[
                0x03, 0x36, 0x03, 0x15, 0x03, 0xBC, 0x0A, 0xBE, 0x85, 0xB8, 0x00, 0x29, 0xB0,
            ],
            ..PROCESS
        }],
    },
    RowClass {
        name: "ArrZero",
        methods: &[Method {
            max_stack: 2,
            max_locals: 3,
            code: &[0x03, 0xBC, 0x0B, 0xBE, 0x85, 0xB8, 0x00, 0x29, 0xB0],
            ..PROCESS
        }],
    },
    RowClass {
        name: "ArrMost",
        methods: &[Method {
            max_stack: 2,
            max_locals: 3,
            code: &[0x12, 0x33, 0xBC, 0x0A, 0xBE, 0x85, 0xB8, 0x00, 0x29, 0xB0],
            ..PROCESS
        }],
    },
    RowClass {
        name: "ArrOver",
        methods: &[Method {
            max_stack: 2,
            max_locals: 3,
            code: &[
                0x03, 0xBC, 0x0A, 0x57, 0x12, 0x33, 0xBC, 0x0A, 0xBE, 0x85, 0xB8, 0x00, 0x29, 0xB0,
            ],
            ..PROCESS
        }],
    },
    RowClass {
        name: "CallArr",
        methods: &[
            Method {
                max_stack: 2,
                max_locals: 3,
                code: &[0x0A, 0xB8, 0x00, 0x2D, 0xB8, 0x00, 0x29, 0xB0],
                ..PROCESS
            },
            Method {
                max_stack: 2,
                max_locals: 2,
                code: &[0x12, 0x33, 0xBC, 0x0A, 0xBE, 0x85, 0xAD],
                ..HELP
            },
        ],
    },
    RowClass {
        name: "CallTwice",
        methods: &[
            Method {
                max_stack: 2,
                max_locals: 3,
                code: &[
                    0x0A, 0xB8, 0x00, 0x2D, 0xB8, 0x00, 0x2D, 0xB8, 0x00, 0x29, 0xB0,
                ],
                ..PROCESS
            },
            Method {
                max_stack: 2,
                max_locals: 2,
                code: &[0x12, 0x33, 0xBC, 0x0A, 0xBE, 0x85, 0xAD],
                ..HELP
            },
        ],
    },
    RowClass {
        name: "Ratio",
        methods: &[Method {
            max_stack: 4,
            max_locals: 5,
            code: &[
                0x2B, 0xB9, 0x00, 0x1A, 0x01, 0x00, 0xC0, 0x00, 0x12, 0xB6, 0x00, 0x25, 0x42, 0x21,
                0x0A, 0x94, 0x9A, 0x00, 0x05, 0x01, 0xB0, 0x0A, 0x21, 0x6D, 0xB8, 0x00, 0x29, 0xB0,
            ],
            frames: Some(Frames {
                count: 1,
                entries: &[0xFC, 0x00, 0x15, 0x04],
            }),
            ..PROCESS
        }],
    },
    RowClass {
        name: "FallIn",
        methods: &[Method {
            max_stack: 2,
            max_locals: 5,
            code: &[0x09, 0x42, 0x03, 0x99, 0x00, 0x05, 0x03, 0x3E, 0x01, 0xB0],
            frames: Some(Frames {
                count: 1,
                entries: &[0xFC, 0x00, 0x08, 0x04],
            }),
            ..PROCESS
        }],
    },
    RowClass {
        name: "FallOk",
        methods: &[Method {
            max_stack: 2,
            max_locals: 5,
            code: &[0x09, 0x42, 0x03, 0x99, 0x00, 0x05, 0x03, 0x3E, 0x01, 0xB0],
            frames: Some(Frames {
                count: 1,
                entries: &[0x08],
            }),
            ..PROCESS
        }],
    },
    RowClass {
        name: "Split",
        methods: &[Method {
            max_stack: 3,
            max_locals: 3,
            code: &[0x09, 0x03, 0x58, 0x57, 0x01, 0xB0],
            ..PROCESS
        }],
    },
    RowClass {
        name: "Bridge",
        methods: &[
            Method {
                descriptor: 52,
                max_stack: 2,
                code: &[0x0A, 0xB8, 0x00, 0x29, 0xB0],
                ..PROCESS
            },
            Method {
                flags: 0x10C1,
                max_stack: 3,
                code: &[0x2A, 0x2B, 0x2C, 0xB6, 0x00, 0x36, 0xB0],
                ..PROCESS
            },
        ],
    },
    RowClass {
        name: "Table",
        methods: &[Method {
            max_stack: 2,
            code: &[
                0x2B, 0xB9, 0x00, 0x1A, 0x01, 0x00, 0xC0, 0x00, 0x12, 0xB6, 0x00, 0x25, 0x88, 0xAA,
                0x00, 0x00, 0x00, 0x00, 0x00, 0x1E, 0x00, 0x00, 0x00, 0x01, 0x00, 0x00, 0x00, 0x02,
                0x00, 0x00, 0x00, 0x17, 0x00, 0x00, 0x00, 0x1C, 0x0A, 0xB8, 0x00, 0x29, 0xB0, 0x01,
                0xB0, 0x09, 0xB8, 0x00, 0x29, 0xB0,
            ],
            frames: Some(Frames {
                count: 3,
                entries: &[0x24, 0x04, 0x01],
            }),
            ..PROCESS
        }],
    },
    RowClass {
        name: "TableLong",
        methods: &[Method {
            max_stack: 2,
            code: &[
                0x2B, 0xB9, 0x00, 0x1A, 0x01, 0x00, 0xC0, 0x00, 0x12, 0xB6, 0x00, 0x25, 0x88, 0xAA,
                0x00, 0x00, 0x00, 0x00, 0x00, 0x1E, 0x00, 0x00, 0x00, 0x01, 0x00, 0x00, 0x00, 0x02,
                0x00, 0x00, 0x00, 0x17, 0x00, 0x00, 0x00, 0x1C, 0x0A, 0xB8, 0x00, 0x29, 0xB0, 0x01,
                0xB0, 0x00, 0x09, 0xB8, 0x00, 0x29, 0xB0,
            ],
            frames: Some(Frames {
                count: 3,
                entries: &[0x24, 0x04, 0x01],
            }),
            ..PROCESS
        }],
    },
    RowClass {
        name: "Look",
        methods: &[Method {
            max_stack: 2,
            code: &[
                0x2B, 0xB9, 0x00, 0x1A, 0x01, 0x00, 0xC0, 0x00, 0x12, 0xB6, 0x00, 0x25, 0x88, 0xAB,
                0x00, 0x00, 0x00, 0x00, 0x00, 0x22, 0x00, 0x00, 0x00, 0x02, 0xFF, 0xFF, 0xFF, 0xFB,
                0x00, 0x00, 0x00, 0x1B, 0x00, 0x00, 0x00, 0x09, 0x00, 0x00, 0x00, 0x20, 0x0A, 0xB8,
                0x00, 0x29, 0xB0, 0x01, 0xB0, 0x09, 0xB8, 0x00, 0x29, 0xB0,
            ],
            frames: Some(Frames {
                count: 3,
                entries: &[0x28, 0x04, 0x01],
            }),
            ..PROCESS
        }],
    },
    RowClass {
        name: "LookLong",
        methods: &[Method {
            max_stack: 2,
            code: &[
                0x2B, 0xB9, 0x00, 0x1A, 0x01, 0x00, 0xC0, 0x00, 0x12, 0xB6, 0x00, 0x25, 0x88, 0xAB,
                0x00, 0x00, 0x00, 0x00, 0x00, 0x25, 0x00, 0x00, 0x00, 0x02, 0xFF, 0xFF, 0xFF, 0xFB,
                0x00, 0x00, 0x00, 0x1B, 0x00, 0x00, 0x00, 0x09, 0x00, 0x00, 0x00, 0x20, 0x0A, 0xB8,
                0x00, 0x29, 0xB0, 0x00, 0x00, 0x00, 0x01, 0xB0, 0x09, 0xB8, 0x00, 0x29, 0xB0,
            ],
            frames: Some(Frames {
                count: 3,
                entries: &[0x28, 0x04, 0x04],
            }),
            ..PROCESS
        }],
    },
    RowClass {
        name: "Far",
        methods: &[Method {
            max_stack: 2,
            max_locals: 258,
            code: &[
                0x0A, 0xC4, 0x37, 0x01, 0x00, 0xC4, 0x16, 0x01, 0x00, 0xB8, 0x00, 0x29, 0xB0,
            ],
            ..PROCESS
        }],
    },
    RowClass {
        name: "Inc",
        methods: &[Method {
            max_stack: 2,
            max_locals: 4,
            code: &[
                0x02, 0x3E, 0xC4, 0x84, 0x00, 0x03, 0xFE, 0xD4, 0x1D, 0x85, 0xB8, 0x00, 0x29, 0xB0,
            ],
            ..PROCESS
        }],
    },
    RowClass {
        name: "Jump",
        methods: &[Method {
            code: &[0xC8, 0x00, 0x00, 0x00, 0x05, 0x01, 0xB0],
            frames: Some(Frames {
                count: 1,
                entries: &[0x05],
            }),
            ..PROCESS
        }],
    },
];

/// Returns the class file of the class with this name, `None` if there is no such class.
pub fn class_named(alloc: Global, name: &str) -> Result<Option<Vec<u8>>, AllocError> {
    for row in &ROWS {
        if row.name == name {
            return Ok(Some(class_of(alloc, row.methods)?));
        }
    }
    Ok(None)
}
