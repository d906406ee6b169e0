//! Advice on what to write instead of refused code.

use jtypes::Refusal;

/// The advice for code that javac is not known to generate.
const UNSEEN: &str = "No Java source was seen to cause this: compile the class again.";

/// Returns the advice for a refusal of the file layout.
fn of_layout(refusal: Refusal) -> &'static str {
    match refusal {
        Refusal::TooLarge => {
            "A class has at most 65,536 bytes and 256 methods: share code by methods, put tables into arguments or entries, and leave -g out."
        }
        Refusal::BadVersion => "Compile with --release 8, or 7.",
        Refusal::BadMagic => "The file is no class file: name the .class file that javac made.",
        _ => "The file is damaged, or no class file: compile it again.",
    }
}

/// Returns the advice for a refusal of the class, its constructor or its methods.
fn of_shape(refusal: Refusal) -> &'static str {
    match refusal {
        Refusal::BadDescriptor => {
            "A method has a parameter or a result of a type that isn't accepted: use int, long, boolean, Object, Number, Long, Integer, Boolean, Void, the entry, int[], long[] or Object[]. jentry-compile takes byte, short and char, and leaves unused methods out."
        }
        Refusal::BadHeader => {
            "Write a plain class with `implements EntryProcessor<Long, Long, ..>` that extends no other, and copy what an abstract base class would hold."
        }
        Refusal::ConstructorForm => {
            "A class has the constructor that javac writes, and no other: `static final` for constants, arguments for what changes, and no constructor in the source."
        }
        Refusal::ClassInitialiser => {
            "No code runs when a class is loaded: write `static final` of int or long with a constant, a local array, or a method that gives the value. jentry-compile computes static final tables and boxed constants at compile time."
        }
        Refusal::NoProcess => "Write a public `process` of the instance in the class itself.",
        Refusal::DuplicateMethod => "Two methods have one name and one descriptor: drop one.",
        Refusal::NoBody => "A native or abstract method has no code: write it in Java.",
        Refusal::BadCode => "The parts of the code don't fit together: compile it again.",
        _ => {
            "Exceptions can't be caught: test before you act, let the exception end the run, and drop `synchronized`."
        }
    }
}

/// Returns the advice for an instruction outside the profile, by its opcode.
fn of_opcode(opcode: u8) -> &'static str {
    match opcode {
        18 | 19 =>
            "Texts other than those of exceptions that are thrown, classes and floats aren't accepted as constants: use numbers as codes, or fixed point in `long`.",
        165 | 166 =>
            "References can't be compared: compare numbers, as `a.longValue() == b.longValue()`.",
        178 | 179 => {
            "Static fields other than Boolean.TRUE and Boolean.FALSE, and enums, can't be used: use arguments, locals, the entry's value, or numbers as codes. jentry-compile makes constants of final fields."
        }
        180 | 181 => {
            "Fields can't be read or written: use arguments, locals or the entry's value. jentry-compile makes constants of final fields."
        }
        186 => "Lambdas and method references aren't accepted: write a method of the class.",
        187 =>
            "Texts can't be joined, and no object can be made but an exception that is thrown at once, without a text or with a constant one: ArithmeticException, EntryProcessorException, IllegalArgumentException, IllegalStateException or UnsupportedOperationException. Use locals, or a `long` that packs several numbers.",
        51..=53 | 84..=86 | 188 => {
            "Arrays are of int or long: write `int[]` or `long[]`. jentry-compile makes int arrays of byte, short, char and boolean arrays."
        }
        83 | 189 =>
            "Arrays of references can't be made or written: use `long[]`, `long...`, or parameters one by one.",
        191 =>
            "Only an exception that is made at once can be thrown: write `throw new IllegalStateException()`, or with a constant text in the parentheses.",
        194 | 195 => "Drop `synchronized`: each run has an instance of its own.",
        168 | 169 | 201 => UNSEEN,
        197 => "Use one array, with the index `width * i + j`.",
        _ => "float and double aren't accepted: use fixed point in `long`, as `v * 119 / 100`.",
    }
}

/// Returns the advice for a refusal of an instruction or its types.
fn of_code(refusal: Refusal) -> &'static str {
    match refusal {
        Refusal::BadOperand =>
            "This call or operand isn't known here: write what is called as a method of the class.",
        Refusal::BackwardBranch => {
            "Loops aren't accepted as they are: compile the class with jentry-compile, which writes the passes of counted loops out, or use a formula."
        }
        Refusal::UnknownMember => {
            "Only methods of the class itself and a few of the entry, Long, Integer, Boolean, Number and Math are known: write it as a method of the class, and cast to Long, Integer, Boolean, Number or Object. jentry-compile copies most methods of Long, Integer, Boolean, Math and Objects into the class."
        }
        Refusal::BadStackMap => {
            "Where ways through the code meet, each local in use has a type that is known here: declare it as Object, Number, Long, Integer or Boolean."
        }
        Refusal::LengthNotConstant => {
            "The length of a new array is a constant from 0 to 65,535: take the greatest length as `final int`, and keep a count beside it."
        }
        _ => UNSEEN,
    }
}

/// Returns the advice for a refusal of the class as a whole.
fn of_bounds(refusal: Refusal) -> &'static str {
    match refusal {
        Refusal::Recursive => {
            "A method mustn't call itself, straight or by others: write a chain of methods, one for each level, or a formula."
        }
        Refusal::StepLimit =>
            "Some way through the code has more than 4,000,000 instructions: make fewer calls.",
        Refusal::WordLimit => {
            "The arrays of one way through the code take more than 65,536 words: make an array once, and hand it on."
        }
        Refusal::FrameLimit => {
            "More than 64 methods are open at once, or more than 8,192 slots in them: flatten the chain of calls, and use fewer locals."
        }
        _ => "There was no memory left to judge the class.",
    }
}

/// Returns one line on what to write instead of the refused code, and on what the compiler `jentry-compile` rewrites.
pub fn advice(refusal: Refusal) -> &'static str {
    match refusal {
        Refusal::OutsideProfile(opcode) => of_opcode(opcode),
        _ => match refusal.number() {
            1..=6 => of_layout(refusal),
            7..=15 => of_shape(refusal),
            25 | 27..=30 => of_bounds(refusal),
            _ => of_code(refusal),
        },
    }
}
