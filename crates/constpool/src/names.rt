//! The names that a class file of the profile may use, in internal form (JVMS §4.2.1).

ghost use Rattle.std.specs.Prelude.{◌≡◌};
ghost use Rattle.constpool.specs.Names.{object_name, number_name, long_name, integer_name, boolean_name, void_name, arithmetic_name, entry_processor_exception_name, illegal_argument_name, illegal_state_name, unsupported_operation_name, math_name, mutable_entry_name, entry_processor_name, cache_entry_name, int_array_name, long_array_name, object_array_name, init_name, clinit_name, process_name, process_descriptor, code_name, stack_map_name};

/// `java.lang.Object`
pub const OBJECT: &[u8] = b"java/lang/Object";
/// `java.lang.Number`
pub const NUMBER: &[u8] = b"java/lang/Number";
/// `java.lang.Long`
pub const LONG: &[u8] = b"java/lang/Long";
/// `java.lang.Integer`
pub const INTEGER: &[u8] = b"java/lang/Integer";
/// `java.lang.Boolean`
pub const BOOLEAN: &[u8] = b"java/lang/Boolean";
/// `java.lang.Void`
pub const VOID: &[u8] = b"java/lang/Void";
/// `java.lang.ArithmeticException`
pub const ARITHMETIC: &[u8] = b"java/lang/ArithmeticException";
/// `javax.cache.processor.EntryProcessorException`
pub const ENTRY_PROCESSOR_EXCEPTION: &[u8] = b"javax/cache/processor/EntryProcessorException";
/// `java.lang.IllegalArgumentException`
pub const ILLEGAL_ARGUMENT: &[u8] = b"java/lang/IllegalArgumentException";
/// `java.lang.IllegalStateException`
pub const ILLEGAL_STATE: &[u8] = b"java/lang/IllegalStateException";
/// `java.lang.UnsupportedOperationException`
pub const UNSUPPORTED_OPERATION: &[u8] = b"java/lang/UnsupportedOperationException";
/// `java.lang.Math`
pub const MATH: &[u8] = b"java/lang/Math";
/// `javax.cache.processor.MutableEntry`
pub const MUTABLE_ENTRY: &[u8] = b"javax/cache/processor/MutableEntry";
/// `javax.cache.processor.EntryProcessor`
pub const ENTRY_PROCESSOR: &[u8] = b"javax/cache/processor/EntryProcessor";
/// `javax.cache.Cache.Entry`
pub const CACHE_ENTRY: &[u8] = b"javax/cache/Cache$Entry";
/// `int[]`
pub const INT_ARRAY: &[u8] = b"[I";
/// `long[]`
pub const LONG_ARRAY: &[u8] = b"[J";
/// `Object[]`
pub const OBJECT_ARRAY: &[u8] = b"[Ljava/lang/Object;";
/// The name of an instance initialization method (JVMS §2.9).
pub const INIT: &[u8] = b"<init>";
/// The name of a class initialization method (JVMS §2.9).
pub const CLINIT: &[u8] = b"<clinit>";
/// `EntryProcessor.process`
pub const PROCESS: &[u8] = b"process";
/// The erased descriptor of `EntryProcessor.process`.
pub const PROCESS_DESCRIPTOR: &[u8] =
    b"(Ljavax/cache/processor/MutableEntry;[Ljava/lang/Object;)Ljava/lang/Object;";
/// The attribute that holds a method's instructions (JVMS §4.7.3).
pub const CODE: &[u8] = b"Code";
/// The attribute that holds the stack map frames of a `Code` attribute (JVMS §4.7.4).
pub const STACK_MAP_TABLE: &[u8] = b"StackMapTable";

/// The names equal those in the definitions.
pub fn are_spelled_so()
    ensures of_object { OBJECT.now ≡ object_name }
    ensures of_number { NUMBER.now ≡ number_name }
    ensures of_long { LONG.now ≡ long_name }
    ensures of_integer { INTEGER.now ≡ integer_name }
    ensures of_boolean { BOOLEAN.now ≡ boolean_name }
    ensures of_void { VOID.now ≡ void_name }
    ensures of_arithmetic { ARITHMETIC.now ≡ arithmetic_name }
    ensures of_entry_processor_exception { ENTRY_PROCESSOR_EXCEPTION.now ≡ entry_processor_exception_name }
    ensures of_illegal_argument { ILLEGAL_ARGUMENT.now ≡ illegal_argument_name }
    ensures of_illegal_state { ILLEGAL_STATE.now ≡ illegal_state_name }
    ensures of_unsupported_operation { UNSUPPORTED_OPERATION.now ≡ unsupported_operation_name }
    ensures of_math { MATH.now ≡ math_name }
    ensures of_mutable_entry { MUTABLE_ENTRY.now ≡ mutable_entry_name }
    ensures of_entry_processor { ENTRY_PROCESSOR.now ≡ entry_processor_name }
    ensures of_cache_entry { CACHE_ENTRY.now ≡ cache_entry_name }
    ensures of_int_array { INT_ARRAY.now ≡ int_array_name }
    ensures of_long_array { LONG_ARRAY.now ≡ long_array_name }
    ensures of_object_array { OBJECT_ARRAY.now ≡ object_array_name }
    ensures of_init { INIT.now ≡ init_name }
    ensures of_clinit { CLINIT.now ≡ clinit_name }
    ensures of_process { PROCESS.now ≡ process_name }
    ensures of_process_descriptor { PROCESS_DESCRIPTOR.now ≡ process_descriptor }
    ensures of_code { CODE.now ≡ code_name }
    ensures of_stack_map_table { STACK_MAP_TABLE.now ≡ stack_map_name }
{}
