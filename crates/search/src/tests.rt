ghost use Rattle.search.specs.After.{HasPlaces};

use crate::{
    Following, Known, Length, Node, compared, entered, incremented, length_known, new_array,
    next_nodes, of_one, of_two, successors, tested,
};
use decode::{Instruction, Placed};
use jtypes::{Binary, Comparison, Conversion, Division, Kind, Operation, Pushed, Shift, Test};
use std::alloc::{AllocError, Global};
use std::test::Fail;

#[test]
fn iinc_wraps(rt: HostRuntime) {
    assert!(rt; incremented(-1, Known::Number(3)) == Known::Number(2));
    assert!(rt; incremented(1, Known::Number(i32::MAX)) == Known::Number(i32::MIN));
    assert!(rt; incremented(1, Known::Count) == Known::Narrow);
}

#[test]
fn an_array_keeps_its_length(rt: HostRuntime) {
    assert!(rt; length_known(new_array(Known::Number(5))) == Known::Number(5));
    assert!(rt; new_array(Known::Number(-1)) == Known::Narrow);
    assert!(rt; length_known(Known::Arguments) == Known::Count);
    assert!(rt; matches!(Length::new(i32::MAX), Some(length) if length.elements() == i32::MAX));
}

#[test]
fn there_are_at_most_eight_arguments(rt: HostRuntime) {
    let less = Comparison::Less;
    assert!(rt; compared(less, Known::Count, Known::Number(9)) == Some(true));
    assert!(rt; compared(less, Known::Count, Known::Number(0)) == Some(false));
    assert!(rt; compared(less, Known::Count, Known::Number(8)).is_none());
    assert!(rt; compared(less, Known::Narrow, Known::Number(8)).is_none());
    assert!(rt; compared(less, Known::Number(7), Known::Number(8)) == Some(true));
}

#[test]
fn known_ints_are_computed(rt: HostRuntime) {
    let add = Operation::OnInts(Binary::Add);
    assert!(rt; of_two(add, i32::MAX, 2) == Known::Number(i32::MIN + 1));
    let remainder = Operation::DivideInts(Division::Remainder);
    assert!(rt; of_two(remainder, -7, 3) == Known::Number(-1));
    assert!(rt; of_two(remainder, -7, 0) == Known::Narrow);
    let shift = Operation::ShiftInt(Shift::UnsignedRight);
    assert!(rt; of_two(shift, -1, 33) == Known::Number(i32::MAX));
    let byte = Operation::Convert(Conversion::IntToByte);
    assert!(rt; of_one(byte, 200) == Known::Number(-56));
    assert!(rt; of_one(Operation::Convert(Conversion::IntToLong), 1) == Known::Wide);
}

/// The node before `if_icmpge 13` at pc 4 of `for (int i = 0; i < 2; i++) {}`, whose `i` is local variable 1.
fn loop_test(alloc: Global, i: i32) -> Result<Node, AllocError> {
    let known = Known::Number(i);
    Ok(Node {
        place: 4,
        locals: Vec::from_slice(alloc, &[Known::Narrow, known])?,
        operands: Vec::from_slice(alloc, &[known, Known::Number(2)])?,
    })
}

fn places_after(alloc: Global, x: &Node, instruction: Instruction) -> Result<Vec<usize>, AllocError>
    requires { HasPlaces instruction }
{
    let f = Following {
        values: true,
        ints: Vec::new(alloc),
    };
    let p = Placed {
        place: 4,
        next: 7,
        instruction,
    };
    let mut places = Vec::new(alloc);
    for y in &next_nodes(alloc, x, &f, &p, None)? {
        places.push(y.place)?;
    }
    Ok(places)
}

#[test]
fn a_known_counter_has_one_way(rt: HostRuntime) -> Result<(), Fail> {
    let at_least = Test::OfInts(Comparison::GreaterOrEqual);
    for (i, place) in [(0, 7), (1, 7), (2, 13)] {
        let x = loop_test(rt.alloc(), i)?;
        let places = places_after(rt.alloc(), &x, Instruction::Branch(at_least, 13))?;
        assert!(rt; places.as_slice() == [place].as_slice());
    }
    Ok(())
}

#[test]
fn an_unknown_reference_has_both_ways(rt: HostRuntime) -> Result<(), Fail> {
    let mut x = loop_test(rt.alloc(), 0)?;
    x.operands.push(Known::Narrow)?;
    let places = places_after(rt.alloc(), &x, Instruction::Branch(Test::IsNull, 13))?;
    assert!(rt; places.as_slice() == [7, 13].as_slice());
    let places = places_after(rt.alloc(), &x, Instruction::ReturnVoid)?;
    assert!(rt; places.is_empty());
    Ok(())
}

#[test]
fn an_int_is_followed_if_a_test_looks_at_it(rt: HostRuntime) -> Result<(), Fail> {
    let at_least = Test::OfInts(Comparison::GreaterOrEqual);
    let instructions = [
        Instruction::Load(Kind::Int, 3),
        Instruction::Return(Kind::Int),
        Instruction::Load(Kind::Int, 1),
        Instruction::Push(Pushed::Int(2)),
        Instruction::Branch(at_least, 13),
        Instruction::Load(Kind::Int, 2),
        Instruction::Return(Kind::Int),
    ];
    let mut code = Vec::new(rt.alloc());
    for instruction in instructions {
        code.push(Placed {
            place: 0,
            next: 1,
            instruction,
        })?;
    }
    let ints = tested(rt.alloc(), &code)?;
    assert!(rt; ints.as_slice() == [false, true].as_slice());
    Ok(())
}

#[test]
fn a_long_argument_takes_two_local_variables(rt: HostRuntime) -> Result<(), Fail> {
    let arguments = [
        Known::Narrow,
        Known::Wide,
        Known::Number(3),
        Known::Number(4),
    ];
    let f = Following {
        values: true,
        ints: Vec::from_slice(rt.alloc(), &[false, false, false, true])?,
    };
    let x = entered(rt.alloc(), &f, 6, &arguments)?;
    let kept = [
        Known::Narrow,
        Known::Narrow,
        Known::Narrow,
        Known::Number(3),
        Known::Narrow,
        Known::Narrow,
    ];
    assert!(rt; x.place == 0 && x.operands.is_empty() && x.locals.as_slice() == kept.as_slice());
    let none = Following {
        values: false,
        ints: Vec::new(rt.alloc()),
    };
    assert!(rt; entered(rt.alloc(), &none, 6, &arguments)?.locals.is_empty());
    Ok(())
}

#[test]
fn where_no_values_are_followed_a_successor_has_only_longs(rt: HostRuntime) -> Result<(), Fail> {
    let mut x = loop_test(rt.alloc(), 0)?;
    x.operands.push(Known::Wide)?;
    let f = Following {
        values: false,
        ints: Vec::new(rt.alloc()),
    };
    let p = Placed {
        place: 4,
        next: 5,
        instruction: Instruction::Nop,
    };
    let operands = [Known::Narrow, Known::Narrow, Known::Wide];
    let ys = successors(rt.alloc(), &x, &f, &p, None)?;
    assert!(rt; ys.len() == 1);
    for y in &ys {
        assert!(rt; y.place == 5 && y.locals.is_empty());
        assert!(rt; y.operands.as_slice() == operands.as_slice());
    }
    Ok(())
}
