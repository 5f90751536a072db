use crate::composites::{Composites, FRAME};
use std::test::Fail;
use test_texts::{Table, first_wrong};

// Cases as of composites.

const POINTERS: &str = "
0x0004003d 19 90 61 = 0 ; a load
0x0006003d 5 90 60 2 4 = 0 ; a load with memory operands
0x0004003d 6 90 60 = 501 ; a load of another type
0x0004003d 5 90 41 = 501 ; a load of a value
0x0004003d 23 90 62 = 501 ; a load of a struct that ends in a runtime array
0x0004003d 22 90 66 = 501 ; a load of a runtime array
0x0003003e 60 41 = 0 ; a store
0x0003003e 60 42 = 501 ; a store of a signed value
0x0003003e 41 41 = 501 ; a store to a value
0x0003003e 60 5 = 501 ; a store of a type
0x00040041 31 90 61 = 0 ; a pointer to the target
0x00060041 30 90 61 13 42 = 0 ; a pointer to a component of a member
0x00060042 39 90 62 13 41 = 0 ; a pointer to an element of a runtime array
0x00050041 33 90 61 41 = 501 ; a pointer to a member by a value
0x00050041 33 90 61 12 = 501 ; a pointer to a member by a specialised constant
0x00050041 33 90 61 10 = 501 ; a pointer to a third member
0x00050041 33 90 61 14 = 501 ; a pointer to the member before the first
0x00050041 39 90 66 40 = 501 ; a pointer to an element by a boolean
0x00050041 30 90 60 13 = 501 ; a pointer to a part of a scalar
0x00050042 30 90 43 13 = 501 ; a pointer to a part of a value
0x00050041 34 90 63 41 = 502 ; a pointer of another storage class
0x00050042 31 90 63 41 = 502 ; a pointer to another type
0x00050041 5 90 63 41 = 502 ; a part in place of a pointer
0x00050044 5 90 62 1 = 0 ; a runtime array's length
0x00050044 5 90 62 0 = 501 ; the length of the member in front
0x00050044 5 90 61 1 = 501 ; the length of a struct without a runtime array
0x00050044 5 90 59 1 = 501 ; the length of what is no pointer
0x00050044 6 90 62 1 = 502 ; a length as a signed integer
";

#[test]
fn pointers(rt: HostRuntime) -> Result<(), Fail> {
    let table = Table {
        names: "",
        frame: FRAME,
        cases: POINTERS,
    };
    let wrong = first_wrong(rt.alloc(), &Composites, &table)?;
    assert!(rt; wrong.is_none(), "{wrong:?}");
    Ok(())
}

const ATOMICS: &str = "
0x000600e3 5 90 60 13 13 = 0 ; an atomic load
0x000600e3 4 90 65 13 13 = 501 ; an atomic load of a boolean
0x000600e3 7 90 63 13 13 = 501 ; an atomic load of a vector
0x000600e3 6 90 60 13 13 = 502 ; an atomic load as a signed integer
0x000500e4 60 13 13 41 = 0 ; an atomic store
0x000500e4 60 13 13 42 = 501 ; an atomic store of a signed integer
0x000500e4 41 13 13 41 = 501 ; an atomic store to a value
0x000700e5 5 90 60 13 13 41 = 0 ; an exchange
0x000700e5 5 90 60 13 13 42 = 501 ; an exchange with a signed integer
0x000900e6 5 90 60 13 13 13 41 41 = 0 ; a comparing exchange
0x000900e6 5 90 60 13 13 13 42 41 = 501 ; a comparing exchange with a signed value
0x000900e6 5 90 60 13 13 13 41 42 = 501 ; a comparing exchange with a signed comparator
0x000900e6 6 90 60 13 13 13 41 41 = 502 ; a comparing exchange as a signed integer
0x000600e8 5 90 64 13 13 = 0 ; an increment
0x000600e8 4 90 64 13 13 = 502 ; an increment as a boolean
0x000600e9 5 90 41 13 13 = 501 ; a decrement of a value
0x000700ea 5 90 60 13 13 41 = 0 ; an atomic sum
0x000700ea 5 90 60 13 13 42 = 501 ; an atomic sum with a signed value
0x000700eb 5 90 60 13 13 41 = 0 ; an atomic difference
0x000700eb 5 90 60 13 13 42 = 501 ; an atomic difference with a signed value
0x000700ec 5 90 60 13 13 41 = 0 ; an atomic signed minimum
0x000700ec 5 90 60 13 13 42 = 501 ; an atomic signed minimum with a signed value
0x000700ed 5 90 60 13 13 41 = 0 ; an atomic minimum
0x000700ed 5 90 60 13 13 42 = 501 ; an atomic minimum with a signed value
0x000700ee 5 90 60 13 13 41 = 0 ; an atomic signed maximum
0x000700ee 5 90 60 13 13 42 = 501 ; an atomic signed maximum with a signed value
0x000700ef 5 90 60 13 13 41 = 0 ; an atomic maximum
0x000700ef 5 90 60 13 13 42 = 501 ; an atomic maximum with a signed value
0x000700f0 5 90 60 13 13 41 = 0 ; an atomic conjunction
0x000700f0 5 90 60 13 13 42 = 501 ; an atomic conjunction with a signed value
0x000700f1 5 90 60 13 13 41 = 0 ; an atomic disjunction
0x000700f1 5 90 60 13 13 42 = 501 ; an atomic disjunction with a signed value
0x000700f2 5 90 60 13 13 41 = 0 ; an atomic exclusive disjunction
0x000700f2 5 90 60 13 13 42 = 501 ; an atomic exclusive disjunction with a signed value
0x000600a9 5 90 5 5 5 = 0 ; a choice of types
0x00050080 5 90 40 40 = 0 ; a sum of a boolean
";

#[test]
fn atomics_and_others(rt: HostRuntime) -> Result<(), Fail> {
    let table = Table {
        names: "",
        frame: FRAME,
        cases: ATOMICS,
    };
    let wrong = first_wrong(rt.alloc(), &Composites, &table)?;
    assert!(rt; wrong.is_none(), "{wrong:?}");
    Ok(())
}
