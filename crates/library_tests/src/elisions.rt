//! Sequential executions of small tasks. Their results were worked out by hand.
use seq_elide::{ElideFail, Elided, elide};
use std::alloc::Global;
use std::test::Fail;
use twe_base::{FaultKind, Limits, Place};
use twe_frontend::read_program;
use twe_machine::start;

const QUOTIENT: &[u8] =
    b"deterministic task int z(int a) pure { return 1 / a; }\ntask void main() pure {\n}\n";

/// Two children add 5 to an element each and return it.
const BOTH: &[u8] = b"region D;\n\
int d[2] in D;\n\
deterministic task int half(int j) writes D:[j] { d[j] = d[j] + 5; return d[j]; }\n\
deterministic task int both() writes D:[0], D:[1] {\n\
future f = half.spawn(0);\n\
future g = half.spawn(1);\n\
int a = f.join();\n\
int b = g.join();\n\
return a * 100 + b;\n\
}\n\
task void main() writes D:[0], D:[1], Console {\n\
future f = both.executeLater();\n\
int v = f.getValue();\n\
print(v);\n\
}\n";

/// A task prints before, between and after the prints of its children, and does not join the second one.
const PRINTS: &[u8] = b"deterministic task int leaf(int n) writes Console { print(n); return n; }\n\
deterministic task int tree() writes Console {\n\
print(1);\n\
future f = leaf.spawn(2);\n\
int a = f.join();\n\
print(a + 1);\n\
future g = leaf.spawn(4);\n\
return a + 10;\n\
}\n\
task void main() pure {\n}\n";

/// The sequential execution of a declaration of the text, under these limits, on the cells as they are at the start.
fn elide_within(
    alloc: Global,
    lim: Limits,
    text: &[u8],
    task: u32,
    args: &[i32],
) -> Result<Result<Elided, ElideFail>, Fail> {
    let p = read_program(alloc, text)?;
    let st = start(alloc, &p, lim)?;
    Ok(elide(alloc, &p, lim, task, args, &st.cells))
}

/// The sequential execution of a declaration of the text on the cells as they are at the start.
fn elide_from_start(
    alloc: Global,
    text: &[u8],
    task: u32,
    args: &[i32],
) -> Result<Result<Elided, ElideFail>, Fail> {
    elide_within(alloc, Limits::default(), text, task, args)
}

#[test]
fn a_quotient_and_a_division_by_zero(rt: HostRuntime) -> Result<(), Fail> {
    let half = elide_from_start(rt.alloc(), QUOTIENT, 0, &[2])??;
    assert_eq!(rt; half.value, 0);
    let fault = elide_from_start(rt.alloc(), QUOTIENT, 0, &[0])?.err();
    let kind = FaultKind::DivZero;
    let place = Place { line: 1, col: 49 };
    assert_eq!(rt; fault, Some(ElideFail::Fault { kind, place }));
    Ok(())
}

#[test]
fn two_children_run_one_after_another(rt: HostRuntime) -> Result<(), Fail> {
    let both = elide_from_start(rt.alloc(), BOTH, 1, &[])??;
    assert_eq!(rt; both.value, 505);
    assert_eq!(rt; both.cells.as_slice(), [5, 5].as_slice());
    assert_eq!(rt; both.prints.len(), 0);
    assert_eq!(rt; both.makes, 2);
    let main = elide_from_start(rt.alloc(), BOTH, 2, &[])?.err();
    assert_eq!(rt; main, Some(ElideFail::NotForkJoin));
    Ok(())
}

#[test]
fn prints_come_in_the_order_of_the_text(rt: HostRuntime) -> Result<(), Fail> {
    // The second child ends before its parent does, which takes no value from it.
    let tree = elide_within(rt.alloc(), Limits::new(1000, 3), PRINTS, 1, &[])??;
    assert_eq!(rt; tree.value, 12);
    assert_eq!(rt; tree.prints.as_slice(), [1, 2, 3, 4].as_slice());
    assert_eq!(rt; tree.makes, 2);
    Ok(())
}

#[test]
fn a_child_more_than_the_limit_is_a_fault(rt: HostRuntime) -> Result<(), Fail> {
    let fault = elide_within(rt.alloc(), Limits::new(1000, 2), PRINTS, 1, &[])?.err();
    let kind = FaultKind::TaskLimit;
    let place = Place { line: 7, col: 12 };
    assert_eq!(rt; fault, Some(ElideFail::Fault { kind, place }));
    Ok(())
}
