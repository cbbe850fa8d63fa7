//! The text of the load generator for two cells, written out.
use load_text::load_text;
use std::test::Fail;

#[test]
fn two_cells(rt: HostRuntime) -> Result<(), Fail> {
    let text = load_text(rt.alloc(), 2)?;
    let wanted = b"region R, S;
int s in S;
int c0 in R:[0] = 0;
deterministic task void u0() writes R:[0] { c0 = c0 * 3 + 0; }
task void t0() writes R:[0], S { future f = u0.spawn(); f.join(); s = s + c0; }
int c1 in R:[1] = 7;
deterministic task void u1() writes R:[1] { c1 = c1 * 3 + 1; }
task void t1() writes R:[1], S { future f = u1.spawn(); f.join(); s = s + c1; }
task void main() pure {
future f0 = t0.executeLater();
future f1 = t1.executeLater();
}
";
    assert!(rt; text.as_slice() == wanted.as_slice());
    Ok(())
}
