// What the phases before the grammar refuse. The top call has rows for all phases.
use hy_base::{Fault, Rule, Span};
use hy_front::front;
use std::test::Fail;

#[test]
fn phases_before_the_grammar(rt: HostRuntime) -> Result<(), Fail> {
    let alloc = rt.alloc();
    let bad = front(alloc, b"fun main() { print(\"a\") }");
    let refused = match bad {
        Ok(_) => None,
        Err(fault) => Some(fault),
    };
    let at = Span { from: 19, to: 20 };
    assert_eq!(rt; refused, Some(Fault::Refused(Rule::L1, at)));
    Ok(())
}
